// How many bytes the clause file of an accepted sheet has: document 02's No. 4. It is found part by part, as `rendering` writes the file, and no line is written.
#![tactic(auto)]

ghost use Rattle.std.specs.Prelude.{◌≡◌, suc, ◌<◌, ◌≤◌, length};
ghost use Rattle.model.specs.Lists.{each, up_to};
ghost use Rattle.model.specs.Sheet.{sheet_of};
ghost use Rattle.model.specs.Range.{Admitted};
ghost use Rattle.formula.specs.Clause.{ids, fields};
ghost use Rattle.formula.specs.Numbering.{PlaceIn, variable_count};
ghost use Rattle.formula.specs.Count.{parts};
ghost use Rattle.formula.specs.Dimacs.{file_size};
ghost use Rattle.shape.specs.Name.{section_of};
ghost use Rattle.dimacs.specs.Codes.{most_code};
ghost use Rattle.rendering.specs.Lines.{place_lines, field_lines, part_lines, section_lines};
ghost use Rattle.rendering.specs.Codes.{pair_lines};

use codes::{Sign, place_code};
use shape::Section;
use size_line::{ENDING, literal_size, literals_size, unlike_size};
use size_location::equation_size;
use size_sum::constraint_size;

// Not two values at once, each two.
fn pairs_size(first: usize, letters: usize) -> usize
    requires { (first ≤ most_code) × (letters ≤ 8) }
    ensures { (result ≡ length (each (up_to (suc letters)) (pair_lines first letters))) × (result ≤ 1200) }
{
    let mut sum: usize = 0;
    for a in 0..letters + 1 {
        sum += unlike_size(first + 2 * a, first, a + 1, letters - a);
    }
    sum
}

// Place c of field f: that it has a value, not two, and, but for the last place, that a blank is followed by a blank.
fn place_size(sheet: &[u8], f: usize, c: usize) -> usize
    requires { Admitted sheet.now × PlaceIn (sheet_of sheet.now) f c }
    ensures { (result ≡ length (place_lines (sheet_of sheet.now) f c)) × (result ≤ 1300) }
{
    let letters = shape::letters(sheet);
    let first = 2 * numbering::place_number(sheet, f, c, 0);
    let values = literals_size(first, letters + 1) + ENDING + pairs_size(first, letters);
    if c + 1 < shape::limit(sheet, f) {
        let here = literal_size(place_code(sheet, f, c, letters, Sign::IsNot));
        let next = literal_size(place_code(sheet, f, c + 1, letters, Sign::Is));
        return values + here + next + ENDING;
    }
    values
}

// Field f.
fn field_size(sheet: &[u8], f: usize) -> usize
    requires { Admitted sheet.now × (f < fields (sheet_of sheet.now)) }
    ensures { (result ≡ length (field_lines (sheet_of sheet.now) f)) × (result ≤ 400000) }
{
    let limit = shape::limit(sheet, f);
    let mut sum: usize = 0;
    for c in 0..limit {
        sum += place_size(sheet, f, c);
    }
    sum
}

// Part i of a section: a field, an equation, a constraint.
fn part_size(sheet: &[u8], section: Section, i: usize) -> usize
    requires { Admitted sheet.now × (i < parts (sheet_of sheet.now) (section_of section)) }
    ensures { (result ≡ length (part_lines (sheet_of sheet.now) (section_of section) i)) × (result ≤ 400000) }
{
    match section {
        Section::Fields => field_size(sheet, i),
        Section::Equations => equation_size(sheet, i),
        Section::Constraints => constraint_size(sheet, i),
    }
}

// A section.
fn section_size(sheet: &[u8], section: Section) -> usize
    requires { Admitted sheet.now }
    ensures { (result ≡ length (section_lines (sheet_of sheet.now) (section_of section))) × (result ≤ 2400000) }
{
    let parts = shape::parts(sheet, section);
    let mut sum: usize = 0;
    for i in 0..parts {
        sum += part_size(sheet, section, i);
    }
    sum
}

// The whole file of an accepted sheet, by its numbers of variables and clauses: line 0, and the lines of the three sections.
pub fn file_size(sheet: &[u8], variables: usize, clauses: usize) -> usize
    requires { Admitted sheet.now × (variables ≡ variable_count (sheet_of sheet.now)) × (clauses ≡ length (ids (sheet_of sheet.now))) }
    ensures { (result ≡ file_size (sheet_of sheet.now)) × (result ≤ 8000000) }
{
    let first = size_line::problem_size(variables, clauses);
    let fields = section_size(sheet, Section::Fields);
    let equations = section_size(sheet, Section::Equations);
    let constraints = section_size(sheet, Section::Constraints);
    first + fields + equations + constraints
}
