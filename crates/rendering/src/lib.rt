// The whole clause file of an accepted sheet, written into a lent buffer part by part. A function that writes returns the offset past what it has
// written.
#![tactic(auto)]

ghost use Rattle.std.specs.Prelude.{suc, ◌+◌, ◌<◌, ◌≤◌, length};
ghost use Rattle.model.specs.Lists.{each, up_to, Puts};
ghost use Rattle.model.specs.Sheet.{sheet_of};
ghost use Rattle.model.specs.Range.{Admitted};
ghost use Rattle.formula.specs.Clause.{fields};
ghost use Rattle.formula.specs.Numbering.{PlaceIn};
ghost use Rattle.formula.specs.Count.{parts};
ghost use Rattle.formula.specs.Dimacs.{file};
ghost use Rattle.shape.specs.Name.{section_of};
ghost use Rattle.dimacs.specs.Codes.{most_code};
ghost use Rattle.rendering.specs.Lines.{place_lines, field_lines, part_lines, section_lines};
ghost use Rattle.rendering.specs.Codes.{pair_lines};

use literals::{ClauseId, put_clause};
use locations::put_equation;
use matching::put_unlike;
use shape::Section;
use sums::put_constraint;

// Not two values at once, each two.
fn put_all_pairs(buf: &mut [u8], at: usize, first: usize, letters: usize) -> usize
    requires { (first ≤ most_code) × (letters ≤ 8) × (at + length (each (up_to (suc letters)) (pair_lines first letters)) ≤ length buf.old) }
    ensures { Puts buf.old at (each (up_to (suc letters)) (pair_lines first letters)) buf.new result }
{
    let mut past = at;
    for a in 0..letters + 1 {
        past = put_unlike(buf, past, first + 2 * a, first, a + 1, letters - a);
    }
    past
}

// Place c of field f.
fn put_place(buf: &mut [u8], at: usize, sheet: &[u8], f: usize, c: usize) -> usize
    requires { Admitted sheet.now × PlaceIn (sheet_of sheet.now) f c × (at + length (place_lines (sheet_of sheet.now) f c) ≤ length buf.old) }
    ensures { Puts buf.old at (place_lines (sheet_of sheet.now) f c) buf.new result }
{
    let letters = shape::letters(sheet);
    let first = 2 * numbering::place_number(sheet, f, c, 0);
    let some = put_clause(buf, at, sheet, ClauseId::SomeValue(f, c));
    let past = put_all_pairs(buf, some, first, letters);
    if c + 1 < shape::limit(sheet, f) {
        return put_clause(buf, past, sheet, ClauseId::BlankTail(f, c));
    }
    past
}

// Field f.
fn put_field(buf: &mut [u8], at: usize, sheet: &[u8], f: usize) -> usize
    requires { Admitted sheet.now × (f < fields (sheet_of sheet.now)) × (at + length (field_lines (sheet_of sheet.now) f) ≤ length buf.old) }
    ensures { Puts buf.old at (field_lines (sheet_of sheet.now) f) buf.new result }
{
    let limit = shape::limit(sheet, f);
    let mut past = at;
    for c in 0..limit {
        past = put_place(buf, past, sheet, f, c);
    }
    past
}

// Part i of a section: a field, an equation, a constraint.
fn put_part(buf: &mut [u8], at: usize, sheet: &[u8], section: Section, i: usize) -> usize
    requires { Admitted sheet.now × (i < parts (sheet_of sheet.now) (section_of section)) × (at + length (part_lines (sheet_of sheet.now) (section_of section) i) ≤ length buf.old) }
    ensures { Puts buf.old at (part_lines (sheet_of sheet.now) (section_of section) i) buf.new result }
{
    match section {
        Section::Fields => put_field(buf, at, sheet, i),
        Section::Equations => put_equation(buf, at, sheet, i),
        Section::Constraints => put_constraint(buf, at, sheet, i),
    }
}

// A section.
fn put_section(buf: &mut [u8], at: usize, sheet: &[u8], section: Section) -> usize
    requires { Admitted sheet.now × (at + length (section_lines (sheet_of sheet.now) (section_of section)) ≤ length buf.old) }
    ensures { Puts buf.old at (section_lines (sheet_of sheet.now) (section_of section)) buf.new result }
{
    let parts = shape::parts(sheet, section);
    let mut past = at;
    for i in 0..parts {
        past = put_part(buf, past, sheet, section, i);
    }
    past
}

// The clause file of an accepted sheet, from the front of the buffer on: line 0, and the lines of the three sections. Returns its length; later
// bytes are as they were.
pub fn put_file(buf: &mut [u8], sheet: &[u8]) -> usize
    requires { Admitted sheet.now × (length (file (sheet_of sheet.now)) ≤ length buf.old) }
    ensures { Puts buf.old 0 (file (sheet_of sheet.now)) buf.new result }
{
    let variables = numbering::variable_count(sheet);
    let clauses = counting::clause_count(sheet);
    let first = dimacs::problem_line(buf, variables, clauses);
    let a = put_section(buf, first, sheet, Section::Fields);
    let b = put_section(buf, a, sheet, Section::Equations);
    put_section(buf, b, sheet, Section::Constraints)
}
