// How many clauses an accepted sheet has, part by part.
#![tactic(auto)]

ghost use Rattle.std.specs.Prelude.{◌≡◌, ◌<◌, ◌≤◌, length};
ghost use Rattle.model.specs.Lists.{total};
ghost use Rattle.model.specs.Sheet.{sheet_of};
ghost use Rattle.model.specs.Range.{Admitted};
ghost use Rattle.formula.specs.Count.{not_both_count, field_count, equation_count, step_count, constraint_count, parts, part_counts};
ghost use Rattle.formula.specs.Clause.{ids, blank, right_cells};
ghost use Rattle.formula.specs.Count as model;
ghost use Rattle.shape.specs.Bytes.{side_bytes};
ghost use Rattle.shape.specs.Name.{section_of};
ghost use Rattle.kinds.specs.Census.{Counted};

use kinds::Census;
use shape::Section;

// The pairs of two values, of l letters and blank.
pub fn not_both_count(l: usize) -> usize
    requires { l ≤ 8 }
    ensures { (result ≡ not_both_count l) × (result ≤ 72) }
{
    let mut sum = 0;
    for a in 0..l + 1 {
        sum += l - a;
    }
    sum
}

// The clauses of field f: as many for each place, but one fewer for the last.
pub fn field_count(sheet: &[u8], f: usize) -> usize
    requires { Admitted sheet.now × (f < length (sheet_of sheet.now).limits) }
    ensures { (result ≡ field_count (sheet_of sheet.now) f) × (result ≤ 592) }
{
    let limit = shape::limit(sheet, f);
    (limit * (2 + not_both_count(shape::letters(sheet)))).saturating_sub(1)
}

// The census of the right side of equation p, by which its rows are counted.
pub fn survey(sheet: &[u8], p: usize) -> Census
    requires { Admitted sheet.now × (p < length (sheet_of sheet.now).equations) }
    ensures { Counted (blank (sheet_of sheet.now)) (side_bytes (right_cells (sheet_of sheet.now) p)) (length (right_cells (sheet_of sheet.now) p)) result }
{
    let letters = shape::letters(sheet);
    let n = shape::width(sheet, p, 1);
    kinds::census_of(letters, shape::side(sheet, p, 1), n)
}

// The clauses of equation p.
pub fn equation_count(sheet: &[u8], p: usize) -> usize
    requires { Admitted sheet.now × (p < length (sheet_of sheet.now).equations) }
    ensures { (result ≡ equation_count (sheet_of sheet.now) p) × (result ≤ 6876) }
{
    let letters = shape::letters(sheet);
    let m = shape::width(sheet, p, 0);
    let left = shape::side(sheet, p, 0);
    let right = survey(sheet, p);
    let mut sum = 1;
    for i in 0..m + 1 {
        sum += kinds::row_count(letters, left[i], right);
    }
    sum
}

// The clauses of field k's step under constraint r: one for each sum of the fields before it and each length.
pub fn step_count(sheet: &[u8], r: usize, k: usize) -> usize
    requires { Admitted sheet.now × (r < length (sheet_of sheet.now).constraints) × (k < length (sheet_of sheet.now).limits) }
    ensures { (result ≡ step_count (sheet_of sheet.now) r k) × (result ≤ 1737) }
{
    (numbering::spread(sheet, r, k) + 1) * (shape::limit(sheet, k) + 1)
}

// The clauses of all steps under constraint r.
pub fn steps_count(sheet: &[u8], r: usize) -> usize
    requires { Admitted sheet.now × (r < length (sheet_of sheet.now).constraints) }
    ensures { (result ≡ total (length (sheet_of sheet.now).limits) (step_count (sheet_of sheet.now) r)) × (result ≤ 10422) }
{
    let mut sum = 0;
    for k in 0..shape::fields(sheet) {
        sum += step_count(sheet, r, k);
    }
    sum
}

// The clauses of constraint r: the first, those of its steps, and one for each final sum above its limit.
pub fn constraint_count(sheet: &[u8], r: usize) -> usize
    requires { Admitted sheet.now × (r < length (sheet_of sheet.now).constraints) }
    ensures { (result ≡ constraint_count (sheet_of sheet.now) r) × (result ≤ 10616) }
{
    let sums = numbering::spread(sheet, r, shape::fields(sheet)) + 1;
    1 + steps_count(sheet, r) + (sums - numbering::within(sheet, r))
}

// The clauses of part i of a section: of a field, of an equation, of a constraint.
pub fn part_count(sheet: &[u8], section: Section, i: usize) -> usize
    requires { Admitted sheet.now × (i < parts (sheet_of sheet.now) (section_of section)) }
    ensures { (result ≡ part_counts (sheet_of sheet.now) (section_of section) i) × (result ≤ 10616) }
{
    match section {
        Section::Fields => field_count(sheet, i),
        Section::Equations => equation_count(sheet, i),
        Section::Constraints => constraint_count(sheet, i),
    }
}

// The clauses of a section.
fn section_count(sheet: &[u8], section: Section) -> usize
    requires { Admitted sheet.now }
    ensures { (result ≡ total (parts (sheet_of sheet.now) (section_of section)) (part_counts (sheet_of sheet.now) (section_of section))) × (result ≤ 63696) }
{
    let mut sum = 0;
    for i in 0..shape::parts(sheet, section) {
        sum += part_count(sheet, section, i);
    }
    sum
}

// All clauses.
pub fn clause_count(sheet: &[u8]) -> usize
    requires { Admitted sheet.now }
    ensures { (result ≡ length (ids (sheet_of sheet.now))) × (result ≤ 99999) }
{
    section_count(sheet, Section::Fields)
        + section_count(sheet, Section::Equations)
        + section_count(sheet, Section::Constraints)
}
