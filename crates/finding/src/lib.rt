// Finds the clause of a number, counted from 0: whole parts are skipped by their counts.
#![tactic(auto)]

ghost use Rattle.std.specs.Prelude.{◌≡◌, ◌+◌, ◌<◌, ◌≤◌, pos, ◌+ℤ◌, length};
ghost use Rattle.model.specs.Lists.{total};
ghost use Rattle.model.specs.Sheet.{sheet_of, constraint};
ghost use Rattle.model.specs.Range.{Admitted};
ghost use Rattle.formula.specs.Clause.{ids, id_at, least, spread};
ghost use Rattle.formula.specs.Count.{field_count, constraint_count, k_clauses, s_clauses, constraint_start, parts, part_counts, section_start};
ghost use Rattle.shape.specs.Name.{section_of};
ghost use Rattle.literals.specs.Name.{name_of};
ghost use Rattle.finding.specs.Sought.{Sought};

use literals::ClauseId;
use shape::Section;

// Clause n of those of field f.
fn in_field(sheet: &[u8], f: usize, n: usize) -> ClauseId
    requires { Admitted sheet.now × (f < length (sheet_of sheet.now).limits) × (n < field_count (sheet_of sheet.now) f) }
    ensures { name_of result ≡ id_at (sheet_of sheet.now) (total f (field_count (sheet_of sheet.now)) + n) }
{
    let letters = shape::letters(sheet);
    let size = 2 + counting::not_both_count(letters);
    let c = n / size;
    if n % size == 0 {
        return ClauseId::SomeValue(f, c);
    }
    let mut rest = n % size - 1;
    for a in 0..letters {
        if rest < letters - a {
            return ClauseId::NotBoth(f, c, a, a + 1 + rest);
        }
        rest -= letters - a;
    }
    ClauseId::BlankTail(f, c)
}

// The n-th sum of the first k fields, from the least on. The number is cast, since no `From` takes a usize to an i16.
fn sum_at(sheet: &[u8], r: usize, k: usize, n: usize) -> i16
    requires { Admitted sheet.now × (r < length (sheet_of sheet.now).constraints) × (k ≤ length (sheet_of sheet.now).limits) × (n ≤ spread (sheet_of sheet.now) (constraint (sheet_of sheet.now) r) k) }
    ensures { result ≡ least (sheet_of sheet.now) (constraint (sheet_of sheet.now) r) k +ℤ pos n }
{
    numbering::least(sheet, r, k) + (n as i16)
}

// Clause n of those of constraint r.
fn in_constraint(sheet: &[u8], r: usize, n: usize) -> ClauseId
    requires { Admitted sheet.now × (r < length (sheet_of sheet.now).constraints) × (n < constraint_count (sheet_of sheet.now) r) }
    ensures { name_of result ≡ id_at (sheet_of sheet.now) (constraint_start (sheet_of sheet.now) r + n) }
{
    if n == 0 {
        return ClauseId::Zero(r);
    }
    let fields = shape::fields(sheet);
    let mut rest = n - 1;
    for k in 0..fields {
        let size = counting::step_count(sheet, r, k);
        if rest < size {
            let lengths = shape::limit(sheet, k) + 1;
            return ClauseId::Add(r, k, sum_at(sheet, r, k, rest / lengths), rest % lengths);
        }
        rest -= size;
    }
    ClauseId::Bound(
        r,
        sum_at(sheet, r, fields, numbering::within(sheet, r) + rest),
    )
}

// Clause n of those of part i of a section.
fn in_part(sheet: &[u8], section: Section, i: usize, n: usize) -> ClauseId
    requires { Admitted sheet.now × (i < parts (sheet_of sheet.now) (section_of section)) × (n < part_counts (sheet_of sheet.now) (section_of section) i) }
    ensures { name_of result ≡ id_at (sheet_of sheet.now) (section_start (sheet_of sheet.now) (section_of section) + (total i (part_counts (sheet_of sheet.now) (section_of section)) + n)) }
{
    match section {
        Section::Fields => in_field(sheet, i, n),
        Section::Equations => locating::in_equation(sheet, i, n),
        Section::Constraints => in_constraint(sheet, i, n),
    }
}

// Clause n of those of a section; or, where there are too few clauses, the number less how many there are.
fn in_section(sheet: &[u8], section: Section, n: usize) -> Result<ClauseId, usize>
    requires { Admitted sheet.now }
    ensures { Sought (sheet_of sheet.now) (section_start (sheet_of sheet.now) (section_of section)) (total (parts (sheet_of sheet.now) (section_of section)) (part_counts (sheet_of sheet.now) (section_of section))) n result }
{
    let mut rest = n;
    for i in 0..shape::parts(sheet, section) {
        let clauses = counting::part_count(sheet, section, i);
        if rest < clauses {
            return Ok(in_part(sheet, section, i, rest));
        }
        rest -= clauses;
    }
    Err(rest)
}

// The same of the equations' and then the constraints' clauses.
fn past_fields(sheet: &[u8], n: usize) -> Result<ClauseId, usize>
    requires { Admitted sheet.now }
    ensures { Sought (sheet_of sheet.now) (k_clauses (sheet_of sheet.now)) (s_clauses (sheet_of sheet.now) + total (length (sheet_of sheet.now).constraints) (constraint_count (sheet_of sheet.now))) n result }
{
    let found = in_section(sheet, Section::Equations, n);
    found.or_else(|rest| in_section(sheet, Section::Constraints, rest))
}

// The same of all clauses.
pub fn find(sheet: &[u8], n: usize) -> Result<ClauseId, usize>
    requires { Admitted sheet.now }
    ensures { Sought (sheet_of sheet.now) 0 (length (ids (sheet_of sheet.now))) n result }
{
    in_section(sheet, Section::Fields, n).or_else(|rest| past_fields(sheet, rest))
}
