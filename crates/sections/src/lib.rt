// The walk through a sheet's bytes after its header: to its end, or to the first fault. Knows nothing of the header's rules, nor
// of what a sheet means.
#![tactic(auto)]

ghost use Rattle.std.specs.Prelude.{◌≡◌, map, ◌+◌, ◌<◌, ◌≤◌, leb, length, take, drop};
ghost use Rattle.model.specs.Sheet.{symbol_of, cells_of, width, rest, times};
ghost use Rattle.model.specs.Sheet as model;
ghost use Rattle.rows.specs.Progress.{left, HasLanded, within};
ghost use Rattle.sections.specs.Sections.{counts_of, limits_in, entry_of, tables_of};

use rows::{Fault, Role, row};
use scan::{FIRST_FIELD, HEADER, WIDEST};

// What the walk repeats.
#[derive(Clone, Copy, Debug, PartialEq, Eq)]
pub enum Section {
    Equations,
    Constraints,
}

// The cells of one symbol: 1 for a letter, its limit for a field.
fn cells_of(limits: &[u8], x: u8) -> usize
    ensures { (result ≡ cells_of limits.now (symbol_of x)) × (result < 256) }
{
    if x < FIRST_FIELD {
        return 1;
    }
    let f = usize::from(x - FIRST_FIELD);
    if f < limits.len() {
        return usize::from(limits[f]);
    }
    0
}

// The width of a template: its letters plus the limits of its fields, repeats counted.
pub fn width_of(limits: &[u8], symbols: &[u8]) -> usize
    requires { length symbols.now ≤ 256 }
    ensures { result ≡ width limits.now (map symbol_of symbols.now) }
{
    let mut total: usize = 0;
    for x in symbols {
        total += cells_of(limits, *x);
    }
    total
}

// Whether the template of n symbols at an offset is at most 24 cells wide.
fn narrow(sheet: &[u8], letters: u8, fields: u8, at: usize, n: usize) -> bool
    requires { (9 + letters + fields ≤ length sheet.now) × (at + n ≤ length sheet.now) × (n ≤ 256) }
    ensures { result ≡ leb (width (limits_in sheet.now letters fields) (map symbol_of (take n (drop at sheet.now)))) 24 }
{
    let first = HEADER + usize::from(letters);
    let limits = &sheet[first..first + usize::from(fields)];
    width_of(limits, &sheet[at..at + n]) <= WIDEST
}

// The two templates of an equation, m and n symbols: the symbols of both, then both widths.
fn sides(
    sheet: &[u8],
    letters: u8,
    fields: u8,
    at: usize,
    m: usize,
    n: usize,
) -> Result<usize, Fault>
    requires { (9 + letters + fields ≤ length sheet.now) × (at ≤ length sheet.now) × (m ≤ 256) × (n ≤ 256) }
    ensures result_value { left sheet.now result ≡ rest (model.sides letters (limits_in sheet.now letters fields) m n (drop at sheet.now)) }
    ensures within { within sheet.now result }
{
    let a = row(sheet, Role::Symbol(letters, fields), at, m)?;
    let e = row(sheet, Role::Symbol(letters, fields), a, n)?;
    if !narrow(sheet, letters, fields, at, m) || !narrow(sheet, letters, fields, a, n) {
        return Err(Fault::Width);
    }
    Ok(e)
}

// One equation at an offset: its two symbol counts, then its sides.
fn equation(sheet: &[u8], letters: u8, fields: u8, at: usize) -> Result<usize, Fault>
    requires { (9 + letters + fields ≤ length sheet.now) × (at ≤ length sheet.now) }
    ensures result_value { left sheet.now result ≡ entry_of sheet.now letters fields Section.Equations (drop at sheet.now) }
    ensures within { within sheet.now result }
{
    let a = row(sheet, Role::SymbolCount, at, 2)?;
    let m = usize::from(sheet[at]);
    let n = usize::from(sheet[at + 1]);
    sides(sheet, letters, fields, a, m, n)
}

// One constraint at an offset: its coefficients and its limit.
fn constraint(sheet: &[u8], letters: u8, fields: u8, at: usize) -> Result<usize, Fault>
    requires { at ≤ length sheet.now }
    ensures result_value { left sheet.now result ≡ entry_of sheet.now letters fields Section.Constraints (drop at sheet.now) }
    ensures within { within sheet.now result }
{
    let a = row(sheet, Role::Coefficient, at, usize::from(fields))?;
    row(sheet, Role::Most, a, 2)
}

// One entry of a section.
fn entry(sheet: &[u8], section: Section, letters: u8, fields: u8, at: usize) -> Result<usize, Fault>
    requires { (9 + letters + fields ≤ length sheet.now) × (at ≤ length sheet.now) }
    ensures result_value { left sheet.now result ≡ entry_of sheet.now letters fields section (drop at sheet.now) }
    ensures within { within sheet.now result }
{
    match section {
        Section::Equations => equation(sheet, letters, fields, at),
        Section::Constraints => constraint(sheet, letters, fields, at),
    }
}

// n entries of a section, one after another.
fn entries(
    sheet: &[u8],
    section: Section,
    letters: u8,
    fields: u8,
    start: usize,
    n: usize,
) -> Result<usize, Fault>
    requires { (9 + letters + fields ≤ length sheet.now) × (start ≤ length sheet.now) }
    ensures result_value { left sheet.now result ≡ rest (times n (entry_of sheet.now letters fields section) (drop start sheet.now)) }
    ensures within { within sheet.now result }
{
    let mut at = start;
    for _ in 0..n {
        at = entry(sheet, section, letters, fields, at)?;
    }
    Ok(at)
}

// The letters and the limits.
fn tables(sheet: &[u8], letters: u8, fields: u8) -> Result<usize, Fault>
    requires { 9 ≤ length sheet.now }
    ensures result_value { left sheet.now result ≡ rest (tables_of letters fields (drop 9 sheet.now)) }
    ensures landed { HasLanded sheet.now (9 + letters + fields) result }
{
    let a = row(sheet, Role::Letter, HEADER, usize::from(letters))?;
    row(sheet, Role::Limit, a, usize::from(fields))
}

// The whole walk, from the header's end on, of a sheet with these counts.
pub fn walked(
    sheet: &[u8],
    letters: u8,
    fields: u8,
    equations: u8,
    constraints: u8,
) -> Result<usize, Fault>
    requires { 9 ≤ length sheet.now }
    ensures result_value { left sheet.now result ≡ rest (model.walk (counts_of letters fields equations constraints) (drop 9 sheet.now)) }
    ensures within { within sheet.now result }
{
    let a = tables(sheet, letters, fields)?;
    let n = usize::from(equations);
    let e = entries(sheet, Section::Equations, letters, fields, a, n)?;
    let r = usize::from(constraints);
    entries(sheet, Section::Constraints, letters, fields, e, r)
}
