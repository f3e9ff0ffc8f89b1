// A row of bytes of one role, read from an offset on: to its end, or to the first fault. Knows nothing of what rows a sheet has.
#![tactic(auto)]

ghost use Rattle.std.specs.Prelude.{◌≡◌, ◌+◌, ◌≤◌, length, drop};
ghost use Rattle.model.specs.Sheet.{letter_byte, template_byte, coefficient_byte, passes, refusal_of, rest};
ghost use Rattle.model.specs.Sheet as model;
ghost use Rattle.rows.specs.Progress.{number_of, left, role_of, HasLanded};

use scan::FIRST_FIELD;

// A fault that the walk can meet.
#[derive(Clone, Copy, Debug, PartialEq, Eq)]
pub enum Fault {
    Missing,
    Letter,
    Limit,
    SymbolCount,
    Symbol,
    Width,
    Coefficient,
}

// What a byte of the walk stands for. A symbol's role has the letter count and the field count.
#[derive(Clone, Copy, Debug, PartialEq, Eq)]
pub enum Role {
    Letter,
    Limit,
    SymbolCount,
    Symbol(u8, u8),
    Coefficient,
    Most,
}

// Document 01's ranges: a letter's byte, a limit, a symbol count, a coefficient without its sign.
const LEAST_LETTER: u8 = 33;

const GREATEST_LETTER: u8 = 126;

const GREATEST_LIMIT: u8 = 8;

const MOST_SYMBOLS: u8 = 12;

const GREATEST_COEFFICIENT: u8 = 4;

// Whether x is a letter's byte, above the one before it.
fn letter_passes(before: u8, x: u8) -> bool
    ensures { result ≡ passes letter_byte before x }
{
    (LEAST_LETTER..=GREATEST_LETTER).contains(&x) && before < x
}

// Whether x is a symbol of a sheet with so many letters and fields.
fn symbol_passes(letters: u8, fields: u8, x: u8) -> bool
    ensures { result ≡ passes (template_byte letters fields) 0 x }
{
    x < letters || x >= FIRST_FIELD && x - FIRST_FIELD < fields
}

// Whether x is a coefficient's byte.
fn coefficient_passes(x: u8) -> bool
    ensures { result ≡ passes coefficient_byte 0 x }
{
    x.cast_signed().unsigned_abs() <= GREATEST_COEFFICIENT
}

// Whether a byte of this role may follow the byte before it in its row (0 for the first).
fn role_passes(role: Role, before: u8, x: u8) -> bool
    ensures { result ≡ passes (role_of role) before x }
{
    match role {
        Role::Letter => letter_passes(before, x),
        Role::Limit => x <= GREATEST_LIMIT,
        Role::SymbolCount => x <= MOST_SYMBOLS,
        Role::Symbol(letters, fields) => symbol_passes(letters, fields, x),
        Role::Coefficient => coefficient_passes(x),
        Role::Most => true,
    }
}

// The fault of a byte that does not pass.
fn role_fault(role: Role) -> Fault
    ensures { number_of result ≡ refusal_of (role_of role) }
{
    match role {
        Role::Letter => Fault::Letter,
        Role::Limit => Fault::Limit,
        Role::SymbolCount => Fault::SymbolCount,
        Role::Symbol(_, _) => Fault::Symbol,
        Role::Coefficient => Fault::Coefficient,
        Role::Most => Fault::Missing,
    }
}

// A row of n bytes of one role from an offset on: the offset past its end, or the first fault.
pub fn row(sheet: &[u8], role: Role, at: usize, n: usize) -> Result<usize, Fault>
    requires { at ≤ length sheet.now }
    ensures result_value { left sheet.now result ≡ rest (model.row (role_of role) 0 n (drop at sheet.now)) }
    ensures landed { HasLanded sheet.now (at + n) result }
{
    let mut before: u8 = 0;
    for i in 0..n {
        if sheet.len() - at <= i {
            return Err(Fault::Missing);
        }
        let x = sheet[at + i];
        if !role_passes(role, before, x) {
            return Err(role_fault(role));
        }
        before = x;
    }
    Ok(at + n)
}
