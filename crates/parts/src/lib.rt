// What an accepted sheet says, by number. Every function here requires an accepted sheet and a number of a part that it has. It knows nothing
// of how a sheet comes to be accepted, nor of what it means.
#![tactic(auto)]

ghost use Rattle.std.specs.Prelude.{◌≡◌, map, ◌++◌, ◌<◌, ◌≤◌, length, drop};
ghost use Rattle.model.specs.Lists.{each, Holds};
ghost use Rattle.model.specs.Sheet.{symbol_byte, encode_equation, encode_constraint, Accepted, sheet_of, letter_of};
ghost use Rattle.model.specs.Sheet as model;
ghost use Rattle.parts.specs.Counts.{counts_of};

use scan::{CONSTRAINT_COUNT, EQUATION_COUNT, FIELD_COUNT, HEADER, LETTER_COUNT};

// The four counts of a sheet.
#[derive(Clone, Copy, Debug, PartialEq, Eq)]
pub struct Counts {
    pub letters: u8,
    pub fields: u8,
    pub equations: u8,
    pub constraints: u8,
}

// The four counts.
pub fn four_counts(sheet: &[u8]) -> Counts
    requires { Accepted sheet.now }
    ensures { counts_of result ≡ model.counts_of (sheet_of sheet.now) }
{
    Counts {
        letters: sheet[LETTER_COUNT],
        fields: sheet[FIELD_COUNT],
        equations: sheet[EQUATION_COUNT],
        constraints: sheet[CONSTRAINT_COUNT],
    }
}

// The byte of letter a.
pub fn letter(sheet: &[u8], a: usize) -> u8
    requires { Accepted sheet.now × (a < length (sheet_of sheet.now).letters) }
    ensures { result ≡ letter_of (sheet_of sheet.now) a }
{
    sheet[HEADER + a]
}

// The limit of field f.
pub fn limit(sheet: &[u8], f: usize) -> u8
    requires { Accepted sheet.now × (f < length (sheet_of sheet.now).limits) }
    ensures { result ≡ model.limit (sheet_of sheet.now) f }
{
    let letters = usize::from(sheet[LETTER_COUNT]);
    sheet[HEADER + letters + f]
}

// The offset of equation p or, where p is the equation count, of the first constraint.
fn entry_at(sheet: &[u8], p: usize) -> usize
    requires { Accepted sheet.now × (p ≤ length (sheet_of sheet.now).equations) }
    ensures { Holds sheet.now result (each (drop p (sheet_of sheet.now).equations) encode_equation ++ each (sheet_of sheet.now).constraints encode_constraint) }
{
    let letters = usize::from(sheet[LETTER_COUNT]);
    let fields = usize::from(sheet[FIELD_COUNT]);
    let mut at = HEADER + letters + fields;
    for _ in 0..p {
        let left = usize::from(sheet[at]);
        let right = usize::from(sheet[at + 1]);
        at += 2 + left + right;
    }
    at
}

// The symbols of a template, as that stretch of the caller's sheet: of equation p the left side for side 0, else the right.
pub fn template<'a>(sheet: &'a [u8], p: usize, side: usize) -> &'a [u8]
    requires { Accepted sheet.now × (p < length (sheet_of sheet.now).equations) }
    ensures { result.now ≡ map symbol_byte (model.template (sheet_of sheet.now) p side) }
{
    let at = entry_at(sheet, p);
    let left = usize::from(sheet[at]);
    let right = usize::from(sheet[at + 1]);
    let middle = at + 2 + left;
    if side == 0 {
        &sheet[at + 2..middle]
    } else {
        &sheet[middle..middle + right]
    }
}

// The offset of constraint r.
fn constraint_at(sheet: &[u8], r: usize) -> usize
    requires { Accepted sheet.now × (r < length (sheet_of sheet.now).constraints) }
    ensures { Holds sheet.now result (encode_constraint (model.constraint (sheet_of sheet.now) r)) }
{
    let fields = usize::from(sheet[FIELD_COUNT]);
    let equations = usize::from(sheet[EQUATION_COUNT]);
    let first = entry_at(sheet, equations);
    first + r * (fields + 2)
}

// The coefficient of field f in constraint r.
pub fn coefficient(sheet: &[u8], r: usize, f: usize) -> i8
    requires { Accepted sheet.now × (r < length (sheet_of sheet.now).constraints) × (f < length (sheet_of sheet.now).limits) }
    ensures { result ≡ model.coefficient (model.constraint (sheet_of sheet.now) r) f }
{
    let at = constraint_at(sheet, r);
    sheet[at + f].cast_signed()
}

// The limit of constraint r.
pub fn most(sheet: &[u8], r: usize) -> i16
    requires { Accepted sheet.now × (r < length (sheet_of sheet.now).constraints) }
    ensures { result ≡ (model.constraint (sheet_of sheet.now) r).most }
{
    let fields = usize::from(sheet[FIELD_COUNT]);
    let at = constraint_at(sheet, r) + fields;
    i16::from_be_bytes([sheet[at], sheet[at + 1]])
}
