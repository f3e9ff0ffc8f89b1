// Makes one row, of two templates or of a constraint.
ghost use Rattle.std.specs.Prelude.{◌≡◌, map, ◌<◌, ◌≤◌, length};
ghost use Rattle.model.specs.Sheet.{symbol_of, sheet_of, constraint};
ghost use Rattle.model.specs.Sheet as model;
ghost use Rattle.model.specs.Range.{Admitted};
ghost use Rattle.inequalities.specs.Rows.{slot_of, equation_row, constraint_row};
ghost use Rattle.inequalities.specs.Rows as specs;

use super::{ROW_SIZE, Row, SIDE};
use fields::FIELDS;
use scan::FIRST_FIELD;

// Where a row counts letters.
const LETTERS: u8 = 6;

// Where a row counts a symbol: a field at the field's number.
fn slot(symbol: u8) -> u8
    ensures { result ≡ slot_of (symbol_of symbol) }
{
    if symbol < FIRST_FIELD {
        LETTERS
    } else {
        symbol - FIRST_FIELD
    }
}

// How often the symbols of a slot occur in a template; in `balance`, how often one symbol does.
fn occurrences(template: &[u8], k: u8) -> u16
    requires { length template.now ≤ 12 }
    ensures { result ≡ specs.occurrences (map symbol_of template.now) k }
{
    let mut n = 0;
    for &symbol in template {
        if slot(symbol) == k {
            n += 1;
        }
    }
    n
}

// How much more often they occur in the one template than in the other.
fn excess(more: &[u8], less: &[u8], k: u8) -> u16
    requires { (length more.now ≤ 12) × (length less.now ≤ 12) }
    ensures { result ≡ specs.excess (map symbol_of more.now) (map symbol_of less.now) k }
{
    occurrences(more, k).saturating_sub(occurrences(less, k))
}

// The row of two templates: that the left one spells a word no longer than the right one.
pub fn equation_row(left: &[u8], right: &[u8]) -> Row
    requires { (length left.now ≤ 12) × (length right.now ≤ 12) }
    ensures { result ≡ equation_row (map symbol_of left.now) (map symbol_of right.now) }
{
    let mut row = [0; ROW_SIZE];
    for f in 0..FIELDS {
        // a field's number fits a byte, but a `u8` is had from a `usize` by a cast alone
        row[f] = excess(left, right, f as u8);
        row[SIDE + f] = excess(right, left, f as u8);
    }
    row[FIELDS] = occurrences(left, LETTERS);
    row[SIDE + FIELDS] = occurrences(right, LETTERS);
    row
}

// A positive number, or 0.
fn positive(n: i16) -> u16
    ensures { result ≡ specs.positive n }
{
    n.max(0).unsigned_abs()
}

// A negative number without its sign, or 0.
fn negative(n: i16) -> u16
    ensures { result ≡ specs.negative n }
{
    n.min(0).unsigned_abs()
}

// The coefficient of field f in constraint r, 0 for a field that the sheet does not have.
fn coefficient(sheet: &[u8], r: usize, f: usize) -> i16
    requires { Admitted sheet.now × (r < length (sheet_of sheet.now).constraints) }
    ensures { result ≡ model.coefficient (constraint (sheet_of sheet.now) r) f }
{
    if f < shape::fields(sheet) {
        i16::from(parts::coefficient(sheet, r, f))
    } else {
        0
    }
}

// The row of constraint r: what is negative stands on the other side.
pub fn constraint_row(sheet: &[u8], r: usize) -> Row
    requires { Admitted sheet.now × (r < length (sheet_of sheet.now).constraints) }
    ensures { result ≡ constraint_row (constraint (sheet_of sheet.now) r) }
{
    let most = parts::most(sheet, r);
    let mut row = [0; ROW_SIZE];
    for f in 0..FIELDS {
        let factor = coefficient(sheet, r, f);
        row[f] = positive(factor);
        row[SIDE + f] = negative(factor);
    }
    row[FIELDS] = negative(most);
    row[SIDE + FIELDS] = positive(most);
    row
}
