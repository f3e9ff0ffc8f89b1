// The code of a literal: twice the variable's number, and one more for its negation; 0 for none.
#![tactic(auto)]

ghost use Rattle.std.specs.Prelude.{◌≡◌, ◌+◌, ◌*◌, ◌<◌, ◌≤◌, length};
ghost use Rattle.model.specs.Sheet.{sheet_of, template};
ghost use Rattle.model.specs.Range.{Admitted};
ghost use Rattle.model.specs.Cells.{cells};
ghost use Rattle.formula.specs.Clause.{K, S, T, blank};
ghost use Rattle.formula.specs.Numbering.{VariableIn};
ghost use Rattle.formula.specs.Numbering as variable;
ghost use Rattle.codes.specs.Cell.{cell_code};
ghost use Rattle.codes.specs.Sign.{sign_number};

use shape::{FIRST_PLACE, USED};

// How far apart the bytes of the first places of two fields are.
const PLACES: usize = 8;

// The sides of an equation. A side is a number and not an enum: functions take any number, and all but 0 are the right side.
pub const LEFT: usize = 0;

pub const RIGHT: usize = 1;

// The most literals of a clause: nine values of a place.
pub const MOST_LITERALS: usize = 9;

// The sign of a literal: that its variable is so, or that it is not.
#[derive(Clone, Copy, Debug, PartialEq, Eq)]
pub enum Sign {
    Is,
    IsNot,
}

impl From<Sign> for usize {
    ghost from_gives = { λ sign n. n ≡ sign_number sign };

    fn from(sign: Sign) -> usize {
        match sign {
            Sign::Is => 0,
            Sign::IsNot => 1,
        }
    }
}

// The code of K(f,c,a) or, with the sign IsNot, of its negation; so of S(p,i,j) and of T(r,k,n).
pub fn place_code(sheet: &[u8], f: usize, c: usize, a: usize, sign: Sign) -> usize
    requires { Admitted sheet.now × VariableIn (sheet_of sheet.now) (K f c a) }
    ensures { result ≡ 2 * variable.number (sheet_of sheet.now) (K f c a) + sign_number sign }
{
    2 * numbering::place_number(sheet, f, c, a) + usize::from(sign)
}

pub fn location_code(sheet: &[u8], p: usize, i: usize, j: usize, sign: Sign) -> usize
    requires { Admitted sheet.now × VariableIn (sheet_of sheet.now) (S p i j) }
    ensures { result ≡ 2 * variable.number (sheet_of sheet.now) (S p i j) + sign_number sign }
{
    2 * numbering::location_number(sheet, p, i, j) + usize::from(sign)
}

pub fn sum_code(sheet: &[u8], r: usize, k: usize, n: i16, sign: Sign) -> usize
    requires { Admitted sheet.now × VariableIn (sheet_of sheet.now) (T r k n) }
    ensures { result ≡ 2 * variable.number (sheet_of sheet.now) (T r k n) + sign_number sign }
{
    2 * numbering::sum_number(sheet, r, k, n) + usize::from(sign)
}

// The code of "cell i is a" or, with the sign IsNot, of "cell i is not a": 0 for a letter cell, and past the last cell.
pub fn cell_code(sheet: &[u8], p: usize, side: usize, i: usize, a: usize, sign: Sign) -> usize
    requires { Admitted sheet.now × (p < length (sheet_of sheet.now).equations) × (i ≤ 24) × (a ≤ blank (sheet_of sheet.now)) }
    ensures { result ≡ cell_code (sheet_of sheet.now) (cells (sheet_of sheet.now) (template (sheet_of sheet.now) p side)) i a (sign_number sign) }
{
    let x = shape::side(sheet, p, side)[i];
    if x < FIRST_PLACE || x == USED {
        return 0;
    }
    let place = usize::from(x - FIRST_PLACE);
    place_code(sheet, place / PLACES, place % PLACES, a, sign)
}

// The same of "cell i is blank".
pub fn blank_code(sheet: &[u8], p: usize, side: usize, i: usize, sign: Sign) -> usize
    requires { Admitted sheet.now × (p < length (sheet_of sheet.now).equations) × (i ≤ 24) }
    ensures { result ≡ cell_code (sheet_of sheet.now) (cells (sheet_of sheet.now) (template (sheet_of sheet.now) p side)) i (blank (sheet_of sheet.now)) (sign_number sign) }
{
    cell_code(sheet, p, side, i, shape::letters(sheet), sign)
}
