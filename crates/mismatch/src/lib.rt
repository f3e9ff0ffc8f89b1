// Two words compared: how many letters agree from the start, and which rest is left over; and the two words of an equation. It decides nothing.
#![tactic(auto)]

ghost use Rattle.std.specs.Prelude.{◌≡◌, ◌<◌, ltb, length};
ghost use Rattle.model.specs.Lists.{pick};
ghost use Rattle.model.specs.Sheet.{Sheet, sheet_of};
ghost use Rattle.fields.specs.Memory.{Held, meaning};
ghost use Rattle.mismatch.specs.Compares.{Compares, ComparesAt};

use fields::Substitution;
use scan::WIDEST;

// What the comparison of two words gives: how many letters agree from the start, and of the rest its side, 0 for left and 1 for right, and its length.
// The side is a number, as in document 01 and in the interface to C.
#[derive(Clone, Copy, Debug, PartialEq, Eq)]
pub struct Mismatch {
    pub agreeing: usize,
    pub side: usize,
    pub rest: usize,
}

// The side of the rest, by how many letters agree of how many on the left.
fn rest_side(agreeing: usize, left: usize) -> usize
    ensures { result ≡ pick (ltb agreeing left) 0 1 }
{
    if agreeing < left { 0 } else { 1 }
}

// Compares two words.
fn compare<'a>(left: &'a [u8], right: &'a [u8]) -> Mismatch
    ensures { (s : Sheet) → Compares s left.now right.now result }
{
    let agreeing = words::agreeing(left, right);
    let rest = words::rest(left, right).len();
    let side = rest_side(agreeing, left.len());
    Mismatch {
        agreeing,
        side,
        rest,
    }
}

// Compares the words that the two templates of equation p spell.
pub fn compare_sides(sheet: &[u8], p: usize, g: Substitution) -> Mismatch
    requires { Held sheet.now g × (p < length (sheet_of sheet.now).equations) }
    ensures { ComparesAt (sheet_of sheet.now) (meaning sheet.now g) p result }
{
    let mut left = [0u8; WIDEST];
    let m = words::spell(&mut left, parts::template(sheet, p, 0), g);
    let mut right = [0u8; WIDEST];
    let n = words::spell(&mut right, parts::template(sheet, p, 1), g);
    compare(&left[..m], &right[..n])
}
