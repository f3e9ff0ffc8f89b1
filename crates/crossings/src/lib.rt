// The lines of one location in the clause file, written into a lent buffer by the codes of the location and of its two cells: nothing here knows of
// sheets. A function that writes returns the offset past what it has written.
#![tactic(auto)]

ghost use Rattle.std.specs.Prelude.{◌+◌, ◌<◌, ◌≤◌, length};
ghost use Rattle.model.specs.Lists.{Puts};
ghost use Rattle.formula.specs.Kind.{SideIn};
ghost use Rattle.shape.specs.Bytes.{side_of};
ghost use Rattle.dimacs.specs.Codes.{large_code};
ghost use Rattle.crossings.specs.Codes.{past_lines, letter_lines, open_lines, cross_lines, Crossed};

use dimacs::clause_line;
use matching::{put_matches, put_unlike};
use shape::{FIRST_PLACE, USED};

// Where a location is, by codes: how many letters there are, the location's code, and how far that of the location below it is from it.
#[derive(Clone, Copy)]
pub struct Crossing {
    pub l: usize,
    pub down: usize,
    pub here: usize,
}

// What stands on one side of a location: its byte, and the code of its value 0 where it is a place.
#[derive(Clone, Copy)]
pub struct Cell {
    pub byte: u8,
    pub code: usize,
}

// A location where the left side is used up: F, and C before it where a place is on the right.
fn put_past(buf: &mut [u8], at: usize, crossing: Crossing, right: Cell) -> usize
    requires { (crossing.l ≤ 8) × (crossing.here ≤ large_code) × (right.code ≤ large_code) × (at + length (past_lines crossing.l crossing.here (side_of right.byte) right.code) ≤ length buf.old) }
    ensures { Puts buf.old at (past_lines crossing.l crossing.here (side_of right.byte) right.code) buf.new result }
{
    if right.byte == USED {
        return at;
    }
    let not_here = crossing.here + 1;
    if right.byte < FIRST_PLACE {
        return clause_line(buf, at, &[not_here]);
    }
    let y_blank = right.code + 2 * crossing.l;
    let past = clause_line(buf, at, &[not_here, y_blank + 1, crossing.here + 2]);
    clause_line(buf, past, &[not_here, y_blank])
}

// A location with letter a on the left: F, or C where a place is on the right, D, and E where the letters differ.
fn put_letter(buf: &mut [u8], at: usize, crossing: Crossing, a: u8, right: Cell) -> usize
    requires { Crossed crossing.l crossing.down crossing.here 0 right.code × (a < 8) × (at + length (letter_lines crossing.l crossing.down crossing.here a (side_of right.byte) right.code) ≤ length buf.old) }
    ensures { Puts buf.old at (letter_lines crossing.l crossing.down crossing.here a (side_of right.byte) right.code) buf.new result }
{
    let not_here = crossing.here + 1;
    let past_both = crossing.here + crossing.down + 2;
    if right.byte == USED {
        return clause_line(buf, at, &[not_here]);
    }
    if right.byte < FIRST_PLACE {
        let past = clause_line(buf, at, &[not_here, past_both]);
        if a == right.byte {
            return past;
        }
        return clause_line(buf, past, &[not_here]);
    }
    let y_blank = right.code + 2 * crossing.l;
    let c = clause_line(buf, at, &[not_here, y_blank + 1, crossing.here + 2]);
    let d = clause_line(buf, c, &[not_here, y_blank, past_both]);
    clause_line(
        buf,
        d,
        &[not_here, y_blank, right.code + 2 * usize::from(a)],
    )
}

// A location with a place on the left: B, and then F, or C where a place is on the right, D and E.
fn put_open(buf: &mut [u8], at: usize, crossing: Crossing, x: usize, right: Cell) -> usize
    requires { Crossed crossing.l crossing.down crossing.here x right.code × SideIn crossing.l (side_of right.byte) × (at + length (open_lines crossing.l crossing.down crossing.here x (side_of right.byte) right.code) ≤ length buf.old) }
    ensures { Puts buf.old at (open_lines crossing.l crossing.down crossing.here x (side_of right.byte) right.code) buf.new result }
{
    let not_here = crossing.here + 1;
    let x_blank = x + 2 * crossing.l;
    let past_left = crossing.here + crossing.down;
    let b = clause_line(buf, at, &[not_here, x_blank + 1, past_left]);
    if right.byte == USED {
        return clause_line(buf, b, &[not_here, x_blank]);
    }
    let past_both = past_left + 2;
    if right.byte < FIRST_PLACE {
        let n = usize::from(right.byte);
        let d = clause_line(buf, b, &[not_here, x_blank, past_both]);
        let e = put_unlike(buf, d, crossing.here, x, 0, n);
        return put_unlike(buf, e, crossing.here, x, n + 1, crossing.l - n - 1);
    }
    let y_blank = right.code + 2 * crossing.l;
    let c = clause_line(buf, b, &[not_here, x_blank, y_blank + 1, crossing.here + 2]);
    let d = clause_line(buf, c, &[not_here, x_blank, y_blank, past_both]);
    put_matches(buf, d, crossing.l, crossing.here, x, right.code)
}

// A location, by what stands on its two sides.
pub fn put_cross(buf: &mut [u8], at: usize, crossing: Crossing, left: Cell, right: Cell) -> usize
    requires { Crossed crossing.l crossing.down crossing.here left.code right.code × SideIn crossing.l (side_of right.byte) × (at + length (cross_lines crossing.l crossing.down crossing.here (side_of left.byte) left.code (side_of right.byte) right.code) ≤ length buf.old) }
    ensures { Puts buf.old at (cross_lines crossing.l crossing.down crossing.here (side_of left.byte) left.code (side_of right.byte) right.code) buf.new result }
{
    if left.byte == USED {
        return put_past(buf, at, crossing, right);
    }
    if left.byte < FIRST_PLACE {
        return put_letter(buf, at, crossing, left.byte, right);
    }
    put_open(buf, at, crossing, left.code, right)
}
