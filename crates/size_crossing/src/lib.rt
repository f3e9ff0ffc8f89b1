// How many bytes the lines of one location have in the clause file: the lines that `crossings` writes, by the same codes, and nothing is written.
#![tactic(auto)]

ghost use Rattle.std.specs.Prelude.{◌≡◌, ◌<◌, ◌≤◌, length};
ghost use Rattle.formula.specs.Kind.{at_field, SideIn};
ghost use Rattle.shape.specs.Bytes.{side_of};
ghost use Rattle.dimacs.specs.Codes.{large_code};
ghost use Rattle.crossings.specs.Codes.{past_lines, letter_lines, open_lines, cross_lines, Crossed};

use crossings::{Cell, Crossing};
use shape::{FIRST_PLACE, USED};
use size_line::{ENDING, literal_size, matches_size, unlike_size};

// A location where the left side is used up: F, and C before it where a place is on the right.
fn past_size(crossing: Crossing, right: Cell) -> usize
    requires { (crossing.l ≤ 8) × (crossing.here ≤ large_code) × (right.code ≤ large_code) }
    ensures { (result ≡ length (past_lines crossing.l crossing.here (side_of right.byte) right.code)) × (result ≤ 400) }
{
    if right.byte == USED {
        return 0;
    }
    let line = literal_size(crossing.here + 1) + ENDING;
    if right.byte < FIRST_PLACE {
        return line;
    }
    let y_blank = right.code + 2 * crossing.l;
    let c = line + literal_size(y_blank + 1) + literal_size(crossing.here + 2);
    c + line + literal_size(y_blank)
}

// A location with letter a on the left: F, or C where a place is on the right, D, and E but where the same letter is on the right.
fn letter_size(crossing: Crossing, a: u8, right: Cell) -> usize
    requires { Crossed crossing.l crossing.down crossing.here 0 right.code × (a < 8) }
    ensures { (result ≡ length (letter_lines crossing.l crossing.down crossing.here a (side_of right.byte) right.code)) × (result ≤ 400) }
{
    let line = literal_size(crossing.here + 1) + ENDING;
    if right.byte == USED {
        return line;
    }
    let past_both = literal_size(crossing.here + crossing.down + 2);
    if right.byte < FIRST_PLACE {
        if a == right.byte {
            return line + past_both;
        }
        return line + past_both + line;
    }
    let y_blank = right.code + 2 * crossing.l;
    let blank = literal_size(y_blank);
    let c = line + literal_size(y_blank + 1) + literal_size(crossing.here + 2);
    let d = line + blank + past_both;
    c + d + line + blank + literal_size(right.code + 2 * usize::from(a))
}

// A location with a place on the left: B, and then F, or C where a place is on the right, D and E.
fn open_size(crossing: Crossing, x: usize, right: Cell) -> usize
    requires { Crossed crossing.l crossing.down crossing.here x right.code × SideIn crossing.l (side_of right.byte) × (side_of right.byte ≡ at_field → 0 < right.code) }
    ensures { (result ≡ length (open_lines crossing.l crossing.down crossing.here x (side_of right.byte) right.code)) × (result ≤ 400) }
{
    let line = literal_size(crossing.here + 1) + ENDING;
    let x_blank = x + 2 * crossing.l;
    let blank = literal_size(x_blank);
    let b = line + literal_size(x_blank + 1) + literal_size(crossing.here + crossing.down);
    if right.byte == USED {
        return b + line + blank;
    }
    let past_both = literal_size(crossing.here + crossing.down + 2);
    if right.byte < FIRST_PLACE {
        let n = usize::from(right.byte);
        let d = line + blank + past_both;
        let e = unlike_size(crossing.here, x, 0, n);
        return b + d + e + unlike_size(crossing.here, x, n + 1, crossing.l - n - 1);
    }
    let y_blank = right.code + 2 * crossing.l;
    let c = line + blank + literal_size(y_blank + 1) + literal_size(crossing.here + 2);
    let d = line + blank + literal_size(y_blank) + past_both;
    b + c + d + matches_size(crossing.l, crossing.here, x, right.code)
}

// A location, by what stands on its two sides.
pub fn cross_size(crossing: Crossing, left: Cell, right: Cell) -> usize
    requires { Crossed crossing.l crossing.down crossing.here left.code right.code × SideIn crossing.l (side_of right.byte) × (side_of right.byte ≡ at_field → 0 < right.code) }
    ensures { (result ≡ length (cross_lines crossing.l crossing.down crossing.here (side_of left.byte) left.code (side_of right.byte) right.code)) × (result ≤ 400) }
{
    if left.byte == USED {
        return past_size(crossing, right);
    }
    if left.byte < FIRST_PLACE {
        return letter_size(crossing, left.byte, right);
    }
    open_size(crossing, left.code, right)
}
