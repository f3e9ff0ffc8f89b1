// Lengths as linear inequalities: what an equation or a constraint asks of the lengths of the fields' texts, as rows of numbers without
// signs. It knows nothing of what the texts hold.
#![tactic(auto)]

mod making;

ghost use Rattle.std.specs.Prelude.{◌≡◌, ◌+◌, ◌*◌, ◌<◌, ◌≤◌, length, get_or, drop};
ghost use Rattle.inequalities.specs.Rows.{side_sum};

use fields::{FIELDS, Lengths};
pub use making::{constraint_row, equation_row};

// Which equations or constraints of a sheet are asked: those whose mark is true.
pub type Marks = [bool; 4];

// The numbers of a side of a row, and of both.
pub const SIDE: usize = 7;

pub const ROW_SIZE: usize = 14;

// What the lengths are multiplied by and what is added, on the one side and on the other. The row holds when the first side is at
// most the second.
pub type Row = [u16; ROW_SIZE];

// The room that gathered rows need: two for each of four equations, and one for each of four constraints.
pub const ROOM: usize = 168;

// The factor at an offset, times a length.
pub fn term(rows: &[u16], at: usize, n: u8) -> usize
    requires { at < length rows.now }
    ensures { (result ≡ get_or rows.now at 0 * n) × (result ≤ 16711425) }
{
    usize::from(rows[at]) * usize::from(n)
}

// The side of a row that starts at an offset, at these lengths.
pub fn side_sum(rows: &[u16], at: usize, n: Lengths) -> usize
    requires { at + 7 ≤ length rows.now }
    ensures { result ≡ side_sum (drop at rows.now) n }
{
    let mut sum = usize::from(rows[at + FIELDS]);
    for f in 0..FIELDS {
        sum += term(rows, at + f, n[f]);
    }
    sum
}
