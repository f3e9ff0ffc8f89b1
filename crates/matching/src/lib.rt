// Lines of the clause file that go through the values of a place, written into a lent buffer by the codes of their literals: nothing here knows
// of sheets. A function that writes returns the offset past what it has written.
#![tactic(auto)]

ghost use Rattle.std.specs.Prelude.{◌+◌, ◌≤◌, length};
ghost use Rattle.model.specs.Lists.{each, up_to, Puts};
ghost use Rattle.dimacs.specs.Codes.{large_code};
ghost use Rattle.matching.specs.Codes.{unlike_line, match_line};

use dimacs::clause_line;

// Not what has code `here` and a value of the place with code x: for value `first` and those after it, n of them. At a location this is document 01's E, of
// a place on the left against a letter on the right; at a value of x itself, that a place has not two values.
pub fn put_unlike(buf: &mut [u8], at: usize, here: usize, x: usize, first: usize, n: usize) -> usize
    requires { (here ≤ large_code) × (x ≤ large_code) × (first + n ≤ 9) × (at + length (each (up_to n) (unlike_line here x first)) ≤ length buf.old) }
    ensures { Puts buf.old at (each (up_to n) (unlike_line here x first)) buf.new result }
{
    let mut past = at;
    for k in 0..n {
        past = clause_line(buf, past, &[here + 1, x + 2 * (first + k) + 1]);
    }
    past
}

// E of a place on the left against a place on the right, for every letter.
pub fn put_matches(buf: &mut [u8], at: usize, l: usize, here: usize, x: usize, y: usize) -> usize
    requires { (l ≤ 8) × (here ≤ large_code) × (x ≤ large_code) × (y ≤ large_code) × (at + length (each (up_to l) (match_line l here x y)) ≤ length buf.old) }
    ensures { Puts buf.old at (each (up_to l) (match_line l here x y)) buf.new result }
{
    let mut past = at;
    for a in 0..l {
        past = clause_line(buf, past, &[here + 1, y + 2 * l, x + 2 * a + 1, y + 2 * a]);
    }
    past
}
