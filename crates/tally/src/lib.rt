// What the text of a solver's reply comes to: its lines, its numbers, and a mark for each number that it lists. Nothing here knows of a sheet; the
// text's numbers are noted in the lent marks, one for each number from 0 on.
#![tactic(auto)]

ghost use Rattle.std.specs.Prelude.{◌≡◌, ◌||◌, ◌<◌, ◌≤◌, length};
ghost use Rattle.tally.specs.Tally.{mark_of, noted, marked, ReadValues, ReadLine, ReadLines};

use numerals::{Number, read_number};
use scan::find;

// The line end, and the space between numbers.
pub const LINE_END: u8 = 10;

const SPACE: u8 = 32;

// The marks of a number: not listed; listed as it is; listed with a minus.
pub const UNLISTED: u8 = 0;

pub const PLUS: u8 = 1;

const MINUS: u8 = 2;

// What was met so far: an s line, a second one, a v line before any s line, a number after a 0, a number that has no mark, a number met
// before.
#[derive(Clone, Copy, Debug, PartialEq, Eq)]
pub struct Tally {
    pub status: bool,
    pub again: bool,
    pub early: bool,
    pub after: bool,
    pub above: bool,
    pub twice: bool,
}

// The mark of a number that had the mark `was`: once listed without a minus it stays so.
fn mark(was: u8, plus: bool) -> u8
    ensures { result ≡ mark_of was plus }
{
    if plus {
        PLUS
    } else if was == UNLISTED {
        MINUS
    } else {
        was
    }
}

// Notes a number, with a minus or not, and marks it.
fn note(marks: &mut [u8], tally: Tally, n: usize, plus: bool) -> Tally
    requires { 0 < length marks.old }
    ensures { (result ≡ noted marks.old tally n) × (marks.new ≡ marked marks.old n plus) }
{
    let after = tally.after | (marks[0] != UNLISTED);
    if n >= marks.len() {
        return Tally {
            after,
            above: true,
            ..tally
        };
    }
    let was = marks[n];
    marks[n] = mark(was, plus);
    Tally {
        after,
        twice: tally.twice | (was != UNLISTED),
        ..tally
    }
}

// Notes the numbers of a v line.
fn read_values(marks: &mut [u8], tally: Tally, line: &[u8]) -> Option<Tally>
    requires { (0 < length marks.old) × (length line.now ≤ 65536) }
    ensures { ReadValues marks.old tally line.now result marks.new }
{
    let mut sum = tally;
    let mut at: usize = 2;
    while at <= line.len() {
        let end = find(line, at, SPACE);
        sum = match read_number(&line[at..end])? {
            Number::Plus(n) => note(marks, sum, n, true),
            Number::Minus(n) => note(marks, sum, n, false),
        };
        at = end + 1;
    }
    Some(sum)
}

// Notes a line.
fn read_line(marks: &mut [u8], tally: Tally, line: &[u8]) -> Option<Tally>
    requires { (0 < length marks.old) × (length line.now ≤ 65536) }
    ensures { ReadLine marks.old tally line.now result marks.new }
{
    if line == b"s SATISFIABLE".as_slice() {
        return Some(Tally {
            status: true,
            again: tally.again | tally.status,
            ..tally
        });
    }
    if line.is_empty() {
        return None;
    }
    if line[0] == b'c' {
        return Some(tally);
    }
    let first = find(line, 0, SPACE);
    if line[0] != b'v' || first != 1 {
        return None;
    }
    let found = Tally {
        early: tally.early | !tally.status,
        ..tally
    };
    read_values(marks, found, line)
}

// Notes a text's lines.
pub fn read_lines(marks: &mut [u8], text: &[u8]) -> Option<Tally>
    requires { (0 < length marks.old) × (length text.now ≤ 65536) }
    ensures { ReadLines marks.old text.now result marks.new }
{
    let mut sum = Tally {
        status: false,
        again: false,
        early: false,
        after: false,
        above: false,
        twice: false,
    };
    let mut at: usize = 0;
    while at < text.len() {
        let end = find(text, at, LINE_END);
        sum = read_line(marks, sum, &text[at..end])?;
        at = end + 1;
    }
    Some(sum)
}
