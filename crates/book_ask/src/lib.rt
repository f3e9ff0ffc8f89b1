// Whether two templates of a book clash. Their question is written as a sheet and settled, without an order, since the verdict alone counts; what was asked
// before of the same templates is remembered.
#![tactic(auto)]

ghost use Rattle.std.specs.Prelude.{◌≡◌, ◌<◌, length};
ghost use Rattle.model.specs.Lists.{pick};
ghost use Rattle.book.specs.Book.{book_of, Admitted};
ghost use Rattle.book.specs.Pairs as model;
ghost use Rattle.book_ask.specs.Verdicts.{Remembers};

use book_question::{MOST_QUESTION, put_question};
use book_repeats::first_alike;

// Verdicts are remembered in a table of 16 rows of 16 bytes: that of templates a and b in row a, at b. Bytes, since `settled` takes any: what is neither verdict
// says nothing.
const ROW: usize = 16;

const APART: u8 = 1;

const CLASH: u8 = 2;

// Whether templates i and j clash.
fn clash(book: &[u8], i: usize, j: usize) -> bool
    requires { Admitted book.now × (i < length (book_of book.now).templates) × (j < length (book_of book.now).templates) }
    ensures { result ≡ model.clash (book_of book.now) i j }
{
    let mut question = [0; MOST_QUESTION];
    let n = put_question(&mut question, book, i, j);
    solution::solve(&question[..n], false).is_some()
}

// A verdict as a byte.
fn verdict(found: bool) -> u8
    ensures { result ≡ pick found 2 1 }
{
    if found { CLASH } else { APART }
}

// Whether templates i and j clash. The first templates that are the same as they are asked, and only where their verdict is not known yet.
pub fn settled(verdicts: &mut [u8], book: &[u8], i: usize, j: usize) -> bool
    requires { Admitted book.now × (i < j) × (j < length (book_of book.now).templates) × Remembers (book_of book.now) verdicts.old }
    ensures value { result ≡ model.clash (book_of book.now) i j }
    ensures remembers { Remembers (book_of book.now) verdicts.new }
{
    let a = first_alike(book, 0, i);
    let b = first_alike(book, a + 1, j);
    let at = a * ROW + b;
    if verdicts[at] == CLASH {
        return true;
    }
    if verdicts[at] == APART {
        return false;
    }
    let found = clash(book, a, b);
    verdicts[at] = verdict(found);
    found
}
