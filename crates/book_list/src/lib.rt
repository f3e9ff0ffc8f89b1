// The list of a book: which of its templates clash, each two asked by `book_ask`. A table says which pairs are wanted, so that no other is asked. The list is made in
// a buffer of its own, so that nothing is written to the lent one before it is known to be long enough.
#![tactic(auto)]

ghost use Rattle.std.specs.Prelude.{◌≡◌, [], ◌∷◌, ◌+◌, ◌<◌, ◌≤◌, length};
ghost use Rattle.model.specs.Lists.{when, Puts};
ghost use Rattle.calls.specs.Calls.{listing, comparing, Decides};
ghost use Rattle.book.specs.Book.{book_of, Admitted};
ghost use Rattle.book.specs.Pairs.{kept, list_bytes, row_bytes};
ghost use Rattle.book_list.specs.Answer.{number_of, compared};
ghost use Rattle.book_list.specs.declared.Refusal.TheVariants.{Book, Hours};
ghost use Rattle.book_list.specs.Wanted.{listed};
ghost use Rattle.book_ask.specs.Verdicts.{Remembers};

use book_ask::settled;
use words::put;

// What is refused, by document 02's numbers: what reading a book refuses, what reading its hours refuses, and 42.
#[derive(Clone, Copy, Debug, PartialEq, Eq)]
pub enum Refusal {
    Book(book_read::Refusal),
    Hours(schedule_read::Refusal),
    Room,
}

impl From<book_read::Refusal> for Refusal {
    ghost from_gives = { λ e r. r ≡ Book e };

    fn from(refusal: book_read::Refusal) -> Refusal {
        Refusal::Book(refusal)
    }
}

impl From<schedule_read::Refusal> for Refusal {
    ghost from_gives = { λ e r. r ≡ Hours e };

    fn from(refusal: schedule_read::Refusal) -> Refusal {
        Refusal::Hours(refusal)
    }
}

// Document 02's number of a refusal.
impl From<Refusal> for u8 {
    ghost from_gives = { λ e r. r ≡ number_of e };

    fn from(refusal: Refusal) -> u8 {
        match refusal {
            Refusal::Book(found) => u8::from(found),
            Refusal::Hours(found) => u8::from(found),
            Refusal::Room => 42,
        }
    }
}

// The greatest size of a list: two bytes for each two of 16 templates. A table has a byte for each two, in 16 rows.
const MOST_LIST: usize = 240;

const ROW: usize = 16;

pub const TABLE: usize = 256;

// Templates i and j, if they are wanted and clash, at an offset. Returns the offset past them. List and verdicts are written, the table and the book read: a struct
// of these references would be no plainer. A `usize` has no `u8::from`; that both fit is proved.
fn put_pair(
    list: &mut [u8],
    at: usize,
    wanted: &[u8],
    verdicts: &mut [u8],
    book: &[u8],
    i: usize,
    j: usize,
) -> usize
    requires { Admitted book.now × (i < j) × (j < length (book_of book.now).templates) × (length wanted.now ≡ 256) × Remembers (book_of book.now) verdicts.old × (at + length (when (listed wanted.now (book_of book.now) i j) (i ∷ j ∷ [])) ≤ length list.old) }
    ensures puts { Puts list.old at (when (listed wanted.now (book_of book.now) i j) (i ∷ j ∷ [])) list.new result }
    ensures remembers { Remembers (book_of book.now) verdicts.new }
{
    if wanted[i * ROW + j] != 0 && settled(verdicts, book, i, j) {
        put(list, at, &[i as u8, j as u8])
    } else {
        at
    }
}

// The pairs with template i as the first, of a book of n templates, at an offset. Returns the offset past them.
fn put_row(
    list: &mut [u8],
    at: usize,
    wanted: &[u8],
    verdicts: &mut [u8],
    book: &[u8],
    i: usize,
    n: usize,
) -> usize
    requires { Admitted book.now × (n ≡ length (book_of book.now).templates) × (i < n) × (length wanted.now ≡ 256) × Remembers (book_of book.now) verdicts.old × (at + length (row_bytes (listed wanted.now (book_of book.now)) n i) ≤ length list.old) }
    ensures puts { Puts list.old at (row_bytes (listed wanted.now (book_of book.now)) n i) list.new result }
    ensures remembers { Remembers (book_of book.now) verdicts.new }
{
    let mut past = at;
    for j in i + 1..n {
        past = put_pair(list, past, wanted, verdicts, book, i, j);
    }
    past
}

// The whole list, at the front of the buffer. Returns its length.
fn put_list(list: &mut [u8], wanted: &[u8], verdicts: &mut [u8], book: &[u8]) -> usize
    requires { Admitted book.now × (length wanted.now ≡ 256) × Remembers (book_of book.now) verdicts.old × (length (list_bytes (kept (listed wanted.now (book_of book.now)) (length (book_of book.now).templates))) ≤ length list.old) }
    ensures { Puts list.old 0 (list_bytes (kept (listed wanted.now (book_of book.now)) (length (book_of book.now).templates))) list.new result }
{
    let n = book_parts::count(book);
    let mut past: usize = 0;
    for i in 0..n {
        past = put_row(list, past, wanted, verdicts, book, i, n);
    }
    past
}

// The list of an accepted book, made in a buffer that is long enough for any.
fn deliver(
    book: &[u8],
    wanted: &[u8],
    verdicts: &mut [u8],
    own: &mut [u8],
    list: &mut [u8],
) -> Result<usize, Refusal>
    requires { Admitted book.now × (length wanted.now ≡ 256) × Remembers (book_of book.now) verdicts.old × (240 ≤ length own.old) }
    ensures { Decides (listing (kept (listed wanted.now (book_of book.now)) (length (book_of book.now).templates)) (length list.old)) list.old (compared result) list.new }
{
    let n = put_list(own, wanted, verdicts, book);
    if list.len() < n {
        return Err(Refusal::Room);
    }
    put(list, 0, &own[..n]);
    Ok(n / 2)
}

// Lists which templates of an accepted book clash, of the pairs that a table wants: a byte that is not 0 in row i, at j. Bytes after the list, and refused all, are
// as they were.
pub fn list_wanted(book: &[u8], wanted: &[u8], list: &mut [u8]) -> Result<usize, Refusal>
    requires { Admitted book.now × (length wanted.now ≡ 256) }
    ensures { Decides (listing (kept (listed wanted.now (book_of book.now)) (length (book_of book.now).templates)) (length list.old)) list.old (compared result) list.new }
{
    let mut own = [0; MOST_LIST];
    let mut verdicts = [0; TABLE];
    deliver(book, wanted, &mut verdicts, &mut own, list)
}

// The list of an accepted book, with all pairs wanted.
fn list_all(book: &[u8], list: &mut [u8]) -> Result<usize, Refusal>
    requires { Admitted book.now }
    ensures { Decides (comparing book.now (length list.old)) list.old (compared result) list.new }
{
    let wanted = [1; TABLE];
    list_wanted(book, &wanted, list)
}

// Lists which templates of a book clash, two bytes for each pair that does, by the first and then by the second, at the front of the buffer; and answers how many
// such pairs there are. Else the first refusal in document 02's order. Any bytes are allowed. Bytes after the list, and refused all, are as they were.
pub fn compare(book: &[u8], list: &mut [u8]) -> Result<usize, Refusal>
    ensures { Decides (comparing book.now (length list.old)) list.old (compared result) list.new }
{
    book_read::read(book)?;
    list_all(book, list)
}
