// The question of two templates of an accepted book as the bytes of a sheet: template i on the left, j on the right, j's fields numbered after i's, without
// rules. It knows nothing of how a sheet is searched.
#![tactic(auto)]

ghost use Rattle.std.specs.Prelude.{◌≡◌, map, ◌+◌, ◌<◌, ◌≤◌, length};
ghost use Rattle.model.specs.Lists.{All, Puts};
ghost use Rattle.model.specs.Sheet.{encode};
ghost use Rattle.book.specs.Book.{book_of, Admitted};
ghost use Rattle.book.specs.Pairs.{question};
ghost use Rattle.book_question.specs.Bytes.{numbered, head_bytes, sides_bytes};

use scan::FIRST_FIELD;
use words::put;

// The greatest size of a question: a header of 9 bytes, 8 letters, 6 limits, 2 counts, and 12 symbols on each side.
pub const MOST_QUESTION: usize = 49;

// A symbol with its field numbered after n others.
fn numbered_after(n: u8, x: u8) -> u8
    requires { x + n < 256 }
    ensures { result ≡ numbered n x }
{
    if x < FIRST_FIELD { x } else { x + n }
}

// Symbols with their fields numbered after n others, at an offset. Returns the offset past them. The offset is counted, since a zip of the two slices is no plainer to prove.
fn put_numbered(buf: &mut [u8], at: usize, n: u8, symbols: &[u8]) -> usize
    requires { (n ≤ 3) × All (λ x. x < 128 + 3) symbols.now × (at + length symbols.now ≤ length buf.old) }
    ensures { Puts buf.old at (map (numbered n) symbols.now) buf.new result }
{
    for (i, &x) in symbols.iter().enumerate() {
        buf[at + i] = numbered_after(n, x);
    }
    at + symbols.len()
}

// The header, the letters and the limits. Returns the offset past them. Each piece goes past the one before it, so the offset is handed on.
fn put_head(buf: &mut [u8], letters: &[u8], left: &[u8], right: &[u8]) -> usize
    requires { (length letters.now ≤ 8) × (length left.now ≤ 3) × (length right.now ≤ 3) × (length (head_bytes letters.now left.now right.now) ≤ length buf.old) }
    ensures { Puts buf.old 0 (head_bytes letters.now left.now right.now) buf.new result }
{
    let fields = left.len() + right.len();
    let a = put(buf, 0, b"TPL\x00\x01");
    let b = put(buf, a, &[letters.len() as u8, fields as u8, 1, 0]);
    let c = put(buf, b, letters);
    let d = put(buf, c, left);
    put(buf, d, right)
}

// The two symbol counts and the symbols, those on the right numbered after n fields, at an offset. Returns the offset past them.
fn put_sides(buf: &mut [u8], at: usize, n: u8, left: &[u8], right: &[u8]) -> usize
    requires { (n ≤ 3) × All (λ x. x < 128 + 3) right.now × (length left.now ≤ 12) × (length right.now ≤ 12) × (at + length (sides_bytes n left.now right.now) ≤ length buf.old) }
    ensures { Puts buf.old at (sides_bytes n left.now right.now) buf.new result }
{
    let a = put(buf, at, &[left.len() as u8, right.len() as u8]);
    let b = put(buf, a, left);
    put_numbered(buf, b, n, right)
}

// The question of templates i and j, at the front of the buffer. Returns its length.
pub fn put_question(buf: &mut [u8], book: &[u8], i: usize, j: usize) -> usize
    requires { Admitted book.now × (i < length (book_of book.now).templates) × (j < length (book_of book.now).templates) × (49 ≤ length buf.old) }
    ensures { Puts buf.old 0 (encode (question (book_of book.now) i j)) buf.new result }
{
    let left = book_parts::limits(book, i);
    let right = book_parts::limits(book, j);
    let at = put_head(buf, book_parts::letters(book), left, right);
    put_sides(
        buf,
        at,
        left.len() as u8,
        book_parts::symbols(book, i),
        book_parts::symbols(book, j),
    )
}
