// What an accepted book says, by number: its letters, and each template's limits and symbols as that stretch of the caller's book. Every function here
// requires an accepted book, and where it takes a template's number one that the book has. It knows nothing of how a book comes to be accepted, nor of what it asks.
#![tactic(auto)]

ghost use Rattle.std.specs.Prelude.{◌≡◌, map, ◌<◌, length, drop};
ghost use Rattle.model.specs.Lists.{each, Holds};
ghost use Rattle.model.specs.Sheet.{symbol_byte};
ghost use Rattle.book.specs.Book.{encode_template, book_of, Admitted};
ghost use Rattle.book.specs.Book as model;

// The offsets of the letter count and of the letters.
const LETTER_COUNT: usize = 5;

const LETTERS: usize = 6;

// The letters.
pub fn letters(book: &[u8]) -> &[u8]
    requires { Admitted book.now }
    ensures { result.now ≡ (book_of book.now).letters }
{
    &book[LETTERS..LETTERS + usize::from(book[LETTER_COUNT])]
}

// How many templates there are.
pub fn count(book: &[u8]) -> usize
    requires { Admitted book.now }
    ensures { result ≡ length (book_of book.now).templates }
{
    usize::from(book[LETTERS + usize::from(book[LETTER_COUNT])])
}

// The offset of template i.
fn template_at(book: &[u8], i: usize) -> usize
    requires { Admitted book.now × (i < length (book_of book.now).templates) }
    ensures { Holds book.now result (each (drop i (book_of book.now).templates) encode_template) }
{
    let mut at = LETTERS + usize::from(book[LETTER_COUNT]) + 1;
    for _ in 0..i {
        let fields = usize::from(book[at]);
        let symbols = usize::from(book[at + 1 + fields]);
        at += 1 + fields + 1 + symbols;
    }
    at
}

// The limits of template i. Callers want limits or symbols, so that one struct of both would be no plainer.
pub fn limits(book: &[u8], i: usize) -> &[u8]
    requires { Admitted book.now × (i < length (book_of book.now).templates) }
    ensures { result.now ≡ (model.template (book_of book.now) i).limits }
{
    let at = template_at(book, i);
    &book[at + 1..at + 1 + usize::from(book[at])]
}

// The symbols of template i.
pub fn symbols(book: &[u8], i: usize) -> &[u8]
    requires { Admitted book.now × (i < length (book_of book.now).templates) }
    ensures { result.now ≡ map symbol_byte (model.template (book_of book.now) i).symbols }
{
    let at = template_at(book, i);
    let count_at = at + 1 + usize::from(book[at]);
    let count = usize::from(book[count_at]);
    &book[count_at + 1..count_at + 1 + count]
}
