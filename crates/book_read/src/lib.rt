// Reads a book of templates: accepted, or document 02's refusal 40 or 41. It knows nothing of what a book asks.
#![tactic(auto)]

ghost use Rattle.std.specs.Prelude.{◌≡◌, ◌+◌, ◌≤◌, length, drop};
ghost use Rattle.model.specs.Sheet.{times};
ghost use Rattle.book.specs.Book.{a_template, body, some_symbols, some_templates};
ghost use Rattle.book.specs.Book as model;
ghost use Rattle.book_read.specs.Walk.{Came, Counted, number_of, Reads};

use rows::{Role, row};
use scan::{VERSION_HIGH, VERSION_LOW, WIDEST};
use sections::width_of;

// What reading refuses a book for: 40 and 41.
#[derive(Clone, Copy, Debug, PartialEq, Eq)]
pub enum Refusal {
    Mark,
    Book,
}

// Document 02's number of a refusal.
impl From<Refusal> for u8 {
    ghost from_gives = { λ e r. r ≡ number_of e };

    fn from(refusal: Refusal) -> u8 {
        match refusal {
            Refusal::Mark => 40,
            Refusal::Book => 41,
        }
    }
}

// The mark's and the version's bytes, where the letter count stands, and the ranges of the counts.
const OPENING: usize = 5;

const LETTER_COUNT: usize = 5;

const VERSION: u16 = 1;

const MOST_LETTERS: u8 = 8;

const MOST_TEMPLATES: u8 = 16;

const MOST_FIELDS: u8 = 3;

const MOST_SYMBOLS: u8 = 12;

// The count at an offset, if there is one from the one number to the other. Each walk below gives the offset that it came to, if it met no fault.
fn count(book: &[u8], at: usize, low: u8, high: u8) -> Option<u8>
    ensures { Counted book.now (model.count low high (drop at book.now)) at result }
{
    let n = *book.get(at)?;
    (low..=high).contains(&n).then_some(n)
}

// A symbol count at an offset and so many symbols, of a template with these limits; then its width.
fn symbols(book: &[u8], letters: u8, fields: u8, limits: &[u8], at: usize) -> Option<usize>
    requires { (length limits.now ≡ fields) × (at ≤ length book.now) }
    ensures { Came book.now (some_symbols letters limits.now (drop at book.now)) result }
{
    let n = usize::from(count(book, at, 0, MOST_SYMBOLS)?);
    let end = row(book, Role::Symbol(letters, fields), at + 1, n).ok()?;
    if WIDEST < width_of(limits, &book[at + 1..end]) {
        return None;
    }
    Some(end)
}

// A template at an offset: a field count and so many limits, then its symbols.
fn template(book: &[u8], letters: u8, at: usize) -> Option<usize>
    requires { at ≤ length book.now }
    ensures { Came book.now (a_template letters (drop at book.now)) result }
{
    let fields = count(book, at, 0, MOST_FIELDS)?;
    let end = row(book, Role::Limit, at + 1, usize::from(fields)).ok()?;
    symbols(book, letters, fields, &book[at + 1..end], end)
}

// n templates, one after another.
fn templates(book: &[u8], letters: u8, start: usize, n: usize) -> Option<usize>
    requires { start ≤ length book.now }
    ensures { Came book.now (times n (a_template letters) (drop start book.now)) result }
{
    let mut at = start;
    for _ in 0..n {
        at = template(book, letters, at)?;
    }
    Some(at)
}

// The template count at an offset, and the templates.
fn after_letters(book: &[u8], letters: u8, at: usize) -> Option<usize>
    requires { at ≤ length book.now }
    ensures { Came book.now (some_templates letters (drop at book.now)) result }
{
    let n = count(book, at, 1, MOST_TEMPLATES)?;
    templates(book, letters, at + 1, usize::from(n))
}

// The whole walk, from the letter count on.
fn walked(book: &[u8]) -> Option<usize>
    requires { 5 ≤ length book.now }
    ensures { Came book.now (body (drop 5 book.now)) result }
{
    let letters = count(book, LETTER_COUNT, 1, MOST_LETTERS)?;
    let end = row(book, Role::Letter, LETTER_COUNT + 1, usize::from(letters)).ok()?;
    after_letters(book, letters, end)
}

// Whether a file has this mark, and version 1.
pub fn opens(file: &[u8], mark: &[u8]) -> bool
    ensures { result ≡ model.opens mark.now file.now }
{
    file.len() >= OPENING
        && file.starts_with(mark)
        && u16::from_be_bytes([file[VERSION_HIGH], file[VERSION_LOW]]) == VERSION
}

// Reads a book: accepted, or the first refusal in document 02's order. Any bytes are allowed.
pub fn read(book: &[u8]) -> Result<(), Refusal>
    ensures { Reads book.now result }
{
    if !opens(book, b"TPB") {
        return Err(Refusal::Mark);
    }
    let end = walked(book).ok_or(Refusal::Book)?;
    if end < book.len() {
        return Err(Refusal::Book);
    }
    Ok(())
}
