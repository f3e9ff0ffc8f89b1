// Which templates of an accepted book are the same. It knows nothing of how two templates are asked.
#![tactic(auto)]

ghost use Rattle.std.specs.Prelude.{◌≡◌, ◌<◌, ◌≤◌, length};
ghost use Rattle.book.specs.Book.{template, book_of, Admitted};
ghost use Rattle.book_repeats.specs.Repeats.{same_template};

// Whether two templates have the same limits and symbols.
fn alike(book: &[u8], a: usize, b: usize) -> bool
    requires { Admitted book.now × (a < length (book_of book.now).templates) × (b < length (book_of book.now).templates) }
    ensures { result ≡ same_template (template (book_of book.now) a) (template (book_of book.now) b) }
{
    book_parts::limits(book, a) == book_parts::limits(book, b)
        && book_parts::symbols(book, a) == book_parts::symbols(book, b)
}

// The first template from a number on that is the same as template j: j itself if there is none before it.
pub fn first_alike(book: &[u8], from: usize, j: usize) -> usize
    requires { Admitted book.now × (from ≤ j) × (j < length (book_of book.now).templates) }
    ensures { (from ≤ result) × (result ≤ j) × (template (book_of book.now) result ≡ template (book_of book.now) j) }
{
    (from..j).find(|&a| alike(book, a, j)).unwrap_or(j)
}
