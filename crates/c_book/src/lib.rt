// For C: the list of a book. `engine` says what is returned and written; a refusal is returned as minus its number, and leaves what is lent.
#![tactic(auto)]

ghost use Rattle.std.specs.Prelude.{◌≡◌, length};
ghost use Rattle.calls.specs.Calls.{comparing};
ghost use Rattle.book_list.specs.Answer as list;
ghost use Rattle.c_answer.specs.Returned.{returned_number, Decided};
ghost use Rattle.c_book.specs.Few.{Few};

use book_list::Refusal;
use c_answer::minus;

// What a list's answer returns: how many pairs there are, or minus a refusal's number. A `usize` has no `i64::from`; that it fits is proved, here and in the other
// calls.
pub fn counted(compared: Result<usize, Refusal>) -> i64
    requires { Few compared }
    ensures { result ≡ returned_number (list.compared compared) }
{
    match compared {
        Ok(n) => n as i64,
        Err(refusal) => minus(u8::from(refusal)),
    }
}

// `tpl_book`: the number of pairs of templates that clash, whose list was written.
pub fn book(book: &[u8], list: &mut [u8]) -> i64
    ensures { Decided (comparing book.now (length list.old)) list.old result list.new }
{
    counted(book_list::compare(book, list))
}
