// For C: the list of a book with hours. `engine` says what is returned and written; a refusal is returned as minus its number, and leaves what is lent.
#![tactic(auto)]

ghost use Rattle.std.specs.Prelude.{length};
ghost use Rattle.calls.specs.Calls.{comparing_hours};
ghost use Rattle.c_answer.specs.Returned.{Decided};

use c_book::counted;

// `tpl_book_hours`: the number of pairs of templates that clash and share a minute, whose list was written.
pub fn book_hours(book: &[u8], hours: &[u8], list: &mut [u8]) -> i64
    ensures { Decided (comparing_hours book.now hours.now (length list.old)) list.old result list.new }
{
    counted(book_hours::compare(book, hours, list))
}
