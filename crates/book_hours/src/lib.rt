// The list of a book with hours: the templates that clash and share a minute. Pairs that share none are not asked.
#![tactic(auto)]

ghost use Rattle.std.specs.Prelude.{length};
ghost use Rattle.calls.specs.Calls.{comparing_hours, Decides};
ghost use Rattle.book.specs.Book.{book_of, Admitted};
ghost use Rattle.schedule.specs.Schedule as schedule;
ghost use Rattle.book_list.specs.Answer.{compared};

use book_list::{Refusal, TABLE, list_wanted};
use schedule_table::put_table;

// The list of an accepted book with accepted hours.
fn list_shared(book: &[u8], hours: &[u8], list: &mut [u8]) -> Result<usize, Refusal>
    requires { Admitted book.now × schedule.Admitted (length (book_of book.now).templates) hours.now }
    ensures { Decides (comparing_hours book.now hours.now (length list.old)) list.old (compared result) list.new }
{
    let mut wanted = [0; TABLE];
    put_table(&mut wanted, hours, book_parts::count(book));
    list_wanted(book, &wanted, list)
}

// The list of an accepted book.
fn with_hours(book: &[u8], hours: &[u8], list: &mut [u8]) -> Result<usize, Refusal>
    requires { Admitted book.now }
    ensures { Decides (comparing_hours book.now hours.now (length list.old)) list.old (compared result) list.new }
{
    schedule_read::read(hours, book_parts::count(book))?;
    list_shared(book, hours, list)
}

// Lists which templates of a book clash and share a minute, two bytes for each pair, by the first and then by the second, at the front of the buffer; and answers
// how many such pairs there are. Else the first refusal in document 02's order. Any bytes are allowed. Bytes after the list, and refused all, are as they were.
pub fn compare(book: &[u8], hours: &[u8], list: &mut [u8]) -> Result<usize, Refusal>
    ensures { Decides (comparing_hours book.now hours.now (length list.old)) list.old (compared result) list.new }
{
    book_read::read(book)?;
    with_hours(book, hours, list)
}
