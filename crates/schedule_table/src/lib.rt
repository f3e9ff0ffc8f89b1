// Which templates of a book share a minute, as a table: 16 rows of 16 bytes, 1 in row i, at j, where i and j share one.
#![tactic(auto)]

ghost use Rattle.std.specs.Prelude.{◌≡◌, ◌≤◌, length};
ghost use Rattle.schedule.specs.Schedule.{schedule_of, Admitted};
ghost use Rattle.schedule_table.specs.Table.{Marks, Shows};

use schedule_share::share;

const ROW: usize = 16;

// The byte of templates i and j, of n: bytes, since `book_list::list_wanted` takes any. Of i below j alone something is said.
fn mark(hours: &[u8], n: usize, i: usize, j: usize) -> u8
    requires { Admitted n hours.now }
    ensures { Marks n (schedule_of n hours.now) i j result }
{
    u8::from(i < j && j < n && share(hours, n, i, j))
}

// The whole table, of n templates.
pub fn put_table(table: &mut [u8], hours: &[u8], n: usize)
    requires { Admitted n hours.now × (n ≤ 16) × (length table.old ≡ 256) }
    ensures { Shows n (schedule_of n hours.now) table.new }
{
    for (k, cell) in table.iter_mut().enumerate() {
        *cell = mark(hours, n, k / ROW, k % ROW);
    }
}
