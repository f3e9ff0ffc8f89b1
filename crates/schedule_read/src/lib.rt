// Reads an hours file, for a book of so many templates: accepted, or document 02's refusal 43, 44 or 45. It knows nothing of what shared minutes mean.
#![tactic(auto)]

ghost use Rattle.std.specs.Prelude.{◌≡◌, true, ◌+◌, ◌<◌, ◌≤◌, length};
ghost use Rattle.schedule.specs.Schedule.{in_week};
ghost use Rattle.schedule.specs.Offsets.{interval_at, own_at, next_at, laid};
ghost use Rattle.schedule.specs.Offsets as offsets;
ghost use Rattle.schedule_read.specs.Answer.{number_of, TestsOne, Tests, TestsAll, Reads};

use book_read::opens;
use schedule_parts::{FIRST, minute, next};

// What reading refuses an hours file for: 43, 44 and 45.
#[derive(Clone, Copy, Debug, PartialEq, Eq)]
pub enum Refusal {
    File,
    Bounds,
    Order,
}

// Document 02's number of a refusal.
impl From<Refusal> for u8 {
    ghost from_gives = { λ e r. r ≡ number_of e };

    fn from(refusal: Refusal) -> u8 {
        match refusal {
            Refusal::File => 43,
            Refusal::Bounds => 44,
            Refusal::Order => 45,
        }
    }
}

// The greatest count, and the minutes of a week.
const MOST_INTERVALS: u8 = 4;

const WEEK: usize = 10080;

// Whether the bytes are those of n templates, by their counts: none missing and none left over.
fn fits(hours: &[u8], n: usize) -> bool
    requires { 5 ≤ length hours.now }
    ensures { result ≡ offsets.fits hours.now 5 n }
{
    let mut at = FIRST;
    for _ in 0..n {
        if hours.len() <= at || MOST_INTERVALS < hours[at] {
            return false;
        }
        at = next(hours, at);
    }
    at == hours.len()
}

// Whether an interval has a minute and ends within the week.
fn in_week(start: usize, end: usize) -> bool
    ensures { result ≡ in_week (record { start = start; end = end }) }
{
    start < end && end <= WEEK
}

// Tests the interval at an offset, with the least start, where the preceding one ends: accepted, or 44 or 45.
fn interval(hours: &[u8], at: usize, least: usize) -> Result<(), Refusal>
    requires { at + 4 ≤ length hours.now }
    ensures { TestsOne least (interval_at hours.now at) result }
{
    let start = minute(hours, at);
    let end = minute(hours, at + 2);
    if !in_week(start, end) {
        return Err(Refusal::Bounds);
    }
    if start < least {
        return Err(Refusal::Order);
    }
    Ok(())
}

// Tests the intervals of the template whose count is at an offset, one after another.
fn intervals(hours: &[u8], at: usize) -> Result<(), Refusal>
    requires { (at < length hours.now) × (next_at hours.now at ≤ length hours.now) }
    ensures { Tests (own_at hours.now at) result }
{
    let n = usize::from(hours[at]);
    let mut least: usize = 0;
    for w in 0..n {
        let k = at + 1 + 4 * w;
        interval(hours, k, least)?;
        least = minute(hours, k + 2);
    }
    Ok(())
}

// Tests the intervals of n templates that fit the file, template by template.
fn all_intervals(hours: &[u8], n: usize) -> Result<(), Refusal>
    requires { offsets.fits hours.now 5 n ≡ true }
    ensures { TestsAll (laid hours.now 5 n) result }
{
    let mut at = FIRST;
    for _ in 0..n {
        intervals(hours, at)?;
        at = next(hours, at);
    }
    Ok(())
}

// Reads the hours file of a book with n templates: accepted, or the first refusal in document 02's order. Any bytes are allowed.
pub fn read(hours: &[u8], n: usize) -> Result<(), Refusal>
    ensures { Reads n hours.now result }
{
    if !opens(hours, b"TPH") || !fits(hours, n) {
        return Err(Refusal::File);
    }
    all_intervals(hours, n)
}
