// Whether two templates of a book share a minute, by an accepted hours file. The test goes by the ends of their intervals.
#![tactic(auto)]

ghost use Rattle.std.specs.Prelude.{◌≡◌, ◌+◌, ◌*◌, ◌<◌, ◌≤◌, length};
ghost use Rattle.model.specs.Lists.{any};
ghost use Rattle.schedule.specs.Schedule.{schedule_of, Admitted};
ghost use Rattle.schedule.specs.Shared as model;
ghost use Rattle.schedule.specs.Offsets.{interval_at, standing, own_at, next_at};

use schedule_parts::{minute, start};

// Whether the intervals at two offsets overlap: each starts before the other ends.
fn overlap(hours: &[u8], v: usize, w: usize) -> bool
    requires { (v + 4 ≤ length hours.now) × (w + 4 ≤ length hours.now) }
    ensures { result ≡ model.overlap (interval_at hours.now v) (interval_at hours.now w) }
{
    minute(hours, v) < minute(hours, w + 2) && minute(hours, w) < minute(hours, v + 2)
}

// Whether the interval at an offset overlaps one of n that stand from another on.
fn overlaps_one(hours: &[u8], v: usize, at: usize, n: usize) -> bool
    requires { (v + 4 ≤ length hours.now) × (at + 4 * n ≤ length hours.now) }
    ensures { result ≡ any (model.overlap (interval_at hours.now v)) (standing hours.now at n) }
{
    (0..n).any(|w| overlap(hours, v, at + 4 * w))
}

// Whether an interval of the template whose count is at the one offset overlaps one of the template whose count is at the other.
fn overlaps(hours: &[u8], one: usize, other: usize) -> bool
    requires { (one < length hours.now) × (next_at hours.now one ≤ length hours.now) × (other < length hours.now) × (next_at hours.now other ≤ length hours.now) }
    ensures { result ≡ model.overlaps (own_at hours.now one) (own_at hours.now other) }
{
    let m = usize::from(hours[one]);
    let n = usize::from(hours[other]);
    (0..m).any(|v| overlaps_one(hours, one + 1 + 4 * v, other + 1, n))
}

// Whether templates i and j, of n, share a minute.
pub fn share(hours: &[u8], n: usize, i: usize, j: usize) -> bool
    requires { Admitted n hours.now × (i < n) × (j < n) }
    ensures { result ≡ model.share (schedule_of n hours.now) i j }
{
    overlaps(hours, start(hours, n, i), start(hours, n, j))
}
