// An hours file by offsets: a minute, and where a template's bytes start. It knows nothing of how a file comes to be accepted, nor of what it means.
#![tactic(auto)]

ghost use Rattle.std.specs.Prelude.{◌≡◌, ◌+◌, ◌<◌, ◌≤◌, length};
ghost use Rattle.schedule.specs.Schedule.{Admitted};
ghost use Rattle.schedule.specs.Offsets.{minute_at, next_at, start_at};

// The offset of the first template's count.
pub const FIRST: usize = 5;

// The minute at an offset.
pub fn minute(hours: &[u8], at: usize) -> usize
    requires { at + 1 < length hours.now }
    ensures { result ≡ minute_at hours.now at }
{
    usize::from(u16::from_be_bytes([hours[at], hours[at + 1]]))
}

// The offset past the intervals of the template whose count is at an offset.
pub fn next(hours: &[u8], at: usize) -> usize
    requires { at < length hours.now }
    ensures { result ≡ next_at hours.now at }
{
    at + 1 + 4 * usize::from(hours[at])
}

// The offset of the count of template i, of n.
pub fn start(hours: &[u8], n: usize, i: usize) -> usize
    requires { Admitted n hours.now × (i < n) }
    ensures { result ≡ start_at hours.now 5 i }
{
    let mut at = FIRST;
    for _ in 0..i {
        at = next(hours, at);
    }
    at
}
