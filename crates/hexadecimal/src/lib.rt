// Text that gives bytes in hexadecimal, as the programs take their vectors: where a part of it ends
// and the next begins, and which bytes it gives.
#![tactic(auto)]

ghost use Rattle.std.specs.Prelude.{◌≡◌, ◌+◌, ◌<◌, ◌≤◌, IfSome, length, min, take, drop};
ghost use Rattle.model.specs.Lists.{span};

// The index of the first `x` at or after `from`, or the length of `text` where there is none. The
// last clause follows from the one before it, and is what `&text[..r]` asks of a caller.
pub fn find(text: &[u8], from: usize, x: u8) -> usize
    requires { from ≤ length text.now }
    ensures first { result ≡ from + span x (drop from text.now) }
    ensures lower_bound { from ≤ result }
    ensures upper_bound { result ≤ length text.now }
    ensures value { result ≡ length (take result text.now) }
{
    scan::find(text, from, x)
}

// The index after `at`, but none past the end of `text`.
pub fn after(text: &[u8], at: usize) -> usize
    requires { at ≤ length text.now }
    ensures next { result ≡ min (at + 1) (length text.now) }
    ensures lower_bound { at ≤ result }
    ensures upper_bound { result ≤ length text.now }
{
    (at + 1).min(text.len())
}

// Puts the bytes that the hexadecimal digits of `text` spell at the front of `out`, as many as it
// has room for, and answers how many. What is no digit is passed over, and so is a last half byte.
// The last clause is what `&out[..r]` asks of a caller.
pub fn decode(text: &[u8], out: &mut [u8]) -> usize
    ensures upper_bound { result ≤ length out.new }
    ensures value { result ≡ length (take result out.new) }
{
    let mut n = 0;
    let mut high = None;
    for x in text {
        if n == out.len() {
            return n;
        }
        if let Some(low) = digit(*x) {
            if let Some(first) = high {
                out[n] = first * 16 + low;
                n += 1;
                high = None;
            } else {
                high = Some(low);
            }
        }
    }
    n
}

// The value of a hexadecimal digit, in upper case.
fn digit(x: u8) -> Option<u8>
    ensures { IfSome result (λ n. n < 16) }
{
    match x {
        b'0'..=b'9' => Some(x - b'0'),
        b'A'..=b'F' => Some(x - b'A' + 10),
        _ => None,
    }
}
