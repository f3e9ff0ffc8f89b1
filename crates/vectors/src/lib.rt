// What the vector programs share. A line of their standard input is a vector's name, a colon and what the vector asks; or it has no colon,
// is a heading and is printed as it is.
#![tactic(auto)]

ghost use Rattle.std.specs.Prelude.{◌≡◌, ◌≤◌, IfOk, length, min, take};

pub use hexadecimal::decode;
use hexadecimal::find;
use input::read_full;
use std::io;

// Of the standard input the first 65,536 bytes are read.
pub const MOST_INPUT: usize = 65536;

// Room for the standard input. As a function of its own it keeps the array's many bytes out of the proofs of its callers, who need its length.
pub fn room() -> [u8; MOST_INPUT]
    ensures { 65536 ≡ length result }
{
    [0u8; MOST_INPUT]
}

// Shows each vector of standard input.
pub fn run<F: FnMut(&[u8]) -> io::Result<()>>(rt: &HostRuntime, show: F) -> io::Result<()>
    requires { F.IsAlwaysCallable show }
{
    let mut buf = room();
    let n = read_full(&mut rt.stdin(), &mut buf);
    show_each(rt, &buf[..n], show)
}

// Prints each heading from the line at `from` on, and the name of the next vector. Returns where that vector's colon stands, or an index past
// the text where no vector is left.
pub fn next(rt: &impl Print, text: &[u8], from: usize) -> io::Result<usize>
    ensures { IfOk result (λ r. from ≤ r) }
{
    let mut at = from;
    while at < text.len() {
        let end = find(text, at, b'\n');
        let colon = find(&text[..end], at, b':');
        rt.write_all(&text[at..colon])?;
        if colon < end {
            return Ok(colon);
        }
        rt.write_all(b"\n")?;
        at = end + 1;
    }
    Ok(at)
}

// Prints each heading of a text, and the name of each vector, and has what the vector asks shown, from its colon on.
pub fn show_each<F: FnMut(&[u8]) -> io::Result<()>>(
    rt: &impl Print,
    text: &[u8],
    mut show: F,
) -> io::Result<()>
    requires { F.IsAlwaysCallable show }
{
    let mut at = next(rt, text, 0)?;
    while at < text.len() {
        let end = find(text, at, b'\n');
        show(&text[at..end])?;
        at = next(rt, text, end + 1)?;
    }
    Ok(())
}

// Prints that a call is refused, and document 01's number of the refusal.
pub fn show_refused(rt: &impl Print, number: u8) -> io::Result<()> {
    print!(rt; ": refused {number}")
}

// Prints each byte as two hexadecimal digits.
pub fn show_bytes(rt: &impl Print, bytes: &[u8]) -> io::Result<()> {
    for x in bytes {
        print!(rt; "{x:02x}")?;
    }
    Ok(())
}

// How many bytes of `buf` are lent where `asked` are asked for: those that it has, if they are fewer. The last clause is what `&buf[..r]` asks
// of a caller.
pub fn lent(asked: u8, buf: &[u8]) -> usize
    ensures least { result ≡ min asked (length buf.now) }
    ensures upper_bound { result ≤ length buf.now }
    ensures value { result ≡ length (take result buf.now) }
{
    usize::from(asked).min(buf.len())
}
