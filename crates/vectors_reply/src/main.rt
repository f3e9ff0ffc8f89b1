// Runs the vectors of standard input through `decoding::read_reply` and prints for each its name,
// `accepted` or document 01's number of the refusal, and the lent buffer as it then is, its bytes in
// hexadecimal. A line of the file stdin is a vector's name, a colon, the sheet, a semicolon and the
// length of the lent buffer, one byte, both in hexadecimal, a second semicolon, and all that follows
// it is the text, written as `unescape` reads it. A line with no colon is a heading and is printed as
// it is. The file stdout has document 01's answers.
#![tactic(auto)]

ghost use Rattle.std.specs.Prelude.{◌≡◌, ◌≤◌, length, take};

use std::io;
use vectors::{decode, lent, run, show_bytes, show_refused};

// Room for a sheet's bytes. Document 01 accepts none of more than 159.
const SHEET: usize = 256;

// Room for a text's bytes. Document 01 accepts none of more than 65,536.
const TEXT: usize = 65600;

// How often `\*` gives the letter c. After the 20 bytes of lines `s SATISFIABLE` and `v 1 0`, and with a
// line end, that makes a text of 65,536 bytes.
const FILL: usize = 65515;

// The longest buffer that is lent. Document 01's fillings have at most 54 bytes.
const LENT: usize = 64;

// Shows each vector of standard input, of which the first 65,536 bytes are read.
fn main(rt: HostRuntime) -> io::Result<()> {
    run(&rt, |vector| show_vector(&rt, vector))
}

// Prints the answer to a vector: a sheet, the length of the lent buffer and a text.
fn show_vector(rt: &impl Print, text: &[u8]) -> io::Result<()> {
    let mut parts = text.splitn(3, |x| *x == b';');
    let mut sheet = [0u8; SHEET];
    let mut asked = [0u8; 1];
    let mut reply = text_room();
    // The colon is no digit, and is passed over.
    let n = decode(parts.next().unwrap_or(&[]), &mut sheet);
    decode(parts.next().unwrap_or(&[]), &mut asked);
    let m = unescape(parts.next().unwrap_or(&[]), &mut reply);
    show_read(rt, &sheet[..n], &reply[..m], asked[0])
}

// Room for a text. As a function of its own it keeps the array's many bytes out of the proof of its caller.
fn text_room() -> [u8; TEXT] {
    [0u8; TEXT]
}

// Puts the bytes that `text` stands for at the front of `out`, as many as it has room for, and answers
// how many. A backslash and the byte after it stand for what `meant` and `times` say, and any other
// byte for itself. The last clause is what `&out[..r]` asks of a caller.
fn unescape(text: &[u8], out: &mut [u8]) -> usize
    ensures upper_bound { result ≤ length out.new }
    ensures value { result ≡ length (take result out.new) }
{
    let mut n = 0;
    let mut escaped = false;
    for x in text {
        n = put(out, n, meant(escaped, *x), times(escaped, *x));
        escaped = escapes(escaped, *x);
    }
    n
}

// Does `x`, after a backslash or not, change what the byte after it stands for?
fn escapes(escaped: bool, x: u8) -> bool {
    !escaped && x == b'\\'
}

// The byte that `x` stands for. After a backslash, n is a line end, t a tab, r a carriage return, 0 a
// zero byte, a star the letter c, and any other byte is itself.
fn meant(escaped: bool, x: u8) -> u8 {
    if !escaped {
        return x;
    }
    match x {
        b'n' => b'\n',
        b't' => b'\t',
        b'r' => b'\r',
        b'0' => 0,
        b'*' => b'c',
        _ => x,
    }
}

// How often `x` gives the byte that it stands for: a backslash not at all, a star after one `FILL`
// times, and any other once.
fn times(escaped: bool, x: u8) -> usize {
    if escapes(escaped, x) {
        0
    } else if escaped && x == b'*' {
        FILL
    } else {
        1
    }
}

// Puts `x` into `out` from an index on, `times` times or as often as there is room, and answers the
// index after it.
fn put(out: &mut [u8], from: usize, x: u8, times: usize) -> usize
    requires { from ≤ length out.old }
    ensures { result ≤ length out.new }
{
    let end = from + times.min(out.len() - from);
    out[from..end].fill(x);
    end
}

// Lends a buffer full of dots, as long as is asked, and prints what reading a reply answers.
fn show_read(rt: &impl Print, sheet: &[u8], text: &[u8], asked: u8) -> io::Result<()> {
    let mut buf = [b'.'; LENT];
    let n = lent(asked, &buf);
    show_reply(rt, sheet, text, &mut buf[..n])
}

// Prints what reading a reply answers, and the lent buffer as it then is, between bars.
fn show_reply(rt: &impl Print, sheet: &[u8], text: &[u8], buf: &mut [u8]) -> io::Result<()> {
    match decoding::read_reply(sheet, text, buf) {
        Ok(()) => rt.write_all(b": accepted")?,
        Err(refusal) => show_refused(rt, u8::from(refusal))?,
    }
    rt.write_all(b" |")?;
    show_bytes(rt, buf)?;
    rt.write_all(b"|\n")
}
