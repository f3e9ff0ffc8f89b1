// Runs the vectors of standard input through `substitution::check` and `substitution::spell` and
// prints for each its name, and the answer or document 01's number of the refusal; where there is no
// clash the cause, and for a clash the whole of `report::write`, and a line where its filling, loaded
// and stored again, differs. A line of the file stdin is a vector's name, a colon, the sheet, a
// semicolon and the filling, their bytes in hexadecimal with spaces between their parts. For a
// spelling there follow a semicolon, the pair and the side, eight bytes each, and the length of the
// lent buffer, one byte. A line with no colon is a heading and is printed as it is. The file stdout
// has the answers of documents 01 and 02.
#![tactic(auto)]

ghost use Rattle.std.specs.Prelude.{◌≡◌, [], ◌∷◌, ◌+◌, ◌≤◌};
ghost use Rattle.calls.specs.Calls.{finished, checking};

use fields::MOST_BYTES;
use judge::Judgement;
use mismatch::Mismatch;
use report::MOST_REPORT;
use std::io;
use vectors::{decode, lent, run, show_refused};

// Room for a sheet's or a filling's bytes. Document 01 accepts none of more than 159; some vectors
// have just over 256, so that a length that is kept in one byte would show.
const ROOM: usize = 512;

// What a spelling asks: a pair and a side of eight bytes each, and the buffer's length of one.
const ASKED: usize = 17;

// The longest buffer that is lent. Document 01's texts have at most 24 letters.
const LENT: usize = 32;

// Shows each vector of standard input, of which the first 65,536 bytes are read.
fn main(rt: HostRuntime) -> io::Result<()> {
    run(&rt, |vector| show_vector(&rt, vector))
}

// Prints the answer to a vector: a sheet, a filling and, where a spelling is asked, a third part.
fn show_vector(rt: &impl Print, text: &[u8]) -> io::Result<()> {
    let mut parts = text.splitn(3, |x| *x == b';');
    let mut sheet = [0u8; ROOM];
    let mut filling = [0u8; ROOM];
    // The colon is no digit, and is passed over.
    let n = decode(parts.next().unwrap_or(&[]), &mut sheet);
    let m = decode(parts.next().unwrap_or(&[]), &mut filling);
    match parts.next() {
        None => show_check(rt, &sheet[..n], &filling[..m]),
        Some(asked) => show_spell(rt, &sheet[..n], &filling[..m], asked),
    }
}

// Prints words and a number.
fn show_number(rt: &impl Print, words: &str, n: usize) -> io::Result<()> {
    print!(rt; "{words}{n}")
}

// Prints a pair whose texts differ: how many letters agree, and the side and the length of the rest.
fn show_mismatch(rt: &impl Print, equation: usize, found: Mismatch) -> io::Result<()> {
    show_number(rt, ": no clash, pair ", equation)?;
    show_number(rt, ", agree ", found.agreeing)?;
    show_number(rt, ", side ", found.side)?;
    show_number(rt, ", rest ", found.rest)?;
    rt.write_all(b"\n")
}

// Prints what checking a filling answers: the report of a clash, or the cause why there is none.
fn show_check(rt: &impl Print, sheet: &[u8], filling: &[u8]) -> io::Result<()> {
    match substitution::check(sheet, filling) {
        Ok(Judgement::Solution) => show_report(rt, sheet, filling),
        Ok(Judgement::Differs(equation, found)) => show_mismatch(rt, equation, found),
        Ok(Judgement::Breaks(constraint)) => {
            show_number(rt, ": no clash, rule ", constraint)?;
            rt.write_all(b"\n")
        }
        Err(refusal) => {
            show_refused(rt, u8::from(refusal))?;
            rt.write_all(b"\n")
        }
    }
}

// Prints the report of a clash, which ends its last line itself.
fn show_report(rt: &impl Print, sheet: &[u8], filling: &[u8]) -> io::Result<()>
    requires { checking sheet.now filling.now ≡ finished (1 ∷ []) }
{
    let mut buf = [0u8; MOST_REPORT];
    let n = report::write(sheet, filling, &mut buf);
    rt.write_all(b": ")?;
    rt.write_all(&buf[..n])?;
    show_difference(rt, sheet, filling)
}

// Loads a filling and stores it again, and prints a line where the bytes are not as they were.
fn show_difference(rt: &impl Print, sheet: &[u8], filling: &[u8]) -> io::Result<()>
    requires { checking sheet.now filling.now ≡ finished (1 ∷ []) }
{
    let mut buf = [0u8; MOST_BYTES];
    let fields = usize::from(parts::four_counts(sheet).fields);
    fields::store(&mut buf, fields::load(sheet, filling), fields);
    if &buf[..filling.len()] != filling {
        rt.write_all(b"stored again, the filling differs\n")?;
    }
    Ok(())
}

// Lends a buffer full of dots, as long as is asked, and prints what spelling answers.
fn show_spell(rt: &impl Print, sheet: &[u8], filling: &[u8], text: &[u8]) -> io::Result<()> {
    let mut asked = [0u8; ASKED];
    decode(text, &mut asked);
    let mut buf = [b'.'; LENT];
    let n = lent(asked[16], &buf);
    show_spelling(
        rt,
        sheet,
        number(&asked, 0),
        number(&asked, 8),
        filling,
        &mut buf[..n],
    )
}

// Prints what spelling answers, and the lent buffer as it then is, between bars.
fn show_spelling(
    rt: &impl Print,
    sheet: &[u8],
    equation: usize,
    side: usize,
    filling: &[u8],
    buf: &mut [u8],
) -> io::Result<()> {
    match substitution::spell(sheet, equation, side, filling, buf) {
        Ok(n) => show_number(rt, ": spelled ", n)?,
        Err(refusal) => show_refused(rt, u8::from(refusal))?,
    }
    rt.write_all(b" |")?;
    rt.write_all(buf)?;
    rt.write_all(b"|\n")
}

// The number of eight bytes, the high byte first.
fn number(bytes: &[u8; ASKED], at: usize) -> usize
    requires { at + 8 ≤ 17 }
{
    let mut n = 0;
    for x in &bytes[at..at + 8] {
        n = (n << 8) | usize::from(*x);
    }
    n
}
