// Runs the sheets of standard input through `sheet::read` and prints one line for each: its name,
// and the four counts or document 01's number of the refusal. A line of the file stdin is a sheet's
// name, a colon and its bytes in hexadecimal, with spaces between its parts; or it has no colon, is
// a heading and is printed as it is. The file stdout has document 01's answers.
#![tactic(auto)]

use std::io;
use vectors::{decode, run, show_refused};

// Room for a sheet's bytes. Document 01 accepts none of more than 159.
const ROOM: usize = 256;

// Shows each vector of standard input, of which the first 65,536 bytes are read.
fn main(rt: HostRuntime) -> io::Result<()> {
    run(&rt, |vector| show_vector(&rt, vector))
}

// Prints what reading a sheet answers.
fn show_vector(rt: &impl Print, text: &[u8]) -> io::Result<()> {
    let mut sheet = [0u8; ROOM];
    // The colon is no digit, and is passed over.
    let n = decode(text, &mut sheet);
    show(rt, &sheet[..n])
}

// Prints what reading a sheet answers, and the line's end.
fn show(rt: &impl Print, sheet: &[u8]) -> io::Result<()> {
    match sheet::read(sheet) {
        Ok(counts) => show_counts(rt, counts)?,
        Err(refusal) => show_refused(rt, u8::from(refusal))?,
    }
    rt.write_all(b"\n")
}

// Prints that a sheet is accepted, and its four counts.
fn show_counts(rt: &impl Print, counts: parts::Counts) -> io::Result<()> {
    let parts::Counts {
        letters,
        fields,
        equations,
        constraints,
    } = counts;
    print!(rt; ": accepted {letters} {fields} {equations} {constraints}")
}
