// Runs the vectors of standard input through `book_list::compare`, or with hours through `book_hours::compare`, and prints for each its name, `listed` and the number
// of pairs or document 02's number of the refusal, and the lent buffer as it then is, its bytes in hexadecimal. A line of the file stdin is a vector's name, a colon,
// the book, a semicolon, with hours their file and another semicolon, and the length of the lent buffer, one byte, all in hexadecimal. A line with no colon is a
// heading and is printed as it is. The file stdout has document 02's answers.
#![tactic(auto)]

use book_list::Refusal;
use std::io;
use vectors::{decode, lent, run, show_bytes, show_refused};

// Room for a book's bytes. Document 02 accepts none of more than 287.
const BOOK: usize = 300;

// Room for an hours file's bytes. Document 02 accepts none of more than 277.
const HOURS: usize = 300;

// The longest buffer that is lent. A list has at most 240 bytes.
const LENT: usize = 256;

// Shows each vector of standard input, of which the first 65,536 bytes are read.
fn main(rt: HostRuntime) -> io::Result<()> {
    run(&rt, |vector| show_vector(&rt, vector))
}

// Prints the answer to a vector: a book, what stands after it, and the length of the lent buffer.
fn show_vector(rt: &impl Print, text: &[u8]) -> io::Result<()> {
    let mut parts = text.splitn(2, |x| *x == b';');
    let mut book = [0u8; BOOK];
    // The colon is no digit, and is passed over.
    let n = decode(parts.next().unwrap_or(&[]), &mut book);
    match parts.next() {
        None => Ok(()),
        Some(rest) => show_book(rt, &book[..n], rest),
    }
}

// Prints the answer to a book, with what stands after it: with hours, if there is another semicolon.
fn show_book(rt: &impl Print, book: &[u8], text: &[u8]) -> io::Result<()> {
    let mut parts = text.splitn(2, |x| *x == b';');
    let first = parts.next().unwrap_or(&[]);
    match parts.next() {
        None => show_lent(rt, book, length(first)),
        Some(asked) => {
            let mut hours = [0u8; HOURS];
            let n = decode(first, &mut hours);
            show_hours(rt, book, &hours[..n], length(asked))
        }
    }
}

// The length that a text gives.
fn length(text: &[u8]) -> u8 {
    let mut asked = [0u8; 1];
    decode(text, &mut asked);
    asked[0]
}

// Lends a buffer full of dots, as long as is asked, and prints what comparing the templates answers.
fn show_lent(rt: &impl Print, book: &[u8], asked: u8) -> io::Result<()> {
    let mut buf = [b'.'; LENT];
    let n = lent(asked, &buf);
    show_compared(rt, book, &mut buf[..n])
}

fn show_compared(rt: &impl Print, book: &[u8], buf: &mut [u8]) -> io::Result<()> {
    show_list(rt, book_list::compare(book, buf))?;
    show_buffer(rt, buf)
}

// The same with hours.
fn show_hours(rt: &impl Print, book: &[u8], hours: &[u8], asked: u8) -> io::Result<()> {
    let mut buf = [b'.'; LENT];
    let n = lent(asked, &buf);
    show_scheduled(rt, book, hours, &mut buf[..n])
}

fn show_scheduled(rt: &impl Print, book: &[u8], hours: &[u8], buf: &mut [u8]) -> io::Result<()> {
    show_list(rt, book_hours::compare(book, hours, buf))?;
    show_buffer(rt, buf)
}

// Prints what comparing the templates answers.
fn show_list(rt: &impl Print, compared: Result<usize, Refusal>) -> io::Result<()> {
    match compared {
        Ok(n) => print!(rt; ": listed {n}"),
        Err(refusal) => show_refused(rt, u8::from(refusal)),
    }
}

// Prints the lent buffer as it then is, between bars.
fn show_buffer(rt: &impl Print, buf: &[u8]) -> io::Result<()> {
    rt.write_all(b" |")?;
    show_bytes(rt, buf)?;
    rt.write_all(b"|\n")
}
