// The lines of a clause file as bytes: numbers in decimal, literals, clauses, and the first line. Each is written into a lent buffer.
#![tactic(auto)]

ghost use Rattle.std.specs.Prelude.{[], ◌∷◌, ◌+◌, ◌<◌, ◌≤◌, length};
ghost use Rattle.model.specs.Lists.{each, Puts};
ghost use Rattle.formula.specs.Dimacs.{decimal, problem_line};
ghost use Rattle.dimacs.specs.Codes.{code_bytes, codes_line, code_size, line_size};

use words::put;

// The figure of a number below ten, at an offset of the buffer. Returns the offset past it.
fn figure(buf: &mut [u8], at: usize, n: usize) -> usize
    requires { (n < 10) × (at < length buf.old) }
    ensures { Puts buf.old at ((48 + n) ∷ []) buf.new result }
{
    buf[at] = b'0' + n as u8;
    at + 1
}

// A number of at most four figures in decimal: each figure by itself, which is faster than one after the other.
fn few_figures(buf: &mut [u8], at: usize, n: usize) -> usize
    requires { (n < 10000) × (at + length (decimal n) ≤ length buf.old) }
    ensures { Puts buf.old at (decimal n) buf.new result }
{
    if n < 10 {
        return figure(buf, at, n);
    }
    if n < 100 {
        let a = figure(buf, at, n / 10);
        return figure(buf, a, n % 10);
    }
    if n < 1000 {
        let a = figure(buf, at, n / 100);
        let b = figure(buf, a, n / 10 % 10);
        return figure(buf, b, n % 10);
    }
    let a = figure(buf, at, n / 1000);
    let b = figure(buf, a, n / 100 % 10);
    let c = figure(buf, b, n / 10 % 10);
    figure(buf, c, n % 10)
}

// A number in decimal, at an offset of the buffer. Returns the offset past it. It calls itself, since the figures before the last stand before it.
pub fn print(buf: &mut [u8], at: usize, n: usize) -> usize
    requires { at + length (decimal n) ≤ length buf.old }
    ensures { Puts buf.old at (decimal n) buf.new result }
{
    if n < 10000 {
        return few_figures(buf, at, n);
    }
    let next = print(buf, at, n / 10);
    buf[next] = b'0' + (n % 10) as u8;
    next + 1
}

// A literal by its code, and the space after it; of code 0 nothing.
fn put_literal(buf: &mut [u8], at: usize, code: usize) -> usize
    requires { at + code_size code ≤ length buf.old }
    ensures { Puts buf.old at (code_bytes code) buf.new result }
{
    if code == 0 {
        return at;
    }
    let next = if code % 2 == 0 {
        at
    } else {
        put(buf, at, b"-")
    };
    let end = print(buf, next, code / 2);
    put(buf, end, b" ")
}

// Literals one after another.
fn put_literals(buf: &mut [u8], at: usize, codes: &[usize]) -> usize
    requires { at + length (each codes.now code_bytes) ≤ length buf.old }
    ensures { Puts buf.old at (each codes.now code_bytes) buf.new result }
{
    let mut past = at;
    for &code in codes {
        past = put_literal(buf, past, code);
    }
    past
}

// The line of a clause.
pub fn clause_line(buf: &mut [u8], at: usize, codes: &[usize]) -> usize
    requires { at + line_size codes.now ≤ length buf.old }
    ensures { Puts buf.old at (codes_line codes.now) buf.new result }
{
    let past = put_literals(buf, at, codes);
    put(buf, past, b"0\n")
}

// The first line of a clause file. Returns its length.
pub fn problem_line(buf: &mut [u8], variables: usize, clauses: usize) -> usize
    requires { length (problem_line variables clauses) ≤ length buf.old }
    ensures { Puts buf.old 0 (problem_line variables clauses) buf.new result }
{
    let a = put(buf, 0, b"p cnf ");
    let b = print(buf, a, variables);
    let c = put(buf, b, b" ");
    let d = print(buf, c, clauses);
    put(buf, d, b"\n")
}
