// Reads a sheet from the file sheet.tpl and a solver's reply from reply.txt, and prints the report of the clash that the reply gives, or only
// `refused`, a space, document 01's number of the refusal and a line end. A file that cannot be opened counts as empty.
#![tactic(auto)]

ghost use Rattle.std.specs.Prelude.{◌≤◌, length, take, ◌≡◌};
ghost use Rattle.model.specs.Lists.{Puts};
ghost use Rattle.model.specs.Sheet.{sheet_of};
ghost use Rattle.calls.specs.Calls.{replying};
ghost use Rattle.calls.specs.Report.{most_report, printed};

use fields::{FIELD_BYTES, MOST_BYTES};
use input::read_full;
use report::MOST_REPORT;
use sheet::ENOUGH;
use std::fs::File;
use std::io;
use std::rt::Files;

// Of a text the first 65,537 bytes decide the answer: one more than are allowed.
const TEXT: usize = 65537;

fn main(rt: HostRuntime) -> io::Result<()> {
    let mut sheet = [0u8; ENOUGH];
    let n = read_file(&rt, "sheet.tpl", &mut sheet);
    let mut text = room();
    let m = read_file(&rt, "reply.txt", &mut text);
    show(&rt, &sheet[..n], &text[..m])
}

// Room for a text. As a function of its own it keeps the array's many bytes out of the proof of `main`.
fn room() -> [u8; TEXT] {
    [0u8; TEXT]
}

// Reads a file from its start on, as much as the buffer takes. Returns how many bytes it got. The last clause is what `&buf[..r]` asks of a
// caller.
fn read_file(rt: &impl Files, path: &str, buf: &mut [u8]) -> usize
    ensures upper_bound { result ≤ length buf.new }
    ensures value { result ≡ length (take result buf.new) }
{
    match File::open(rt, path) {
        Ok(mut file) => read_full(&mut file, buf),
        Err(_) => 0,
    }
}

// Prints the answer.
fn show(rt: &impl Print, sheet: &[u8], text: &[u8]) -> io::Result<()> {
    let mut out = [0u8; MOST_REPORT];
    let n = answer(sheet, text, &mut out);
    rt.write_all(&out[..n])
}

// What is printed for a sheet and a reply, at the front of a buffer. Returns its length; later bytes are as they were.
fn answer(sheet: &[u8], text: &[u8], out: &mut [u8]) -> usize
    requires { most_report ≤ length out.old }
    ensures { Puts out.old 0 (printed (sheet_of sheet.now) (replying sheet.now text.now 54)) out.new result }
{
    let mut filling = [0u8; MOST_BYTES];
    match decoding::read_reply(sheet, text, &mut filling) {
        Err(refusal) => report::refusal(out, u8::from(refusal)),
        Ok(()) => {
            let size = FIELD_BYTES * shape::fields(sheet);
            report::write(sheet, &filling[..size], out)
        }
    }
}
