// Searches the sheet on standard input and prints the report of the first clash, or `apart`, or only `refused`, a space, document 01's number of the
// refusal and a line end.
#![tactic(auto)]

ghost use Rattle.std.specs.Prelude.{◌≤◌, length};
ghost use Rattle.model.specs.Lists.{Puts};
ghost use Rattle.calls.specs.Report.{most_report, search_printed};

use automaton::Verdict;
use fields::{FIELD_BYTES, MOST_BYTES};
use input::read_full;
use report::MOST_REPORT;
use sheet::ENOUGH;
use std::io;

fn main(rt: HostRuntime) -> io::Result<()> {
    let mut buf = [0u8; ENOUGH];
    let n = read_full(&mut rt.stdin(), &mut buf);
    show(&rt, &buf[..n])
}

// Prints the answer.
fn show(rt: &impl Print, sheet: &[u8]) -> io::Result<()> {
    let mut out = [0u8; MOST_REPORT];
    let n = answer(sheet, &mut out);
    rt.write_all(&out[..n])
}

// What is printed for a sheet, at the front of a buffer. Returns its length; later bytes are as they were.
fn answer(sheet: &[u8], out: &mut [u8]) -> usize
    requires { most_report ≤ length out.old }
    ensures { Puts out.old 0 (search_printed sheet.now) out.new result }
{
    let mut filling = [0u8; MOST_BYTES];
    match automaton::search(sheet, &mut filling) {
        Err(refusal) => report::refusal(out, u8::from(refusal)),
        Ok(Verdict::Unsatisfiable) => words::put(out, 0, b"apart\n"),
        Ok(Verdict::Solution) => {
            let size = FIELD_BYTES * shape::fields(sheet);
            report::write(sheet, &filling[..size], out)
        }
    }
}
