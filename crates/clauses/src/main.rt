// Prints the clause file of the sheet on standard input, or only `refused`, a space, document 01's number of the refusal and a line end.
#![tactic(auto)]

ghost use Rattle.std.specs.Prelude.{◌≤◌, length};
ghost use Rattle.model.specs.Lists.{Puts};
ghost use Rattle.formula.specs.Dimacs.{most_file};
ghost use Rattle.calls.specs.Report.{clauses_printed};

use input::read_full;
use sheet::ENOUGH;
use std::io;

// Room for any file: line 0 and at most 47,600 others, each of at most 38 bytes.
const MOST_FILE: usize = 1808838;

fn main(rt: HostRuntime) -> io::Result<()> {
    let mut buf = [0u8; ENOUGH];
    let n = read_full(&mut rt.stdin(), &mut buf);
    show(&rt, &buf[..n])
}

// Prints the answer.
fn show(rt: &impl Print, sheet: &[u8]) -> io::Result<()> {
    let mut out = [0u8; MOST_FILE];
    let n = answer(sheet, &mut out);
    rt.write_all(&out[..n])
}

// What is printed for a sheet, at the front of a buffer. Returns its length; later bytes are as they were.
fn answer(sheet: &[u8], out: &mut [u8]) -> usize
    requires { most_file ≤ length out.old }
    ensures { Puts out.old 0 (clauses_printed sheet.now) out.new result }
{
    match sheet::read(sheet) {
        Err(refusal) => report::refusal(out, u8::from(refusal)),
        Ok(_) => rendering::put_file(out, sheet),
    }
}
