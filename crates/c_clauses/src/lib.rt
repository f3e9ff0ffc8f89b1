// For C: writing a line of the clause file. `engine` says what it returns and writes; a refusal is returned as minus its number, and leaves what is lent.
#![tactic(auto)]

ghost use Rattle.std.specs.Prelude.{length};
ghost use Rattle.calls.specs.Calls.{writing};
ghost use Rattle.c_answer.specs.Returned.{Handed};

use c_answer::minus;

// `tpl_line`: the length of the line that was written.
pub fn line(sheet: &[u8], line: u64, text: &mut [u8]) -> i64
    ensures { Handed (writing sheet.now line (length text.old)) text.old result text.new }
{
    match encoding::write_line(sheet, line as usize, text) {
        Ok(n) => n as i64,
        Err(refusal) => minus(u8::from(refusal)),
    }
}
