// For C: searching a sheet. `engine` says what is returned and written; a refusal is returned as minus its number, and leaves what is lent.
#![tactic(auto)]

ghost use Rattle.std.specs.Prelude.{length};
ghost use Rattle.calls.specs.Calls.{searching};
ghost use Rattle.c_answer.specs.Returned.{Decided};

use automaton::Verdict;
use c_answer::minus;

// `tpl_search`: 1 for a clash, the first, whose filling was written; 0 where the sheet is apart.
pub fn search(sheet: &[u8], filling: &mut [u8]) -> i64
    ensures { Decided (searching sheet.now (length filling.old)) filling.old result filling.new }
{
    match automaton::search(sheet, filling) {
        Ok(Verdict::Solution) => 1,
        Ok(Verdict::Unsatisfiable) => 0,
        Err(refusal) => minus(u8::from(refusal)),
    }
}
