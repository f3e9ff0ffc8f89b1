// For C: reading a solver's reply. `engine` says what is returned and written; a refusal is returned as minus its number, and leaves what is
// lent.
#![tactic(auto)]

ghost use Rattle.std.specs.Prelude.{length};
ghost use Rattle.calls.specs.Calls.{replying};
ghost use Rattle.c_answer.specs.Returned.{HandedOver};

use c_answer::minus;

// `tpl_reply`: 0 for a reply that is accepted, whose filling was written.
pub fn reply(sheet: &[u8], reply: &[u8], filling: &mut [u8]) -> i64
    ensures { HandedOver (replying sheet.now reply.now (length filling.old)) filling.old result filling.new }
{
    match decoding::read_reply(sheet, reply, filling) {
        Ok(()) => 0,
        Err(refusal) => minus(u8::from(refusal)),
    }
}
