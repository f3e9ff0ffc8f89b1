// For C: reading a sheet, checking a filling, spelling a template. `engine` says what each returns and writes; a refusal is returned as minus
// its number, and leaves what is lent.
#![tactic(auto)]

ghost use Rattle.std.specs.Prelude.{◌≡◌, length};
ghost use Rattle.calls.specs.Calls.{reading, checking, spelling};
ghost use Rattle.c_answer.specs.Returned.{returned, lent_after, Handed, Explained};

use c_answer::minus;
use judge::Judgement;

// The answers of checking, and the causes why a filling does not clash.
const CLASH: i64 = 1;

const DOES_NOT_CLASH: i64 = 0;

const PAIR_DIFFERS: u64 = 1;

const RULE_BROKEN: u64 = 2;

// `tpl_read`: the four counts go to `counts`.
pub fn read(sheet: &[u8], counts: &mut [u64; 4]) -> i64
    ensures { (result ≡ returned (reading sheet.now)) × (counts.new ≡ lent_after (reading sheet.now) counts.old) }
{
    match sheet::read(sheet) {
        Ok(found) => {
            let letters = u64::from(found.letters);
            let fields = u64::from(found.fields);
            let equations = u64::from(found.equations);
            let constraints = u64::from(found.constraints);
            *counts = [letters, fields, equations, constraints];
            0
        }
        Err(first) => minus(u8::from(first)),
    }
}

// `tpl_check`: 1 for a clash; 0 for none, with the cause in `why`: the pair that differs, the letters that agree, the side and the length of the rest; or the rule
// broken.
pub fn check(sheet: &[u8], filling: &[u8], why: &mut [u64; 5]) -> i64
    ensures { Explained (checking sheet.now filling.now) why.old result why.new }
{
    match substitution::check(sheet, filling) {
        Ok(Judgement::Solution) => CLASH,
        Ok(Judgement::Differs(equation, found)) => {
            let pair = equation as u64;
            let agreeing = found.agreeing as u64;
            let side = found.side as u64;
            let rest = found.rest as u64;
            *why = [PAIR_DIFFERS, pair, agreeing, side, rest];
            DOES_NOT_CLASH
        }
        Ok(Judgement::Breaks(constraint)) => {
            let rule = constraint as u64;
            *why = [RULE_BROKEN, rule, 0, 0, 0];
            DOES_NOT_CLASH
        }
        Err(refusal) => minus(u8::from(refusal)),
    }
}

// `tpl_spell`: the length of the text that was written.
pub fn spell(sheet: &[u8], pair: u64, side: u64, filling: &[u8], text: &mut [u8]) -> i64
    ensures { Handed (spelling sheet.now pair side filling.now (length text.old)) text.old result text.new }
{
    match substitution::spell(sheet, pair as usize, side as usize, filling, text) {
        Ok(n) => n as i64,
        Err(refusal) => minus(u8::from(refusal)),
    }
}
