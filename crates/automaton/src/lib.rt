// Searching a sheet for its first solution: what is found is handed over once it has passed the check.
#![tactic(auto)]

ghost use Rattle.std.specs.Prelude.{◌≡◌, ◌*◌, ◌≤◌, length};
ghost use Rattle.model.specs.Sheet.{sheet_of};
ghost use Rattle.model.specs.Range.{Admitted};
ghost use Rattle.calls.specs.Calls.{searching, Decides};
ghost use Rattle.automaton.specs.Answer.{number_of, verdict_of, searched};
ghost use Rattle.automaton.specs.declared.Refusal.TheVariants.{Sheet};

use fields::FIELD_BYTES;
use solution::solve;

// What searching refuses, by document 01's numbers: what reading a sheet refuses, and 27.
#[derive(Clone, Copy, Debug, PartialEq, Eq)]
pub enum Refusal {
    Sheet(sheet::Refusal),
    Room,
}

impl From<sheet::Refusal> for Refusal {
    ghost from_gives = { λ refusal r. r ≡ Sheet refusal };

    fn from(refusal: sheet::Refusal) -> Refusal {
        Refusal::Sheet(refusal)
    }
}

// Document 01's number of a refusal.
impl From<Refusal> for u8 {
    ghost from_gives = { λ refusal r. r ≡ number_of refusal };

    fn from(refusal: Refusal) -> u8 {
        match refusal {
            Refusal::Sheet(found) => u8::from(found),
            Refusal::Room => 27,
        }
    }
}

// The answer of searching an accepted sheet (document 01: clash, or apart).
#[derive(Clone, Copy, Debug, PartialEq, Eq)]
pub enum Verdict {
    Solution,
    Unsatisfiable,
}

// Searches an accepted sheet, and hands over what is found once it has passed the check.
fn hand_over(sheet: &[u8], buf: &mut [u8]) -> Verdict
    requires { Admitted sheet.now × (9 * length (sheet_of sheet.now).limits ≤ length buf.old) }
    ensures { Decides (searching sheet.now (length buf.old)) buf.old (verdict_of result) buf.new }
{
    let Some(g) = solve(sheet, true) else {
        return Verdict::Unsatisfiable;
    };
    if substitution::solves(sheet, g) {
        fields::store(buf, g, shape::fields(sheet));
        Verdict::Solution
    } else {
        Verdict::Unsatisfiable
    }
}

// Searches a sheet for the first solution: if there is one, its filling's bytes fill the buffer's first 9 bytes for each field. Else that the sheet is
// unsatisfiable, or the first refusal in document 01's order. Any bytes are allowed. Bytes after the filling, and without a solution all,
// are as they were.
pub fn search(sheet: &[u8], buf: &mut [u8]) -> Result<Verdict, Refusal>
    ensures { Decides (searching sheet.now (length buf.old)) buf.old (searched result) buf.new }
{
    sheet::read(sheet)?;
    if buf.len() < FIELD_BYTES * shape::fields(sheet) {
        return Err(Refusal::Room);
    }
    Ok(hand_over(sheet, buf))
}
