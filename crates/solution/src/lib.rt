// A solution of an accepted sheet, the first or any: letters are counted first, which can show at once that there is none; then the whole sheet is one question.
#![tactic(auto)]

ghost use Rattle.std.specs.Prelude.{◌≡◌, ℕ, ◌<◌, get_or};
ghost use Rattle.model.specs.Sheet.{sheet_of, limit};
ghost use Rattle.model.specs.Range.{Admitted};
ghost use Rattle.solution.specs.Whole.{Whole, Settles};

use bounds::Ranges;
use fields::{FIELDS, Lengths, Substitution};
use question::Ask;

// The limits of all fields, 0 for fields that the sheet does not have.
fn limits(sheet: &[u8]) -> Lengths
    requires { Admitted sheet.now }
    ensures { (f : ℕ) → f < 6 → get_or result f 0 ≡ limit (sheet_of sheet.now) f }
{
    let mut n = [0; FIELDS];
    for f in 0..shape::fields(sheet) {
        n[f] = parts::limit(sheet, f);
    }
    n
}

// The question of the whole sheet.
fn whole(sheet: &[u8]) -> Ask
    requires { Admitted sheet.now }
    ensures { Whole (sheet_of sheet.now) result }
{
    Ask {
        ranges: Ranges {
            lo: [0; FIELDS],
            hi: limits(sheet),
        },
        equations: [true; 4],
        constraints: [true; 4],
    }
}

// A solution of an accepted sheet, where there is one: the first if `first` is set, and else any.
pub fn solve(sheet: &[u8], first: bool) -> Option<Substitution>
    requires { Admitted sheet.now }
    ensures { Settles sheet.now first result }
{
    if balance::some_lopsided(sheet) {
        return None;
    }
    question::find(sheet, whole(sheet), first)
}
