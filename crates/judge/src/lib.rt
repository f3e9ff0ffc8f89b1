// What a substitution comes to on an accepted sheet: it solves it, since every equation's two words are the same and every constraint holds; or the first cause why
// it does not.
#![tactic(auto)]

ghost use Rattle.std.specs.Prelude.{◌≡◌, true, false, ℕ, ◌<◌, ◌≤◌, length};
ghost use Rattle.model.specs.Sheet.{sheet_of, equation, constraint};
ghost use Rattle.model.specs.Word.{weight};
ghost use Rattle.model.specs.Mismatch.{judged};
ghost use Rattle.model.specs.Word as model;
ghost use Rattle.fields.specs.Memory.{Held, meaning};
ghost use Rattle.judge.specs.Answer.{meant};

use fields::Substitution;
use mismatch::{Mismatch, compare_sides};

// What a substitution comes to: it solves the sheet; or the first equation whose two words differ; or the first constraint that does not hold.
#[derive(Clone, Copy, Debug, PartialEq, Eq)]
pub enum Judgement {
    Solution,
    Differs(usize, Mismatch),
    Breaks(usize),
}

// Whether both templates of equation p spell the same word: nothing is left over.
fn equation_holds(sheet: &[u8], p: usize, g: Substitution) -> bool
    requires { Held sheet.now g × (p < length (sheet_of sheet.now).equations) }
    ensures { result ≡ model.equation_holds (sheet_of sheet.now) (meaning sheet.now g) (equation (sheet_of sheet.now) p) }
{
    compare_sides(sheet, p, g).rest == 0
}

// The sum of coefficient × length of constraint r.
fn weigh(sheet: &[u8], r: usize, g: Substitution) -> i16
    requires { Held sheet.now g × (r < length (sheet_of sheet.now).constraints) }
    ensures { result ≡ weight (constraint (sheet_of sheet.now) r) (meaning sheet.now g) (length (sheet_of sheet.now).limits) }
{
    let fields = usize::from(parts::four_counts(sheet).fields);
    let mut sum: i16 = 0;
    for f in 0..fields {
        sum += i16::from(parts::coefficient(sheet, r, f)) * i16::from(g[f].len);
    }
    sum
}

// Whether constraint r holds.
fn constraint_holds(sheet: &[u8], r: usize, g: Substitution) -> bool
    requires { Held sheet.now g × (r < length (sheet_of sheet.now).constraints) }
    ensures { result ≡ model.constraint_holds (sheet_of sheet.now) (meaning sheet.now g) (constraint (sheet_of sheet.now) r) }
{
    weigh(sheet, r, g) <= parts::most(sheet, r)
}

// How many of n hold before the first that does not: all of them if there is none.
fn hold<F: Fn(usize) -> bool>(n: usize, holds: F) -> usize
    requires { (i : ℕ) → i < n → F.pre holds i }
    ensures within { result ≤ n }
    ensures before { (i : ℕ) → i < result → F.post holds i true }
    ensures first { result < n → F.post holds result false }
{
    for i in 0..n {
        if !holds(i) {
            return i;
        }
    }
    n
}

// What the substitution comes to.
pub fn judge(sheet: &[u8], g: Substitution) -> Judgement
    requires { Held sheet.now g }
    ensures { meant result ≡ judged (sheet_of sheet.now) (meaning sheet.now g) }
{
    let counts = parts::four_counts(sheet);
    let equations = usize::from(counts.equations);
    let p = hold(equations, |p| equation_holds(sheet, p, g));
    if p < equations {
        return Judgement::Differs(p, compare_sides(sheet, p, g));
    }
    let constraints = usize::from(counts.constraints);
    let r = hold(constraints, |r| constraint_holds(sheet, r, g));
    if r < constraints {
        return Judgement::Breaks(r);
    }
    Judgement::Solution
}

// Whether the substitution solves the sheet.
#[tactic(auto, using(crate::proofs::Solved::solved))]
pub fn solves(sheet: &[u8], g: Substitution) -> bool
    requires { Held sheet.now g }
    ensures { result ≡ model.solves (sheet_of sheet.now) (meaning sheet.now g) }
{
    matches!(judge(sheet, g), Judgement::Solution)
}
