// A question to the search, and an answer where there is one: lengths in ranges, and some of a sheet's equations and constraints. Cells and rows are made
// here once; `lengths` then goes through boxes of lengths, in which the equations are walked (document 000's automaton), and so are the equations
// reversed.
#![tactic(auto)]

ghost use Rattle.model.specs.Sheet.{sheet_of};
ghost use Rattle.model.specs.Range.{Admitted};
ghost use Rattle.question.specs.Ask.{Asking, Finds};

use bounds::Ranges;
use fields::Substitution;
use inequalities::{Marks, ROOM};
use sides::{CELLS, WIDTHS};

// What is asked: lengths in these ranges, and the equations and constraints that are marked.
#[derive(Clone, Copy)]
pub struct Ask {
    pub ranges: Ranges,
    pub equations: Marks,
    pub constraints: Marks,
}

// A substitution that answers what is asked, where there is one: the first in document 02's order (No. 1), if that is asked for; else any one.
pub fn find(sheet: &[u8], ask: Ask, first: bool) -> Option<Substitution>
    requires { Admitted sheet.now × Asking (sheet_of sheet.now) ask }
    ensures { Finds sheet.now ask first result }
{
    let mut x = [0; CELLS];
    let mut y = [0; CELLS];
    let mut w = [0; WIDTHS];
    let mut rows = [0; ROOM];
    let ahead = sides::put_equations(&mut x, &mut w, sheet, ask.equations, false);
    // the reversed equations are as wide: the same widths are written to w again
    let behind = sides::put_equations(&mut y, &mut w, sheet, ask.equations, true);
    let count = gathering::gather(sheet, ask.equations, ask.constraints, &mut rows);
    lengths::first(
        &x[..ahead.cells],
        &y[..behind.cells],
        &w[..behind.widths],
        &rows,
        count,
        ask.ranges,
        first,
    )
}
