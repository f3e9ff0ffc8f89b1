// Gathers the rows of the equations and constraints that are asked, one after the other at the front of a lent slice. Knows nothing of what
// a row says.
#![tactic(auto)]

ghost use Rattle.std.specs.Prelude.{◌≡◌, ◌+◌, ◌*◌, ◌<◌, ◌≤◌, length};
ghost use Rattle.model.specs.Lists.{each, when, Puts, placed};
ghost use Rattle.model.specs.Sheet.{sheet_of, equation, constraint};
ghost use Rattle.model.specs.Range.{Admitted};
ghost use Rattle.inequalities.specs.Asked.{asked};
ghost use Rattle.inequalities.specs.Rows.{equation_rows, constraint_rows, flat, Gathered};

use inequalities::{Marks, ROW_SIZE, Row, constraint_row, equation_row};

// Writes row i.
fn put_row(rows: &mut [u16], i: usize, row: Row)
    requires { 14 * i + 14 ≤ length rows.old }
    ensures { rows.new ≡ placed rows.old (14 * i) row }
{
    let at = ROW_SIZE * i;
    rows[at..at + ROW_SIZE].copy_from_slice(&row);
}

// The rows of equation p from row i on, if it is asked. Returns the number of the row after them.
fn put_equation(rows: &mut [u16], i: usize, sheet: &[u8], p: usize, mark: bool) -> usize
    requires { Admitted sheet.now × (p < length (sheet_of sheet.now).equations) × (14 * i + 28 ≤ length rows.old) }
    ensures { Puts rows.old (14 * i) (flat (when mark (equation_rows (equation (sheet_of sheet.now) p)))) rows.new (14 * result) }
{
    if !mark {
        return i;
    }
    let left = parts::template(sheet, p, 0);
    let right = parts::template(sheet, p, 1);
    put_row(rows, i, equation_row(left, right));
    put_row(rows, i + 1, equation_row(right, left));
    i + 2
}

// The row of constraint r as row i, if it is asked. Returns the number of the row after it.
fn put_constraint(rows: &mut [u16], i: usize, sheet: &[u8], r: usize, mark: bool) -> usize
    requires { Admitted sheet.now × (r < length (sheet_of sheet.now).constraints) × (14 * i + 14 ≤ length rows.old) }
    ensures { Puts rows.old (14 * i) (flat (when mark (constraint_rows (constraint (sheet_of sheet.now) r)))) rows.new (14 * result) }
{
    if !mark {
        return i;
    }
    put_row(rows, i, constraint_row(sheet, r));
    i + 1
}

// The rows of the asked equations, from the front on. Returns how many there are.
fn put_equations(rows: &mut [u16], sheet: &[u8], marks: Marks) -> usize
    requires { Admitted sheet.now × (168 ≤ length rows.old) }
    ensures { Puts rows.old 0 (flat (each (asked marks (sheet_of sheet.now).equations) equation_rows)) rows.new (14 * result) × (result ≤ 8) }
{
    let mut i = 0;
    for p in 0..shape::equations(sheet) {
        i = put_equation(rows, i, sheet, p, marks[p]);
    }
    i
}

// The rows of the asked constraints, from a row on. Returns the number of the row after them.
fn put_constraints(rows: &mut [u16], start: usize, sheet: &[u8], marks: Marks) -> usize
    requires { Admitted sheet.now × (start ≤ 8) × (168 ≤ length rows.old) }
    ensures { Puts rows.old (14 * start) (flat (each (asked marks (sheet_of sheet.now).constraints) constraint_rows)) rows.new (14 * result) × (result ≤ 12) }
{
    let mut i = start;
    for r in 0..shape::constraints(sheet) {
        i = put_constraint(rows, i, sheet, r, marks[r]);
    }
    i
}

// The rows of the asked equations, two each, and of the asked constraints, one each, at the front of the lent slice. Returns how many
// there are.
pub fn gather(sheet: &[u8], equations: Marks, constraints: Marks, rows: &mut [u16]) -> usize
    requires { Admitted sheet.now × (168 ≤ length rows.old) }
    ensures { Gathered (sheet_of sheet.now) equations constraints rows.old rows.new result }
{
    let count = put_equations(rows, sheet, equations);
    put_constraints(rows, count, sheet, constraints)
}
