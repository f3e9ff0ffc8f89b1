// The literals of the clauses at a location, document 01's B to F, as codes.
#![tactic(auto)]

ghost use Rattle.std.specs.Prelude.{◌≡◌};
ghost use Rattle.model.specs.Sheet.{sheet_of};
ghost use Rattle.model.specs.Range.{Admitted};
ghost use Rattle.formula.specs.Clause as model;
ghost use Rattle.formula.specs.Count.{IdIn};
ghost use Rattle.codes.specs.Nine.{nine};

use codes::{LEFT, MOST_LITERALS, RIGHT, Sign, blank_code, cell_code, location_code};

// Document 01's B: past a blank on the left.
pub fn left(sheet: &[u8], p: usize, i: usize, j: usize) -> [usize; MOST_LITERALS]
    requires { Admitted sheet.now × IdIn (sheet_of sheet.now) (model.Left p i j) }
    ensures { result ≡ nine (sheet_of sheet.now) (model.Left p i j) }
{
    let here = location_code(sheet, p, i, j, Sign::IsNot);
    let u = blank_code(sheet, p, LEFT, i, Sign::IsNot);
    let next = location_code(sheet, p, i + 1, j, Sign::Is);
    [here, u, next, 0, 0, 0, 0, 0, 0]
}

// Document 01's C: past a blank on the right.
pub fn right(sheet: &[u8], p: usize, i: usize, j: usize) -> [usize; MOST_LITERALS]
    requires { Admitted sheet.now × IdIn (sheet_of sheet.now) (model.Right p i j) }
    ensures { result ≡ nine (sheet_of sheet.now) (model.Right p i j) }
{
    let here = location_code(sheet, p, i, j, Sign::IsNot);
    let u = blank_code(sheet, p, LEFT, i, Sign::Is);
    let v = blank_code(sheet, p, RIGHT, j, Sign::IsNot);
    let next = location_code(sheet, p, i, j + 1, Sign::Is);
    [here, u, v, next, 0, 0, 0, 0, 0]
}

// Document 01's D: past two letters.
pub fn both(sheet: &[u8], p: usize, i: usize, j: usize) -> [usize; MOST_LITERALS]
    requires { Admitted sheet.now × IdIn (sheet_of sheet.now) (model.Both p i j) }
    ensures { result ≡ nine (sheet_of sheet.now) (model.Both p i j) }
{
    let here = location_code(sheet, p, i, j, Sign::IsNot);
    let first = blank_code(sheet, p, LEFT, i, Sign::Is);
    let second = blank_code(sheet, p, RIGHT, j, Sign::Is);
    let next = location_code(sheet, p, i + 1, j + 1, Sign::Is);
    [here, first, second, next, 0, 0, 0, 0, 0]
}

// Document 01's E: two letters are the same.
pub fn matching(sheet: &[u8], p: usize, i: usize, j: usize, a: usize) -> [usize; MOST_LITERALS]
    requires { Admitted sheet.now × IdIn (sheet_of sheet.now) (model.Match p i j a) }
    ensures { result ≡ nine (sheet_of sheet.now) (model.Match p i j a) }
{
    let here = location_code(sheet, p, i, j, Sign::IsNot);
    let blank = blank_code(sheet, p, RIGHT, j, Sign::Is);
    let u = cell_code(sheet, p, LEFT, i, a, Sign::IsNot);
    let v = cell_code(sheet, p, RIGHT, j, a, Sign::Is);
    [here, blank, u, v, 0, 0, 0, 0, 0]
}

// Document 01's F: where one side is used up the other has only blanks.
pub fn end(sheet: &[u8], p: usize, i: usize, j: usize) -> [usize; MOST_LITERALS]
    requires { Admitted sheet.now × IdIn (sheet_of sheet.now) (model.End p i j) }
    ensures { result ≡ nine (sheet_of sheet.now) (model.End p i j) }
{
    let here = location_code(sheet, p, i, j, Sign::IsNot);
    let v = blank_code(sheet, p, RIGHT, j, Sign::Is);
    let u = blank_code(sheet, p, LEFT, i, Sign::Is);
    [here, v, u, 0, 0, 0, 0, 0, 0]
}
