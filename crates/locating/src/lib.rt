// Finds the clause of a number, counted from 0, among those of an equation: whole rows of locations, then whole locations, are skipped by their
// counts.
#![tactic(auto)]

ghost use Rattle.std.specs.Prelude.{◌≡◌, ◌+◌, ◌<◌, ◌≤◌, length, get_or};
ghost use Rattle.model.specs.Lists.{total};
ghost use Rattle.model.specs.Sheet.{sheet_of};
ghost use Rattle.model.specs.Range.{Admitted};
ghost use Rattle.formula.specs.Clause.{none, id_at, left_cells, right_cells};
ghost use Rattle.formula.specs.Kind.{at_field, SideIn};
ghost use Rattle.formula.specs.Count.{standing, location_count, row_count, equation_count, equation_start};
ghost use Rattle.shape.specs.Bytes.{side_bytes, side_of};
ghost use Rattle.literals.specs.Name.{name_of};

use kinds::{Side, side_of};
use literals::ClauseId;
use shape::ROOM;

// Clause n of those of a location, by what stands on its two sides; l is the number of letters. A place against letter b has no Match of b itself.
fn at_location(l: usize, p: usize, i: usize, j: usize, u: u8, v: u8, n: usize) -> ClauseId
    requires { (l ≤ 8) × SideIn l (side_of u) × SideIn l (side_of v) × (n < location_count l (side_of u) (side_of v)) }
    ensures { name_of result ≡ get_or (standing l p i j (side_of u) (side_of v)) n none }
{
    match (side_of(u), side_of(v), n) {
        (Side::Letter(_), Side::Letter(_), 0) => ClauseId::Both(p, i, j),
        (Side::Letter(a), Side::Letter(_), _) => ClauseId::Match(p, i, j, usize::from(a)),
        (Side::Letter(_), Side::Place, 0) => ClauseId::Right(p, i, j),
        (Side::Letter(_), Side::Place, 1) => ClauseId::Both(p, i, j),
        (Side::Letter(a), Side::Place, _) => ClauseId::Match(p, i, j, usize::from(a)),
        (Side::Place, Side::Letter(_), 0) => ClauseId::Left(p, i, j),
        (Side::Place, Side::Letter(_), 1) => ClauseId::Both(p, i, j),
        (Side::Place, Side::Letter(b), _) if n - 2 < usize::from(b) => {
            ClauseId::Match(p, i, j, n - 2)
        }
        (Side::Place, Side::Letter(_), _) => ClauseId::Match(p, i, j, n - 1),
        (Side::Place, Side::Place, 0) => ClauseId::Left(p, i, j),
        (Side::Place, Side::Place, 1) => ClauseId::Right(p, i, j),
        (Side::Place, Side::Place, 2) => ClauseId::Both(p, i, j),
        (Side::Place, Side::Place, _) => ClauseId::Match(p, i, j, n - 3),
        (Side::Used, Side::Place, 0) => ClauseId::Right(p, i, j),
        (Side::Place, Side::Used, 0) => ClauseId::Left(p, i, j),
        (Side::Used, _, _) | (_, Side::Used, _) => ClauseId::End(p, i, j),
    }
}

// Clause n of those of a row of locations, those with cell i on the left, whose byte is u; `right` has the cells on the right.
fn in_row(sheet: &[u8], p: usize, i: usize, u: u8, right: [u8; ROOM], n: usize) -> ClauseId
    requires { Admitted sheet.now × (p < length (sheet_of sheet.now).equations) × (i ≤ length (left_cells (sheet_of sheet.now) p)) × (u ≡ get_or (side_bytes (left_cells (sheet_of sheet.now) p)) i 0) × (right ≡ side_bytes (right_cells (sheet_of sheet.now) p)) × (n < row_count (sheet_of sheet.now) p i) }
    ensures { name_of result ≡ id_at (sheet_of sheet.now) (equation_start (sheet_of sheet.now) p + (1 + (total i (row_count (sheet_of sheet.now) p) + n))) }
{
    let letters = shape::letters(sheet);
    let width = shape::width(sheet, p, 1);
    let mut rest = n;
    for j in 0..width + 1 {
        let size = kinds::location_count(letters, u, right[j]);
        if rest < size {
            return at_location(letters, p, i, j, u, right[j], rest);
        }
        rest -= size;
    }
    ClauseId::Start(p)
}

// Clause n of those of equation p.
pub fn in_equation(sheet: &[u8], p: usize, n: usize) -> ClauseId
    requires { Admitted sheet.now × (p < length (sheet_of sheet.now).equations) × (n < equation_count (sheet_of sheet.now) p) }
    ensures { name_of result ≡ id_at (sheet_of sheet.now) (equation_start (sheet_of sheet.now) p + n) }
{
    if n == 0 {
        return ClauseId::Start(p);
    }
    let letters = shape::letters(sheet);
    let m = shape::width(sheet, p, 0);
    let census = counting::survey(sheet, p);
    let left = shape::side(sheet, p, 0);
    let right = shape::side(sheet, p, 1);
    let mut rest = n - 1;
    for i in 0..m + 1 {
        let size = kinds::row_count(letters, left[i], census);
        if rest < size {
            return in_row(sheet, p, i, left[i], right, rest);
        }
        rest -= size;
    }
    ClauseId::Start(p)
}
