// How many bytes the lines of an equation have in the clause file, location by location: the lines that `locations` writes, by the same codes, and nothing is
// written.
#![tactic(auto)]

ghost use Rattle.std.specs.Prelude.{◌≡◌, ℕ, ◌<◌, ◌≤◌, length, get_or};
ghost use Rattle.model.specs.Sheet.{sheet_of};
ghost use Rattle.model.specs.Range.{Admitted};
ghost use Rattle.formula.specs.Kind.{at_field};
ghost use Rattle.shape.specs.Bytes.{side_of};
ghost use Rattle.locations.specs.Lines.{equation_lines};
ghost use Rattle.locations.specs.Codes.{row_of, Rowed};

use codes::{LEFT, RIGHT, Sign};
use crossings::{Cell, Crossing};
use locations::{Row, cell_codes};
use size_crossing::cross_size;
use size_line::{ENDING, literal_size};

// A row of locations, the first of which has code `here`, by the cell on the left.
fn row_size(row: Row, here: usize, left: Cell) -> usize
    requires { Rowed row.l row.n here left.code row.bytes row.codes × ((j : ℕ) → j < row.n → side_of (get_or row.bytes j 0) ≡ at_field → 0 < get_or row.codes j 0) }
    ensures { (result ≡ length (row_of row.l row.n here left.byte left.code row.bytes row.codes)) × (result ≤ 10000) }
{
    let down = 2 * row.n;
    let mut sum: usize = 0;
    for j in 0..row.n {
        let crossing = Crossing {
            l: row.l,
            down,
            here: here + 2 * j,
        };
        let right = Cell {
            byte: row.bytes[j],
            code: row.codes[j],
        };
        sum += cross_size(crossing, left, right);
    }
    sum
}

// Equation p.
pub fn equation_size(sheet: &[u8], p: usize) -> usize
    requires { Admitted sheet.now × (p < length (sheet_of sheet.now).equations) }
    ensures { (result ≡ length (equation_lines (sheet_of sheet.now) p)) × (result ≤ 300000) }
{
    let m = shape::width(sheet, p, LEFT) + 1;
    let left_bytes = shape::side(sheet, p, LEFT);
    let left_codes = cell_codes(sheet, p, LEFT);
    let row = Row {
        l: shape::letters(sheet),
        n: shape::width(sheet, p, RIGHT) + 1,
        bytes: shape::side(sheet, p, RIGHT),
        codes: cell_codes(sheet, p, RIGHT),
    };
    let here = codes::location_code(sheet, p, 0, 0, Sign::Is);
    let mut sum = literal_size(here) + ENDING;
    for i in 0..m {
        let left = Cell {
            byte: left_bytes[i],
            code: left_codes[i],
        };
        sum += row_size(row, here + i * (2 * row.n), left);
    }
    sum
}
