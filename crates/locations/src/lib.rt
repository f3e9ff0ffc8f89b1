// The lines of an equation's clauses in the clause file, written into a lent buffer location by location. The codes of an equation's cells and of its first
// location are worked out once, and those of its lines follow from them by adding. A function that writes returns the offset past what it has written.
#![tactic(auto)]

ghost use Rattle.std.specs.Prelude.{◌≡◌, map, ◌+◌, ◌<◌, ◌≤◌, length};
ghost use Rattle.model.specs.Lists.{up_to, Puts};
ghost use Rattle.model.specs.Sheet.{sheet_of, template};
ghost use Rattle.model.specs.Range.{Admitted};
ghost use Rattle.model.specs.Cells.{cells};
ghost use Rattle.codes.specs.Cell.{cell_code};
ghost use Rattle.locations.specs.Lines.{equation_lines};
ghost use Rattle.locations.specs.Codes.{row_of, Rowed};

use codes::{LEFT, RIGHT, Sign};
use crossings::{Cell, Crossing, put_cross};
use literals::{ClauseId, put_clause};
use shape::ROOM;

// What the rows of an equation have in common: how many letters there are, how many locations a row has, and the bytes and the codes of the right side.
#[derive(Clone, Copy)]
pub struct Row {
    pub l: usize,
    pub n: usize,
    pub bytes: [u8; ROOM],
    pub codes: [usize; ROOM],
}

// A row of locations, the first of which has code `here`, by the cell on the left.
fn put_row(buf: &mut [u8], at: usize, row: Row, here: usize, left: Cell) -> usize
    requires { Rowed row.l row.n here left.code row.bytes row.codes × (at + length (row_of row.l row.n here left.byte left.code row.bytes row.codes) ≤ length buf.old) }
    ensures { Puts buf.old at (row_of row.l row.n here left.byte left.code row.bytes row.codes) buf.new result }
{
    let down = 2 * row.n;
    let mut past = at;
    for j in 0..row.n {
        let crossing = Crossing {
            l: row.l,
            down,
            here: here + 2 * j,
        };
        let right = Cell {
            byte: row.bytes[j],
            code: row.codes[j],
        };
        past = put_cross(buf, past, crossing, left, right);
    }
    past
}

// The codes of value 0 of the places on one side of equation p, and 0 for its letters and past them. The loop goes by index, since a code is asked for by its index.
pub fn cell_codes(sheet: &[u8], p: usize, side: usize) -> [usize; ROOM]
    requires { Admitted sheet.now × (p < length (sheet_of sheet.now).equations) }
    ensures { result ≡ map (λ i. cell_code (sheet_of sheet.now) (cells (sheet_of sheet.now) (template (sheet_of sheet.now) p side)) i 0 0) (up_to 25) }
{
    let mut codes = [0usize; ROOM];
    for i in 0..ROOM {
        codes[i] = codes::cell_code(sheet, p, side, i, 0, Sign::Is);
    }
    codes
}

// Equation p.
pub fn put_equation(buf: &mut [u8], at: usize, sheet: &[u8], p: usize) -> usize
    requires { Admitted sheet.now × (p < length (sheet_of sheet.now).equations) × (at + length (equation_lines (sheet_of sheet.now) p) ≤ length buf.old) }
    ensures { Puts buf.old at (equation_lines (sheet_of sheet.now) p) buf.new result }
{
    let m = shape::width(sheet, p, LEFT) + 1;
    let left_bytes = shape::side(sheet, p, LEFT);
    let left_codes = cell_codes(sheet, p, LEFT);
    let row = Row {
        l: shape::letters(sheet),
        n: shape::width(sheet, p, RIGHT) + 1,
        bytes: shape::side(sheet, p, RIGHT),
        codes: cell_codes(sheet, p, RIGHT),
    };
    let here = codes::location_code(sheet, p, 0, 0, Sign::Is);
    let mut past = put_clause(buf, at, sheet, ClauseId::Start(p));
    for i in 0..m {
        let left = Cell {
            byte: left_bytes[i],
            code: left_codes[i],
        };
        past = put_row(buf, past, row, here + i * (2 * row.n), left);
    }
    past
}
