// The cells of a sheet's equations, expanded from the templates once for all walks: one after the other, with their widths. The same of the equations with
// each template reversed.
#![tactic(auto)]

ghost use Rattle.std.specs.Prelude.{◌≡◌, map, reverse, ◌+◌, ◌<◌, ◌≤◌, length};
ghost use Rattle.model.specs.Lists.{All, Puts};
ghost use Rattle.model.specs.Sheet.{sheet_of, equation, template};
ghost use Rattle.model.specs.Range.{Admitted};
ghost use Rattle.inequalities.specs.Asked.{asked};
ghost use Rattle.trails.specs.Mirror.{template_cells};
ghost use Rattle.sides.specs.Sides.{facing, sides_facing, Expands, Expanded};
ghost use Rattle.sides.specs.Reversal.{ByteIn, turned_byte, cells_facing};

use inequalities::Marks;
use shape::{FIRST_PLACE, PLACES};

// Room for the cells of four equations, and for their widths.
pub const CELLS: usize = 192;

pub const WIDTHS: usize = 8;

// How many cells and how many widths there are.
#[derive(Clone, Copy)]
pub struct Sizes {
    pub cells: usize,
    pub widths: usize,
}

// A cell of a template in the reversed template: a letter stays, and the places of a field go the other way.
fn turned(sheet: &[u8], b: u8) -> u8
    requires { Admitted sheet.now × ByteIn (sheet_of sheet.now) b }
    ensures { result ≡ turned_byte (sheet_of sheet.now) b }
{
    if b < FIRST_PLACE {
        return b;
    }
    let f = (b - FIRST_PLACE) / PLACES;
    let c = (b - FIRST_PLACE) % PLACES;
    let limit = parts::limit(sheet, usize::from(f));
    FIRST_PLACE + PLACES * f + (limit - 1 - c)
}

// The cells of a reversed template, from the cells of the template. Returns the offset past them.
fn put_turned(x: &mut [u8], at: usize, sheet: &[u8], piece: &[u8]) -> usize
    requires { Admitted sheet.now × All (ByteIn (sheet_of sheet.now)) piece.now × (at + length piece.now ≤ length x.old) }
    ensures { Puts x.old at (map (turned_byte (sheet_of sheet.now)) (reverse piece.now)) x.new result }
{
    let mut end = at;
    for i in (0..piece.len()).rev() {
        x[end] = turned(sheet, piece[i]);
        end += 1;
    }
    end
}

// The cells of a template, or of the reversed one.
fn put_cells(x: &mut [u8], at: usize, sheet: &[u8], piece: &[u8], back: bool) -> usize
    requires { Admitted sheet.now × All (ByteIn (sheet_of sheet.now)) piece.now × (at + length piece.now ≤ length x.old) }
    ensures { Puts x.old at (cells_facing (sheet_of sheet.now) back piece.now) x.new result }
{
    if back {
        put_turned(x, at, sheet, piece)
    } else {
        words::put(x, at, piece)
    }
}

// The cells of one side of equation p, or of that side reversed, at an offset. Returns the offset past them.
fn put_side(x: &mut [u8], at: usize, sheet: &[u8], p: usize, side: usize, back: bool) -> usize
    requires { Admitted sheet.now × (p < length (sheet_of sheet.now).equations) × (at + 24 ≤ length x.old) }
    ensures { Puts x.old at (template_cells (sheet_of sheet.now) (facing back (template (sheet_of sheet.now) p side))) x.new result × (result ≤ at + 24) }
{
    let cells = shape::side(sheet, p, side);
    let n = shape::width(sheet, p, side);
    put_cells(x, at, sheet, &cells[..n], back)
}

// Both sides of equation p, after those that are there.
fn put_equation(
    x: &mut [u8],
    w: &mut [u8],
    sheet: &[u8],
    p: usize,
    back: bool,
    there: Sizes,
) -> Sizes
    requires { Admitted sheet.now × (p < length (sheet_of sheet.now).equations) × (there.cells + 48 ≤ length x.old) × (there.widths + 2 ≤ length w.old) }
    ensures { Expands (sides_facing (sheet_of sheet.now) back (equation (sheet_of sheet.now) p)) x.old w.old there x.new w.new result }
{
    let at = there.cells;
    let k = there.widths;
    let middle = put_side(x, at, sheet, p, 0, back);
    let end = put_side(x, middle, sheet, p, 1, back);
    w[k] = (middle - at) as u8;
    w[k + 1] = (end - middle) as u8;
    Sizes {
        cells: end,
        widths: k + 2,
    }
}

// The asked equations, or these reversed, from the front on.
pub fn put_equations(x: &mut [u8], w: &mut [u8], sheet: &[u8], marks: Marks, back: bool) -> Sizes
    requires { Admitted sheet.now × (length x.old ≡ 192) × (length w.old ≡ 8) }
    ensures { Expanded (map (sides_facing (sheet_of sheet.now) back) (asked marks (sheet_of sheet.now).equations)) x.new w.new result }
{
    let mut sizes = Sizes {
        cells: 0,
        widths: 0,
    };
    for p in 0..shape::equations(sheet) {
        if marks[p] {
            sizes = put_equation(x, w, sheet, p, back, sizes);
        }
    }
    sizes
}
