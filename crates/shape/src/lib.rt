// The shape of an accepted sheet: its counts and limits as wide numbers, and its templates as cells, a byte for each.
#![tactic(auto)]

ghost use Rattle.std.specs.Prelude.{◌≡◌, map, ◌+◌, ◌<◌, ◌≤◌, length};
ghost use Rattle.model.specs.Lists.{All, up_to, Puts};
ghost use Rattle.model.specs.Sheet.{symbol_of, sheet_of, template};
ghost use Rattle.model.specs.Sheet as model;
ghost use Rattle.formula.specs.Count as count;
ghost use Rattle.model.specs.Range.{SymbolIn, Admitted};
ghost use Rattle.model.specs.Cells.{place, symbol_cells, cells};
ghost use Rattle.shape.specs.Bytes.{cell_byte, side_bytes};
ghost use Rattle.shape.specs.Name.{section_of};

use scan::FIRST_FIELD;

// Room for the cells of a template, of which there are at most 24, and for what stands past the last.
pub const ROOM: usize = 25;

// What stands past the last cell.
pub const USED: u8 = 255;

// The byte of the first place, and how far apart the first places of two fields are.
pub const FIRST_PLACE: u8 = 8;

pub const PLACES: u8 = 8;

// The three sections of the variables and of the clauses.
#[derive(Clone, Copy)]
pub enum Section {
    Fields,
    Equations,
    Constraints,
}

// How many letters, fields, equations and constraints there are.
pub fn letters(sheet: &[u8]) -> usize
    requires { Admitted sheet.now }
    ensures { result ≡ length (sheet_of sheet.now).letters }
{
    usize::from(parts::four_counts(sheet).letters)
}

pub fn fields(sheet: &[u8]) -> usize
    requires { Admitted sheet.now }
    ensures { result ≡ length (sheet_of sheet.now).limits }
{
    usize::from(parts::four_counts(sheet).fields)
}

pub fn equations(sheet: &[u8]) -> usize
    requires { Admitted sheet.now }
    ensures { result ≡ length (sheet_of sheet.now).equations }
{
    usize::from(parts::four_counts(sheet).equations)
}

pub fn constraints(sheet: &[u8]) -> usize
    requires { Admitted sheet.now }
    ensures { result ≡ length (sheet_of sheet.now).constraints }
{
    usize::from(parts::four_counts(sheet).constraints)
}

// How many parts a section has.
pub fn parts(sheet: &[u8], section: Section) -> usize
    requires { Admitted sheet.now }
    ensures { (result ≡ count.parts (sheet_of sheet.now) (section_of section)) × (result ≤ 6) }
{
    match section {
        Section::Fields => fields(sheet),
        Section::Equations => equations(sheet),
        Section::Constraints => constraints(sheet),
    }
}

// The limit of field f.
pub fn limit(sheet: &[u8], f: usize) -> usize
    requires { Admitted sheet.now × (f < length (sheet_of sheet.now).limits) }
    ensures { (result ≡ model.limit (sheet_of sheet.now) f) × (result ≤ 8) }
{
    usize::from(parts::limit(sheet, f))
}

// The first places of field f, as many as n, at an offset of the buffer. Returns the offset past them.
fn put_places(buf: &mut [u8], at: usize, f: u8, n: u8) -> usize
    requires { (f < 6) × (n ≤ 8) × (at + n ≤ length buf.old) }
    ensures { Puts buf.old at (map cell_byte (map (place f) (up_to n))) buf.new result }
{
    for c in 0..n {
        buf[at + usize::from(c)] = FIRST_PLACE + PLACES * f + c;
    }
    at + usize::from(n)
}

// The cells of a symbol.
fn put_symbol(buf: &mut [u8], at: usize, sheet: &[u8], symbol: u8) -> usize
    requires { Admitted sheet.now × SymbolIn (length (sheet_of sheet.now).letters) (length (sheet_of sheet.now).limits) (symbol_of symbol) × (at + length (symbol_cells (sheet_of sheet.now) (symbol_of symbol)) ≤ length buf.old) }
    ensures { Puts buf.old at (map cell_byte (symbol_cells (sheet_of sheet.now) (symbol_of symbol))) buf.new result }
{
    if symbol < FIRST_FIELD {
        buf[at] = symbol;
        return at + 1;
    }
    let f = symbol - FIRST_FIELD;
    put_places(buf, at, f, parts::limit(sheet, usize::from(f)))
}

// The cells of a template, from the front of the buffer on. Returns how many there are.
fn put_cells(buf: &mut [u8], sheet: &[u8], symbols: &[u8]) -> usize
    requires { Admitted sheet.now × All (SymbolIn (length (sheet_of sheet.now).letters) (length (sheet_of sheet.now).limits)) (map symbol_of symbols.now) × (length (cells (sheet_of sheet.now) (map symbol_of symbols.now)) ≤ length buf.old) }
    ensures { Puts buf.old 0 (map cell_byte (cells (sheet_of sheet.now) (map symbol_of symbols.now))) buf.new result }
{
    let mut at = 0;
    for &symbol in symbols {
        at = put_symbol(buf, at, sheet, symbol);
    }
    at
}

// One side of an equation: its cells, and how many it has.
#[derive(Clone, Copy)]
struct Expansion {
    cells: [u8; ROOM],
    width: usize,
}

// One side of equation p, the left for side 0, else the right.
fn expand(sheet: &[u8], p: usize, side: usize) -> Expansion
    requires { Admitted sheet.now × (p < length (sheet_of sheet.now).equations) }
    ensures { (result.cells ≡ side_bytes (cells (sheet_of sheet.now) (template (sheet_of sheet.now) p side))) × (result.width ≡ length (cells (sheet_of sheet.now) (template (sheet_of sheet.now) p side))) × (result.width ≤ 24) }
{
    let mut cells = [USED; ROOM];
    let width = put_cells(&mut cells, sheet, parts::template(sheet, p, side));
    Expansion { cells, width }
}

// Its cells, as bytes.
pub fn side(sheet: &[u8], p: usize, side: usize) -> [u8; ROOM]
    requires { Admitted sheet.now × (p < length (sheet_of sheet.now).equations) }
    ensures { result ≡ side_bytes (cells (sheet_of sheet.now) (template (sheet_of sheet.now) p side)) }
{
    expand(sheet, p, side).cells
}

// How many cells it has.
pub fn width(sheet: &[u8], p: usize, side: usize) -> usize
    requires { Admitted sheet.now × (p < length (sheet_of sheet.now).equations) }
    ensures { (result ≡ length (cells (sheet_of sheet.now) (template (sheet_of sheet.now) p side))) × (result ≤ 24) }
{
    expand(sheet, p, side).width
}
