// How many bytes the lines of a constraint have in the clause file. The sums of a step are numbered in a row, and so are those that a length of its field makes of
// them: all lines with that length are measured at once.
#![tactic(auto)]

ghost use Rattle.std.specs.Prelude.{◌≡◌, suc, ◌*◌, ◌<◌, ◌≤◌, pos, nat_abs, ◌+ℤ◌, length};
ghost use Rattle.model.specs.Lists.{each, up_to, total};
ghost use Rattle.model.specs.Sheet.{sheet_of, constraint};
ghost use Rattle.model.specs.Sheet as model;
ghost use Rattle.model.specs.Range.{Admitted};
ghost use Rattle.formula.specs.Clause.{T, Add, least, spread, fields};
ghost use Rattle.formula.specs.Numbering.{number};
ghost use Rattle.formula.specs.Count as count;
ghost use Rattle.literals.specs.Name.{line_of};
ghost use Rattle.sums.specs.Lines.{step_lines, bound_lines, constraint_lines};

use codes::{Sign, sum_code};
use literals::{longer, shorter};
use numbering::magnitude;
use size_line::{ENDING, literal_size, literals_size};

// How far a sum with length d of a field is above the least, by the field's coefficient and limit.
fn rise(c: i8, limit: usize, d: usize) -> usize
    requires { (nat_abs c ≤ 4) × (limit ≤ 8) × (d ≤ limit) }
    ensures { (result ≡ count.rise c limit d) × (result ≤ 32) }
{
    let factor = magnitude(c);
    if c < 0 {
        return factor * limit - factor * d;
    }
    factor * d
}

// Field k with length d, added to each of n sums under constraint r: `here` is the code of the first sum, `next` that of the least one that follows.
fn length_size(
    sheet: &[u8],
    r: usize,
    k: usize,
    d: usize,
    here: usize,
    next: usize,
    n: usize,
) -> usize
    requires { Admitted sheet.now × (r < length (sheet_of sheet.now).constraints) × (k < fields (sheet_of sheet.now)) × (d ≤ model.limit (sheet_of sheet.now) k) × (here ≡ 2 * number (sheet_of sheet.now) (T r k (least (sheet_of sheet.now) (constraint (sheet_of sheet.now) r) k))) × (next ≡ 2 * number (sheet_of sheet.now) (T r (suc k) (least (sheet_of sheet.now) (constraint (sheet_of sheet.now) r) (suc k)))) × (n ≡ suc (spread (sheet_of sheet.now) (constraint (sheet_of sheet.now) r) k)) }
    ensures { (result ≡ total n (λ m. length (line_of (sheet_of sheet.now) (Add r k (least (sheet_of sheet.now) (constraint (sheet_of sheet.now) r) k +ℤ pos m) d)))) × (result ≤ 6000) }
{
    let limit = shape::limit(sheet, k);
    let above = rise(parts::coefficient(sheet, r, k), limit, d);
    let short = literal_size(shorter(sheet, k, d));
    let long = literal_size(longer(sheet, k, d));
    literals_size(here + 1, n) + n * (short + long + ENDING) + literals_size(next + 2 * above, n)
}

// Field k's step under constraint r.
fn step_size(sheet: &[u8], r: usize, k: usize) -> usize
    requires { Admitted sheet.now × (r < length (sheet_of sheet.now).constraints) × (k < fields (sheet_of sheet.now)) }
    ensures { (result ≡ length (step_lines (sheet_of sheet.now) r k)) × (result ≤ 60000) }
{
    let limit = shape::limit(sheet, k);
    let here = sum_code(sheet, r, k, numbering::least(sheet, r, k), Sign::Is);
    let next = sum_code(sheet, r, k + 1, numbering::least(sheet, r, k + 1), Sign::Is);
    let n = numbering::spread(sheet, r, k) + 1;
    let mut sum: usize = 0;
    for d in 0..limit + 1 {
        sum += length_size(sheet, r, k, d, here, next, n);
    }
    sum
}

// The steps of all fields under constraint r.
fn steps_size(sheet: &[u8], r: usize) -> usize
    requires { Admitted sheet.now × (r < length (sheet_of sheet.now).constraints) }
    ensures { (result ≡ length (each (up_to (fields (sheet_of sheet.now))) (step_lines (sheet_of sheet.now) r))) × (result ≤ 360000) }
{
    let fields = shape::fields(sheet);
    let mut sum: usize = 0;
    for k in 0..fields {
        sum += step_size(sheet, r, k);
    }
    sum
}

// The final sums above the limit of constraint r: the last ones.
fn bounds_size(sheet: &[u8], r: usize) -> usize
    requires { Admitted sheet.now × (r < length (sheet_of sheet.now).constraints) }
    ensures { (result ≡ length (bound_lines (sheet_of sheet.now) r)) × (result ≤ 2000) }
{
    let fields = shape::fields(sheet);
    let first = sum_code(
        sheet,
        r,
        fields,
        numbering::least(sheet, r, fields),
        Sign::Is,
    );
    let within = numbering::within(sheet, r);
    let over = numbering::spread(sheet, r, fields) + 1 - within;
    over * ENDING + literals_size(first + 2 * within + 1, over)
}

// Constraint r.
pub fn constraint_size(sheet: &[u8], r: usize) -> usize
    requires { Admitted sheet.now × (r < length (sheet_of sheet.now).constraints) }
    ensures { (result ≡ length (constraint_lines (sheet_of sheet.now) r)) × (result ≤ 400000) }
{
    let zero = literal_size(sum_code(sheet, r, 0, 0, Sign::Is)) + ENDING;
    zero + steps_size(sheet, r) + bounds_size(sheet, r)
}
