// A clause by its name, its literals as codes (twice the variable's number, and one more for its negation; 0 for none), and its line.
#![tactic(auto)]

ghost use Rattle.std.specs.Prelude.{◌≡◌, ◌+◌, ◌-◌, ◌*◌, ◌<◌, ◌≤◌, ltb, length, pos, ◌+ℤ◌, ◌*ℤ◌};
ghost use Rattle.model.specs.Lists.{Puts};
ghost use Rattle.model.specs.Sheet.{sheet_of, limit, constraint, coefficient};
ghost use Rattle.model.specs.Range.{Admitted};
ghost use Rattle.formula.specs.Clause.{K, yes, no, only, blank};
ghost use Rattle.formula.specs.Clause as model;
ghost use Rattle.formula.specs.Numbering.{PlaceIn};
ghost use Rattle.formula.specs.Count.{IdIn};
ghost use Rattle.dimacs.specs.Codes.{term_code};
ghost use Rattle.codes.specs.Nine.{nine};
ghost use Rattle.literals.specs.Name.{name_of, line_of};

use codes::{MOST_LITERALS, Sign, location_code, place_code, sum_code};

// The name of a clause: of a place of a field; of an equation, or a location of it; of a constraint. The sums of Add and Bound are signed.
#[derive(Clone, Copy)]
pub enum ClauseId {
    SomeValue(usize, usize),
    NotBoth(usize, usize, usize, usize),
    BlankTail(usize, usize),
    Start(usize),
    Left(usize, usize, usize),
    Right(usize, usize, usize),
    Both(usize, usize, usize),
    Match(usize, usize, usize, usize),
    End(usize, usize, usize),
    Zero(usize),
    Add(usize, usize, i16, usize),
    Bound(usize, i16),
}

// Every value of a place.
fn some_value(sheet: &[u8], f: usize, c: usize) -> [usize; MOST_LITERALS]
    requires { Admitted sheet.now × PlaceIn (sheet_of sheet.now) f c }
    ensures { result ≡ nine (sheet_of sheet.now) (model.SomeValue f c) }
{
    let first = numbering::place_number(sheet, f, c, 0);
    let letters = shape::letters(sheet);
    let mut codes = [0; MOST_LITERALS];
    for a in 0..letters + 1 {
        codes[a] = 2 * (first + a);
    }
    codes
}

// Not two values at once.
fn not_both(sheet: &[u8], f: usize, c: usize, a: usize, b: usize) -> [usize; MOST_LITERALS]
    requires { Admitted sheet.now × IdIn (sheet_of sheet.now) (model.NotBoth f c a b) }
    ensures { result ≡ nine (sheet_of sheet.now) (model.NotBoth f c a b) }
{
    let x = place_code(sheet, f, c, a, Sign::IsNot);
    let y = place_code(sheet, f, c, b, Sign::IsNot);
    [x, y, 0, 0, 0, 0, 0, 0, 0]
}

// A blank is followed by a blank.
fn blank_tail(sheet: &[u8], f: usize, c: usize) -> [usize; MOST_LITERALS]
    requires { Admitted sheet.now × IdIn (sheet_of sheet.now) (model.BlankTail f c) }
    ensures { result ≡ nine (sheet_of sheet.now) (model.BlankTail f c) }
{
    let letters = shape::letters(sheet);
    let here = place_code(sheet, f, c, letters, Sign::IsNot);
    let next = place_code(sheet, f, c + 1, letters, Sign::Is);
    [here, next, 0, 0, 0, 0, 0, 0, 0]
}

// The first location is reached.
fn start(sheet: &[u8], p: usize) -> [usize; MOST_LITERALS]
    requires { Admitted sheet.now × IdIn (sheet_of sheet.now) (model.Start p) }
    ensures { result ≡ nine (sheet_of sheet.now) (model.Start p) }
{
    [
        location_code(sheet, p, 0, 0, Sign::Is),
        0,
        0,
        0,
        0,
        0,
        0,
        0,
        0,
    ]
}

// The sum of no fields is 0.
fn zero(sheet: &[u8], r: usize) -> [usize; MOST_LITERALS]
    requires { Admitted sheet.now × IdIn (sheet_of sheet.now) (model.Zero r) }
    ensures { result ≡ nine (sheet_of sheet.now) (model.Zero r) }
{
    [sum_code(sheet, r, 0, 0, Sign::Is), 0, 0, 0, 0, 0, 0, 0, 0]
}

// A sum with field k of length d added. The length is cast, since no `From` takes a usize to an i16.
fn sum_with(sheet: &[u8], r: usize, k: usize, n: i16, d: usize) -> i16
    requires { Admitted sheet.now × IdIn (sheet_of sheet.now) (model.Add r k n d) }
    ensures { result ≡ n +ℤ coefficient (constraint (sheet_of sheet.now) r) k *ℤ pos d }
{
    n + i16::from(parts::coefficient(sheet, r, k)) * (d as i16)
}

// Place d - 1 of field k is blank, so that the field is shorter than d: no literal where d is 0.
pub fn shorter(sheet: &[u8], k: usize, d: usize) -> usize
    requires { Admitted sheet.now × (k < length (sheet_of sheet.now).limits) × (d ≤ limit (sheet_of sheet.now) k) }
    ensures { result ≡ term_code (sheet_of sheet.now) (only (ltb 0 d) (yes (K k (d - 1) (blank (sheet_of sheet.now))))) }
{
    if d == 0 {
        0
    } else {
        place_code(sheet, k, d - 1, shape::letters(sheet), Sign::Is)
    }
}

// Place d of field k is not blank, so that the field is longer than d: no literal where d is its limit.
pub fn longer(sheet: &[u8], k: usize, d: usize) -> usize
    requires { Admitted sheet.now × (k < length (sheet_of sheet.now).limits) }
    ensures { result ≡ term_code (sheet_of sheet.now) (only (ltb d (limit (sheet_of sheet.now) k)) (no (K k d (blank (sheet_of sheet.now))))) }
{
    if d < shape::limit(sheet, k) {
        place_code(sheet, k, d, shape::letters(sheet), Sign::IsNot)
    } else {
        0
    }
}

// One field more in a sum: unless field k has another length than d.
fn add(sheet: &[u8], r: usize, k: usize, n: i16, d: usize) -> [usize; MOST_LITERALS]
    requires { Admitted sheet.now × IdIn (sheet_of sheet.now) (model.Add r k n d) }
    ensures { result ≡ nine (sheet_of sheet.now) (model.Add r k n d) }
{
    let here = sum_code(sheet, r, k, n, Sign::IsNot);
    let short = shorter(sheet, k, d);
    let long = longer(sheet, k, d);
    let next = sum_code(sheet, r, k + 1, sum_with(sheet, r, k, n, d), Sign::Is);
    [here, short, long, next, 0, 0, 0, 0, 0]
}

// A final sum above the limit is not reached.
fn bound(sheet: &[u8], r: usize, n: i16) -> [usize; MOST_LITERALS]
    requires { Admitted sheet.now × IdIn (sheet_of sheet.now) (model.Bound r n) }
    ensures { result ≡ nine (sheet_of sheet.now) (model.Bound r n) }
{
    let last = sum_code(sheet, r, shape::fields(sheet), n, Sign::IsNot);
    [last, 0, 0, 0, 0, 0, 0, 0, 0]
}

// The literals of a clause.
pub fn codes(sheet: &[u8], id: ClauseId) -> [usize; MOST_LITERALS]
    requires { Admitted sheet.now × IdIn (sheet_of sheet.now) (name_of id) }
    ensures { result ≡ nine (sheet_of sheet.now) (name_of id) }
{
    match id {
        ClauseId::SomeValue(f, c) => some_value(sheet, f, c),
        ClauseId::NotBoth(f, c, a, b) => not_both(sheet, f, c, a, b),
        ClauseId::BlankTail(f, c) => blank_tail(sheet, f, c),
        ClauseId::Start(p) => start(sheet, p),
        ClauseId::Left(p, i, j) => moves::left(sheet, p, i, j),
        ClauseId::Right(p, i, j) => moves::right(sheet, p, i, j),
        ClauseId::Both(p, i, j) => moves::both(sheet, p, i, j),
        ClauseId::Match(p, i, j, a) => moves::matching(sheet, p, i, j, a),
        ClauseId::End(p, i, j) => moves::end(sheet, p, i, j),
        ClauseId::Zero(r) => zero(sheet, r),
        ClauseId::Add(r, k, n, d) => add(sheet, r, k, n, d),
        ClauseId::Bound(r, n) => bound(sheet, r, n),
    }
}

// The line of a clause, at an offset of the buffer. Returns the offset past it.
pub fn put_clause(buf: &mut [u8], at: usize, sheet: &[u8], id: ClauseId) -> usize
    requires { Admitted sheet.now × IdIn (sheet_of sheet.now) (name_of id) × (at + length (line_of (sheet_of sheet.now) (name_of id)) ≤ length buf.old) }
    ensures { Puts buf.old at (line_of (sheet_of sheet.now) (name_of id)) buf.new result }
{
    dimacs::clause_line(buf, at, &codes(sheet, id))
}
