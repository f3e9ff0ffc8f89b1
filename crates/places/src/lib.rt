// What marks say of the fields' places: which values are true at each, and the substitution that they spell.
#![tactic(auto)]

ghost use Rattle.std.specs.Prelude.{◌≡◌, true, false, map, ℕ, ◌<◌, ◌≤◌, eqb, length};
ghost use Rattle.model.specs.Lists.{all, up_to};
ghost use Rattle.model.specs.Sheet.{sheet_of};
ghost use Rattle.model.specs.Sheet as model;
ghost use Rattle.formula.specs.Clause.{blank};
ghost use Rattle.formula.specs.Assignment.{truth, true_values, up_to_blank};
ghost use Rattle.formula.specs.Assignment as assignment;
ghost use Rattle.calls.specs.Reply.{all_single, blanks_last, none_after_blank};
ghost use Rattle.fields.specs.Memory.{text_of, Whole, meaning, Held};
ghost use Rattle.places.specs.Marked.{Marked};

use fields::{EMPTY, FIELDS, Field, PAST, PLACES, Substitution};

// How many values are true at a place, and the least of them; where none is, blank.
#[derive(Clone, Copy)]
struct Truths {
    count: usize,
    least: usize,
}

// The values at place c of field f.
fn values(sheet: &[u8], marks: &[u8], f: usize, c: usize) -> Truths
    requires { Marked sheet.now marks.now × (f < length (sheet_of sheet.now).limits) × (c < model.limit (sheet_of sheet.now) f) }
    ensures { (result.count ≡ length (true_values (sheet_of sheet.now) (truth marks.now) f c)) × (result.least ≡ assignment.held (sheet_of sheet.now) (truth marks.now) f c) × (result.least ≤ blank (sheet_of sheet.now)) }
{
    let blank = shape::letters(sheet);
    let first = numbering::place_number(sheet, f, c, 0);
    let mut count: usize = 0;
    let mut least = blank;
    for a in (0..blank + 1).rev() {
        if marks[first + a] == tally::PLUS {
            count += 1;
            least = a;
        }
    }
    Truths { count, least }
}

// Whether all of n pass.
fn every<F: Fn(usize) -> bool>(n: usize, passes: F) -> bool
    requires { (i : ℕ) → i < n → F.pre passes i }
    ensures all { result ≡ true → (i : ℕ) → i < n → F.post passes i true }
    ensures fails { result ≡ false → (i : ℕ) × (i < n) × F.post passes i false }
{
    for i in 0..n {
        if !passes(i) {
            return false;
        }
    }
    true
}

// Whether every place of field f has just one true value.
fn single(sheet: &[u8], marks: &[u8], f: usize) -> bool
    requires { Marked sheet.now marks.now × (f < length (sheet_of sheet.now).limits) }
    ensures { result ≡ all (λ c. eqb (length (true_values (sheet_of sheet.now) (truth marks.now) f c)) 1) (up_to (model.limit (sheet_of sheet.now) f)) }
{
    every(
        shape::limit(sheet, f),
        |c| values(sheet, marks, f, c).count == 1,
    )
}

// Whether no letter stands after a blank in field f.
fn blanks_last(sheet: &[u8], marks: &[u8], f: usize) -> bool
    requires { Marked sheet.now marks.now × (f < length (sheet_of sheet.now).limits) }
    ensures { result ≡ blanks_last (blank (sheet_of sheet.now)) (map (assignment.held (sheet_of sheet.now) (truth marks.now) f) (up_to (model.limit (sheet_of sheet.now) f))) }
{
    let blank = shape::letters(sheet);
    let limit = shape::limit(sheet, f);
    let mut ended = false;
    for c in 0..limit {
        let here = values(sheet, marks, f, c).least;
        if here == blank {
            ended = true;
        } else if ended {
            return false;
        }
    }
    true
}

// Whether every place of every field, used in a template or not, has just one true value (document 01's 37).
pub fn all_single(sheet: &[u8], marks: &[u8]) -> bool
    requires { Marked sheet.now marks.now }
    ensures { result ≡ all_single (sheet_of sheet.now) (truth marks.now) }
{
    every(shape::fields(sheet), |f| single(sheet, marks, f))
}

// Whether no letter stands after a blank in any field, used in a template or not (document 01's 38).
pub fn none_after_blank(sheet: &[u8], marks: &[u8]) -> bool
    requires { Marked sheet.now marks.now }
    ensures { result ≡ none_after_blank (sheet_of sheet.now) (truth marks.now) }
{
    every(shape::fields(sheet), |f| blanks_last(sheet, marks, f))
}

// The text of field f: up to the first blank or the limit, what its places hold.
fn field_text(sheet: &[u8], marks: &[u8], f: usize) -> Field
    requires { Marked sheet.now marks.now × (f < length (sheet_of sheet.now).limits) }
    ensures { Whole result × (text_of result ≡ up_to_blank (blank (sheet_of sheet.now)) (assignment.held (sheet_of sheet.now) (truth marks.now) f) 0 (model.limit (sheet_of sheet.now) f)) }
{
    let blank = shape::letters(sheet);
    let limit = shape::limit(sheet, f);
    let mut letters = [PAST; PLACES];
    for c in 0..limit {
        let here = values(sheet, marks, f, c).least;
        if here == blank {
            return Field {
                letters,
                len: c as u8,
            };
        }
        letters[c] = here as u8;
    }
    Field {
        letters,
        len: limit as u8,
    }
}

// The substitution that the marks spell.
pub fn spelled(sheet: &[u8], marks: &[u8]) -> Substitution
    requires { Marked sheet.now marks.now }
    ensures { Held sheet.now result × (meaning sheet.now result ≡ assignment.spelled (sheet_of sheet.now) (truth marks.now)) }
{
    let fields = shape::fields(sheet);
    let mut g = [EMPTY; FIELDS];
    for f in 0..fields {
        g[f] = field_text(sheet, marks, f);
    }
    g
}
