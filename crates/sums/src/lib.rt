// The lines of a constraint's clauses in the clause file, written into a lent buffer step by step. The codes of a step's first sums and of a field's
// first blank are worked out once, and those of its lines follow from them by adding. A function that writes returns the offset past what it has
// written.
#![tactic(auto)]

ghost use Rattle.std.specs.Prelude.{◌≡◌, ℕ, suc, ◌+◌, ◌-◌, ◌*◌, ◌<◌, ◌≤◌, ltb, pos, nat_abs, ◌+ℤ◌, ◌-ℤ◌, ◌*ℤ◌, length};
ghost use Rattle.model.specs.Lists.{pick, each, up_to, Puts};
ghost use Rattle.model.specs.Sheet.{sheet_of};
ghost use Rattle.model.specs.Sheet as model;
ghost use Rattle.model.specs.Range.{Admitted};
ghost use Rattle.formula.specs.Clause.{K, fields, blank};
ghost use Rattle.formula.specs.Numbering.{number};
ghost use Rattle.dimacs.specs.Codes.{most_code, large_code};
ghost use Rattle.sums.specs.Lines.{step_lines, bound_lines, constraint_lines};
ghost use Rattle.sums.specs.Codes.{add_line, Added};

use codes::{Sign, sum_code};
use dimacs::clause_line;
use literals::{ClauseId, put_clause};

// The code of K(k,0,L), from which those of the other blanks of field k follow; 0 where there is none.
fn first_blank(sheet: &[u8], k: usize) -> usize
    requires { Admitted sheet.now × (k < fields (sheet_of sheet.now)) }
    ensures { ((0 < model.limit (sheet_of sheet.now) k → result ≡ 2 * number (sheet_of sheet.now) (K k 0 (blank (sheet_of sheet.now))))) × (result ≤ most_code) }
{
    if shape::limit(sheet, k) == 0 {
        return 0;
    }
    2 * numbering::place_number(sheet, k, 0, shape::letters(sheet))
}

// Place d - 1 of a field is blank, by the code of the first blank and how far apart they are: no literal where d is 0.
fn shorter(first: usize, stride: usize, d: usize) -> usize
    requires { (first ≤ most_code) × (stride ≤ 18) × (d ≤ 8) }
    ensures { result ≡ pick (ltb 0 d) (first + stride * (d - 1)) 0 }
{
    if d == 0 {
        return 0;
    }
    first + stride * (d - 1)
}

// Place d of a field is not blank: no literal where d is its limit.
fn longer(first: usize, stride: usize, limit: usize, d: usize) -> usize
    requires { (first ≤ most_code) × (stride ≤ 18) × (d ≤ 8) }
    ensures { result ≡ pick (ltb d limit) (first + stride * d + 1) 0 }
{
    if d >= limit {
        return 0;
    }
    first + stride * d + 1
}

// The code of the sum n with coefficient c and length d added, by the least such sum and its code.
fn next_code(first: usize, low: i16, c: i8, n: i16, d: usize) -> usize
    requires { Added first low c n d }
    ensures { result ≡ first + 2 * nat_abs (n +ℤ c *ℤ pos d -ℤ low) }
{
    first + 2 * usize::from((n + i16::from(c) * (d as i16)).abs_diff(low))
}

// What the lines of a field's step have in common: the code of the field's first blank, how far apart its blanks are, its limit, the code of the least sum that
// follows, that sum, and the field's coefficient.
#[derive(Clone, Copy)]
struct Step {
    blank: usize,
    stride: usize,
    limit: usize,
    first: usize,
    low: i16,
    c: i8,
}

// A sum n of the fields before field k, for every length of it; `here` is the code of the sum's negation.
fn put_sum(buf: &mut [u8], at: usize, step: Step, here: usize, n: i16) -> usize
    requires { (here ≤ large_code) × (step.blank ≤ most_code) × (step.stride ≤ 18) × (step.limit ≤ 8) × ((d : ℕ) → d ≤ step.limit → Added step.first step.low step.c n d) × (at + length (each (up_to (suc step.limit)) (add_line here step.blank step.stride step.limit step.first step.low step.c n)) ≤ length buf.old) }
    ensures { Puts buf.old at (each (up_to (suc step.limit)) (add_line here step.blank step.stride step.limit step.first step.low step.c n)) buf.new result }
{
    let mut past = at;
    for d in 0..step.limit + 1 {
        let short = shorter(step.blank, step.stride, d);
        let long = longer(step.blank, step.stride, step.limit, d);
        let next = next_code(step.first, step.low, step.c, n, d);
        past = clause_line(buf, past, &[here, short, long, next]);
    }
    past
}

// Field k's step under constraint r.
fn put_step(buf: &mut [u8], at: usize, sheet: &[u8], r: usize, k: usize) -> usize
    requires { Admitted sheet.now × (r < length (sheet_of sheet.now).constraints) × (k < fields (sheet_of sheet.now)) × (at + length (step_lines (sheet_of sheet.now) r k) ≤ length buf.old) }
    ensures { Puts buf.old at (step_lines (sheet_of sheet.now) r k) buf.new result }
{
    let limit = shape::limit(sheet, k);
    let stride = 2 * (shape::letters(sheet) + 1);
    let blank = first_blank(sheet, k);
    let low = numbering::least(sheet, r, k);
    let here = sum_code(sheet, r, k, low, Sign::Is);
    let next = numbering::least(sheet, r, k + 1);
    let first = sum_code(sheet, r, k + 1, next, Sign::Is);
    let c = parts::coefficient(sheet, r, k);
    let last = numbering::spread(sheet, r, k);
    let step = Step {
        blank,
        stride,
        limit,
        first,
        low: next,
        c,
    };
    let mut past = at;
    for m in 0..last + 1 {
        past = put_sum(buf, past, step, here + 2 * m + 1, low + (m as i16));
    }
    past
}

// The steps of all fields under constraint r.
fn put_steps(buf: &mut [u8], at: usize, sheet: &[u8], r: usize) -> usize
    requires { Admitted sheet.now × (r < length (sheet_of sheet.now).constraints) × (at + length (each (up_to (fields (sheet_of sheet.now))) (step_lines (sheet_of sheet.now) r)) ≤ length buf.old) }
    ensures { Puts buf.old at (each (up_to (fields (sheet_of sheet.now))) (step_lines (sheet_of sheet.now) r)) buf.new result }
{
    let fields = shape::fields(sheet);
    let mut past = at;
    for k in 0..fields {
        past = put_step(buf, past, sheet, r, k);
    }
    past
}

// The final sums above the limit of constraint r: the last ones.
fn put_bounds(buf: &mut [u8], at: usize, sheet: &[u8], r: usize) -> usize
    requires { Admitted sheet.now × (r < length (sheet_of sheet.now).constraints) × (at + length (bound_lines (sheet_of sheet.now) r) ≤ length buf.old) }
    ensures { Puts buf.old at (bound_lines (sheet_of sheet.now) r) buf.new result }
{
    let fields = shape::fields(sheet);
    let first = sum_code(
        sheet,
        r,
        fields,
        numbering::least(sheet, r, fields),
        Sign::Is,
    );
    let within = numbering::within(sheet, r);
    let over = numbering::spread(sheet, r, fields) + 1 - within;
    let mut past = at;
    for n in 0..over {
        past = clause_line(buf, past, &[first + 2 * within + 1 + 2 * n]);
    }
    past
}

// Constraint r.
pub fn put_constraint(buf: &mut [u8], at: usize, sheet: &[u8], r: usize) -> usize
    requires { Admitted sheet.now × (r < length (sheet_of sheet.now).constraints) × (at + length (constraint_lines (sheet_of sheet.now) r) ≤ length buf.old) }
    ensures { Puts buf.old at (constraint_lines (sheet_of sheet.now) r) buf.new result }
{
    let zero = put_clause(buf, at, sheet, ClauseId::Zero(r));
    let steps = put_steps(buf, zero, sheet, r);
    put_bounds(buf, steps, sheet, r)
}
