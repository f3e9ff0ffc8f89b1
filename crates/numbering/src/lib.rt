// The variables of an accepted sheet's clauses: their numbers, and how many there are. All K come first, then S, then T. Of a constraint's sums also
// the least, how far they go, and how many its limit admits.
#![tactic(auto)]

ghost use Rattle.std.specs.Prelude.{◌≡◌, ◌+◌, ◌<◌, ◌≤◌, length, nat_abs};
ghost use Rattle.model.specs.Lists.{total};
ghost use Rattle.model.specs.Sheet.{sheet_of, constraint};
ghost use Rattle.model.specs.Range.{Admitted};
ghost use Rattle.formula.specs.Clause.{K, S, T};
ghost use Rattle.formula.specs.Clause as model;
ghost use Rattle.formula.specs.Numbering.{VariableIn, row_size, variable_count, number};
ghost use Rattle.formula.specs.Count.{parts, variable_counts};
ghost use Rattle.formula.specs.Count as count;
ghost use Rattle.shape.specs.Name.{section_of};

use shape::Section;

// The least product of a coefficient and a length up to n. The length is cast, since no `From` takes a usize to an i16.
fn lowest(c: i8, n: usize) -> i16
    requires { (nat_abs c ≤ 4) × (n ≤ 8) }
    ensures { result ≡ model.lowest c n }
{
    if c < 0 { i16::from(c) * (n as i16) } else { 0 }
}

// A coefficient without its sign.
pub fn magnitude(c: i8) -> usize
    requires { nat_abs c ≤ 4 }
    ensures { result ≡ nat_abs c }
{
    usize::from(c.unsigned_abs())
}

// The least sum of the first k fields under constraint r.
pub fn least(sheet: &[u8], r: usize, k: usize) -> i16
    requires { Admitted sheet.now × (r < length (sheet_of sheet.now).constraints) × (k ≤ length (sheet_of sheet.now).limits) }
    ensures { result ≡ model.least (sheet_of sheet.now) (constraint (sheet_of sheet.now) r) k }
{
    let mut sum = 0;
    for f in 0..k {
        sum += lowest(parts::coefficient(sheet, r, f), shape::limit(sheet, f));
    }
    sum
}

// How far the greatest of these sums is above the least.
pub fn spread(sheet: &[u8], r: usize, k: usize) -> usize
    requires { Admitted sheet.now × (r < length (sheet_of sheet.now).constraints) × (k ≤ length (sheet_of sheet.now).limits) }
    ensures { (result ≡ model.spread (sheet_of sheet.now) (constraint (sheet_of sheet.now) r) k) × (result ≤ 192) }
{
    let mut sum = 0;
    for f in 0..k {
        sum += magnitude(parts::coefficient(sheet, r, f)) * shape::limit(sheet, f);
    }
    sum
}

// Of the sums that all fields may have under constraint r, those that are at most its limit.
pub fn within(sheet: &[u8], r: usize) -> usize
    requires { Admitted sheet.now × (r < length (sheet_of sheet.now).constraints) }
    ensures { (result ≡ count.within (sheet_of sheet.now) (constraint (sheet_of sheet.now) r)) × (result ≤ 193) }
{
    let fields = shape::fields(sheet);
    let sums = spread(sheet, r, fields) + 1;
    let least = least(sheet, r, fields);
    let most = parts::most(sheet, r);
    if most < least {
        0
    } else {
        sums.min(usize::from(most.abs_diff(least)) + 1)
    }
}

// The variables T of constraint r with fewer than k fields summed.
fn sums_before(sheet: &[u8], r: usize, k: usize) -> usize
    requires { Admitted sheet.now × (r < length (sheet_of sheet.now).constraints) × (k ≤ length (sheet_of sheet.now).limits + 1) }
    ensures { (result ≡ total k (row_size (sheet_of sheet.now) r)) × (result ≤ 679) }
{
    let mut sum = 0;
    for i in 0..k {
        sum += spread(sheet, r, i) + 1;
    }
    sum
}

// The variables of part i of a section: K of a field, S of an equation, T of a constraint.
fn part_size(sheet: &[u8], section: Section, i: usize) -> usize
    requires { Admitted sheet.now × (i < parts (sheet_of sheet.now) (section_of section)) }
    ensures { result ≡ variable_counts (sheet_of sheet.now) (section_of section) i }
{
    match section {
        Section::Fields => shape::limit(sheet, i) * (shape::letters(sheet) + 1),
        Section::Equations => { (shape::width(sheet, i, 0) + 1) * (shape::width(sheet, i, 1) + 1) }
        Section::Constraints => sums_before(sheet, i, shape::fields(sheet) + 1),
    }
}

// The variables of the first n parts of a section.
fn parts_before(sheet: &[u8], section: Section, n: usize) -> usize
    requires { Admitted sheet.now × (n ≤ parts (sheet_of sheet.now) (section_of section)) }
    ensures { (result ≡ total n (variable_counts (sheet_of sheet.now) (section_of section))) × (result ≤ 2716) }
{
    let mut sum = 0;
    for i in 0..n {
        sum += part_size(sheet, section, i);
    }
    sum
}

// The variables of a whole section.
fn whole(sheet: &[u8], section: Section) -> usize
    requires { Admitted sheet.now }
    ensures { (result ≡ total (parts (sheet_of sheet.now) (section_of section)) (variable_counts (sheet_of sheet.now) (section_of section))) × (result ≤ 2716) }
{
    parts_before(sheet, section, shape::parts(sheet, section))
}

// How many variables there are.
pub fn variable_count(sheet: &[u8]) -> usize
    requires { Admitted sheet.now }
    ensures { (result ≡ variable_count (sheet_of sheet.now)) × (result ≤ 5648) }
{
    whole(sheet, Section::Fields)
        + whole(sheet, Section::Equations)
        + whole(sheet, Section::Constraints)
}

// The number of K(f,c,a).
pub fn place_number(sheet: &[u8], f: usize, c: usize, a: usize) -> usize
    requires { Admitted sheet.now × VariableIn (sheet_of sheet.now) (K f c a) }
    ensures { (result ≡ number (sheet_of sheet.now) (K f c a)) × (result ≤ 5648) }
{
    1 + parts_before(sheet, Section::Fields, f) + c * (shape::letters(sheet) + 1) + a
}

// The number of S(p,i,j).
pub fn location_number(sheet: &[u8], p: usize, i: usize, j: usize) -> usize
    requires { Admitted sheet.now × VariableIn (sheet_of sheet.now) (S p i j) }
    ensures { (result ≡ number (sheet_of sheet.now) (S p i j)) × (result ≤ 5648) }
{
    1 + whole(sheet, Section::Fields)
        + parts_before(sheet, Section::Equations, p)
        + i * (shape::width(sheet, p, 1) + 1)
        + j
}

// The number of T(r,k,s): the sums that the first k fields may have are counted from the least.
pub fn sum_number(sheet: &[u8], r: usize, k: usize, s: i16) -> usize
    requires { Admitted sheet.now × VariableIn (sheet_of sheet.now) (T r k s) }
    ensures { (result ≡ number (sheet_of sheet.now) (T r k s)) × (result ≤ 5648) }
{
    let offset = usize::from(s.abs_diff(least(sheet, r, k)));
    1 + whole(sheet, Section::Fields)
        + whole(sheet, Section::Equations)
        + parts_before(sheet, Section::Constraints, r)
        + sums_before(sheet, r, k)
        + offset
}
