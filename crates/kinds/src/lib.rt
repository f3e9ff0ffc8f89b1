// Of which kind a location of an equation is, by what stands on its two sides, and how many clauses each kind has: document 02's No. 2. A row of locations
// is counted from how many of each kind it has.
#![tactic(auto)]

ghost use Rattle.std.specs.Prelude.{◌≡◌, ℕ, ◌+◌, ◌*◌, ◌<◌, ◌≤◌, get_or};
ghost use Rattle.formula.specs.Kind.{used, at_letter, at_field, kind, kind_count};
ghost use Rattle.formula.specs.Count.{location_count};
ghost use Rattle.shape.specs.Bytes.{side_of};
ghost use Rattle.kinds.specs.Name.{kind_of, stands};
ghost use Rattle.kinds.specs.Census.{as_this, Few, Added, Counted, AllCells, row_of};

use shape::{FIRST_PLACE, ROOM, USED};

// The kinds, in the request's order.
#[derive(Clone, Copy)]
pub enum Kind {
    SameLetterTwice,
    DifferentLetters,
    LetterThenField,
    FieldThenLetter,
    TwoFields,
    UsedUpBeforeLetter,
    UsedUpBeforeField,
    BothUsedUp,
}

// How many clauses a location of a kind has; l is the number of letters.
pub fn kind_count(l: usize, kind: Kind) -> usize
    requires { l ≤ 8 }
    ensures { (result ≡ kind_count l (kind_of kind)) × (result ≤ 11) }
{
    match kind {
        Kind::SameLetterTwice => 1,
        Kind::DifferentLetters => 2,
        Kind::LetterThenField => 3,
        Kind::FieldThenLetter => l + 1,
        Kind::TwoFields => l + 3,
        Kind::UsedUpBeforeLetter => 1,
        Kind::UsedUpBeforeField => 2,
        Kind::BothUsedUp => 0,
    }
}

// What stands on one side of a location: nothing, a letter, or a place.
#[derive(Clone, Copy)]
pub enum Side {
    Used,
    Letter(u8),
    Place,
}

// What a byte of a side says.
pub fn side_of(cell: u8) -> Side
    ensures { stands result ≡ side_of cell }
{
    if cell == USED {
        Side::Used
    } else if cell < FIRST_PLACE {
        Side::Letter(cell)
    } else {
        Side::Place
    }
}

// The kind of a location with u on the left and v on the right.
pub fn kind_at(u: u8, v: u8) -> Kind
    ensures { kind_of result ≡ kind (side_of u) (side_of v) }
{
    match (side_of(u), side_of(v)) {
        (Side::Letter(a), Side::Letter(b)) if a == b => Kind::SameLetterTwice,
        (Side::Letter(_), Side::Letter(_)) => Kind::DifferentLetters,
        (Side::Letter(_), Side::Place) => Kind::LetterThenField,
        (Side::Place, Side::Letter(_)) => Kind::FieldThenLetter,
        (Side::Place, Side::Place) => Kind::TwoFields,
        (Side::Used, Side::Letter(_)) | (Side::Letter(_), Side::Used) => Kind::UsedUpBeforeLetter,
        (Side::Used, Side::Place) | (Side::Place, Side::Used) => Kind::UsedUpBeforeField,
        (Side::Used, Side::Used) => Kind::BothUsedUp,
    }
}

// How many clauses such a location has.
pub fn location_count(l: usize, u: u8, v: u8) -> usize
    requires { l ≤ 8 }
    ensures { result ≡ location_count l (side_of u) (side_of v) }
{
    kind_count(l, kind_at(u, v))
}

// How many different letters there can be.
const LETTERS: usize = 8;

// What stands on the right of an equation: how many letters, how many places, how many clauses the letters have together where a place is on the left, and
// how often each letter stands there. The third is added up letter by letter, so that letters may come to differ in it.
#[derive(Clone, Copy)]
pub struct Census {
    pub letters: usize,
    pub places: usize,
    pub own: usize,
    pub times: [usize; LETTERS],
}

impl Census {
    // One cell more.
    fn add(&mut self, l: usize, cell: u8)
        requires { (l ≤ 8) × (cell ≡ 255 → ⊥) × Few self.old × (self.old.letters < 24) × (self.old.places < 24) }
        ensures { Added l (side_of cell) self.old self.new }
    {
        if cell < FIRST_PLACE {
            self.letters += 1;
            self.own += kind_count(l, Kind::FieldThenLetter);
            self.times[usize::from(cell)] += 1;
        } else {
            self.places += 1;
        }
    }
}

// The census of the first n cells.
pub fn census_of(l: usize, right: [u8; ROOM], n: usize) -> Census
    requires { (l ≤ 8) × (n ≤ 24) × AllCells right n }
    ensures { Counted l right n result }
{
    let mut sum = Census {
        letters: 0,
        places: 0,
        own: 0,
        times: [0; LETTERS],
    };
    for j in 0..n {
        sum.add(l, right[j]);
    }
    sum
}

// The clauses of n locations of one kind.
fn several(n: usize, l: usize, kind: Kind) -> usize
    requires { (n ≤ 24) × (l ≤ 8) }
    ensures { (result ≡ n * kind_count l (kind_of kind)) × (result ≤ n * 11) }
{
    n * kind_count(l, kind)
}

// The clauses of a row of locations with the left template used up: one location for each cell of the census, and the last, where the right one is used up.
fn past_row(l: usize, right: Census) -> usize
    requires { (l ≤ 8) × Few right }
    ensures { (result ≡ row_of l used right) × (result ≤ 275) }
{
    several(right.letters, l, Kind::UsedUpBeforeLetter)
        + several(right.places, l, Kind::UsedUpBeforeField)
        + several(1, l, Kind::BothUsedUp)
}

// The same with letter a on the left.
fn letter_row(l: usize, a: u8, right: Census) -> usize
    requires { (l ≤ 8) × (a < 8) × Few right }
    ensures { (result ≡ row_of l (at_letter a) right) × (result ≤ 275) }
{
    let same = right.times[usize::from(a)];
    several(same, l, Kind::SameLetterTwice)
        + several(right.letters - same, l, Kind::DifferentLetters)
        + several(right.places, l, Kind::LetterThenField)
        + several(1, l, Kind::UsedUpBeforeLetter)
}

// The same with a place on the left.
fn open_row(l: usize, right: Census) -> usize
    requires { (l ≤ 8) × Few right }
    ensures { (result ≡ row_of l at_field right) × (result ≤ 275) }
{
    right.own + several(right.places, l, Kind::TwoFields) + several(1, l, Kind::UsedUpBeforeField)
}

// The clauses of a row of locations with u on the left.
pub fn row_count(l: usize, u: u8, right: Census) -> usize
    requires { (l ≤ 8) × Few right }
    ensures { (result ≡ row_of l (side_of u) right) × (result ≤ 275) }
{
    match side_of(u) {
        Side::Used => past_row(l, right),
        Side::Letter(a) => letter_row(l, a, right),
        Side::Place => open_row(l, right),
    }
}
