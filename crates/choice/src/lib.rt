// Which field parts a box of lengths. It is one whose length is open; that is all that is promised. Which one decides how fast the search is: best is a field
// at which the equation that failed last stands, or else one whose open fields are used the fewest times; then one at which many walks stand. It is made
// without `bounds`, so a box comes as lo and hi.
#![tactic(auto)]

ghost use Rattle.std.specs.Prelude.{ℕ, ◌<◌, ◌≤◌, get_or, IfSome};
ghost use Rattle.choice.specs.Chosen.{Chosen, Open};

use fields::{FIELDS, Lengths};
use trails::Board;

// How many equations there can be, and above how many points no more are added.
const EQUATIONS: usize = 4;

const ENOUGH: u8 = 200;

// How often each equation has each field.
pub type Uses = [[u8; FIELDS]; EQUATIONS];

// What speaks for each field: how often walks stand at it, and whether it is near: an equation of the least distance stands at it.
#[derive(Clone, Copy)]
struct Choice {
    fewest: usize,
    near: [bool; FIELDS],
    score: [u8; FIELDS],
}

// A small number more, as long as there is room.
fn added(n: u8, points: u8) -> u8
    requires { points < 8 }
{
    if n < ENOUGH { n + points } else { n }
}

// How often the cells from o to e are the byte b, as far as it bears on the choice: a `count` would not stop at ENOUGH.
fn used(x: &[u8], o: usize, e: usize, b: u8) -> u8 {
    let mut n = 0;
    for i in o..e.min(x.len()) {
        if x[i] == b {
            n = added(n, 1);
        }
    }
    n
}

// The uses of the equations whose cells are in x, and whose widths are in w.
pub fn uses(x: &[u8], w: &[u8]) -> Uses {
    let mut uses = [[0; FIELDS]; EQUATIONS];
    let mut o = 0;
    // widths by index: there may be more than those of four equations
    for q in 0..EQUATIONS.min(w.len() / 2) {
        let e = o + usize::from(w[2 * q]) + usize::from(w[2 * q + 1]);
        for f in 0..FIELDS {
            uses[q][f] = used(x, o, e, 8 * (f as u8) + 8);
        }
        o = e;
    }
    uses
}

// The field of cell i of a side that starts at o and has n cells, if it is open whether there is such a place.
fn held(x: &[u8], o: usize, i: u8, n: u8, lo: Lengths, hi: Lengths) -> Option<usize>
    requires { o < 4096 }
    ensures { IfSome result (λ f. f < 6) }
{
    if n <= i {
        return None;
    }
    let cell = *x.get(o + usize::from(i))?;
    let f = usize::from(cell / 8).checked_sub(1)?;
    if f < FIELDS && (lo[f]..hi[f]).contains(&(cell % 8)) {
        Some(f)
    } else {
        None
    }
}

// The distance of an equation: how often it uses open fields.
fn open_uses(uses: [u8; FIELDS], lo: Lengths, hi: Lengths) -> usize {
    let mut sum = 0;
    for f in 0..FIELDS {
        if lo[f] < hi[f] {
            sum += usize::from(uses[f]);
        }
    }
    sum
}

impl Choice {
    // Whether an equation of distance n is as near as any before it. Where it is nearer, no field is near any more.
    fn approach(&mut self, n: usize) -> bool {
        if n < self.fewest {
            self.fewest = n;
            self.near = [false; FIELDS];
        }
        n == self.fewest
    }

    // An equation, near or not, stands at field f.
    fn mark(&mut self, f: usize, near: bool, points: u8)
        requires { (f < 6) × (points < 8) }
    {
        self.score[f] = added(self.score[f], points);
        if near {
            self.near[f] = true;
        }
    }

    // An equation of distance n stands at these fields, where they are open. Where it stands at one alone, that counts for more.
    fn note(&mut self, left: Option<usize>, right: Option<usize>, n: usize)
        requires { IfSome left (λ f. f < 6) × IfSome right (λ f. f < 6) }
    {
        match (left, right) {
            (Some(f), Some(h)) => {
                let near = self.approach(n);
                self.mark(f, near, 2);
                self.mark(h, near, 2);
            }
            (Some(f), None) | (None, Some(f)) => {
                let near = self.approach(n);
                self.mark(f, near, 3);
            }
            (None, None) => {}
        }
    }

    // What a trail, which stands at these cells, says. The equation that failed last has no distance.
    fn rate(
        &mut self,
        x: &[u8],
        w: &[u8],
        uses: Uses,
        at: [u8; 8],
        lo: Lengths,
        hi: Lengths,
        last: u8,
    ) {
        let mut o = 0;
        for q in 0..EQUATIONS.min(w.len() / 2) {
            let m = o + usize::from(w[2 * q]);
            let left = held(x, o, at[2 * q], w[2 * q], lo, hi);
            let right = held(x, m, at[2 * q + 1], w[2 * q + 1], lo, hi);
            let distance = if q == usize::from(last) {
                0
            } else {
                open_uses(uses[q], lo, hi)
            };
            self.note(left, right, distance);
            o = m + usize::from(w[2 * q + 1]);
        }
    }

    // How much speaks for field f: nothing, where no walk stands at it or its length is not open.
    fn worth(self, f: usize, lo: u8, hi: u8) -> usize
        requires { f < 6 }
        ensures { hi ≤ lo → result ≤ 0 }
    {
        if self.score[f] == 0 || hi <= lo {
            return 0;
        }
        let points = 16 * usize::from(self.score[f]) + 256 - usize::from(hi - lo);
        if self.near[f] { points + 1000 } else { points }
    }

    // The field for which most speaks.
    fn best(self, lo: Lengths, hi: Lengths) -> Option<usize>
        ensures { IfSome result (Open lo hi) }
    {
        let mut best = None;
        let mut top = 0;
        for f in 0..FIELDS {
            let points = self.worth(f, lo[f], hi[f]);
            if top < points {
                top = points;
                best = Some(f);
            }
        }
        best
    }
}

// The first field with an open length.
fn open_field(lo: Lengths, hi: Lengths) -> Option<usize>
    requires { (f : ℕ) → f < 6 → get_or lo f 0 ≤ get_or hi f 0 }
    ensures { Chosen lo hi result }
{
    for f in 0..FIELDS {
        if lo[f] < hi[f] {
            return Some(f);
        }
    }
    None
}

// The field that parts the box from lo to hi, whose walks stand where the board tells; None where all lengths are settled. x has the cells of the equations, y
// those of the equations reversed, w their widths, and `last` is the equation that failed last.
pub fn choose(
    x: &[u8],
    y: &[u8],
    w: &[u8],
    uses: Uses,
    b: Board,
    lo: Lengths,
    hi: Lengths,
    last: u8,
) -> Option<usize>
    requires { (f : ℕ) → f < 6 → get_or lo f 0 ≤ get_or hi f 0 }
    ensures { Chosen lo hi result }
{
    let mut choice = Choice {
        fewest: 4096,
        near: [true; FIELDS],
        score: [0; FIELDS],
    };
    choice.rate(x, w, uses, b.ahead.at, lo, hi, last);
    choice.rate(y, w, uses, b.behind.at, lo, hi, last);
    match choice.best(lo, hi) {
        Some(f) => Some(f),
        None => open_field(lo, hi),
    }
}
