// The walk of the equation automaton in a box of lengths: the two sides of an equation are made the same as far as all lengths of the box agree on what
// stands there. In a box of one vector that is to their ends.
//
// A box has all lengths from lo to hi. A place (f, c) holds a letter or a name where every length of the box reaches it (c below lo); 254 where some
// do (it is open whether there is a place); 255 where none does (c from hi on).
#![tactic(auto)]

ghost use Rattle.std.specs.Prelude.{◌≡◌, ◌<◌, ◌≤◌, length, get_or};
ghost use Rattle.walk.specs.Walk.{Cells, Skipped, may_end, alike_of, waits_of, walk_on};
ghost use Rattle.walk.specs.Renew.{renew_place, renew_field, renew_of};

use fields::{Field, Lengths, PAST, Substitution};
use shape::{FIRST_PLACE, PLACES};

// What an open place holds.
pub const OPEN: u8 = 254;

// How far a walk came: the cells passed on either side, and the substitution there.
#[derive(Clone, Copy)]
pub struct Walked {
    pub left: usize,
    pub right: usize,
    pub substitution: Substitution,
}

// The first cell from there on that is not blank, or the end. (A `for`, and no `position`, since it begins at an index and answers one.)
fn skip(a: &[u8], from: usize, g: Substitution) -> usize
    requires { Cells a.now × (from ≤ length a.now) }
    ensures { Skipped g a.now from result }
{
    for i in from..a.len() {
        if unification::value(g, a[i]) != PAST {
            return i;
        }
    }
    a.len()
}

// Whether nothing may be left of a side from cell i on: it is used up, or begins with an open place.
fn may_end(a: &[u8], i: usize, g: Substitution) -> bool
    requires { Cells a.now }
    ensures { result ≡ may_end a.now i g }
{
    i >= a.len() || unification::value(g, a[i]) == OPEN
}

// Whether cells x and y, which hold u and v, are passed as they stand: it is the same cell, or they hold the same letter or name.
fn alike(x: u8, y: u8, u: u8, v: u8) -> bool
    ensures { result ≡ alike_of x y u v }
{
    x == y || (u != OPEN && u == v)
}

// Whether one of two values is open.
fn waits(u: u8, v: u8) -> bool
    ensures { result ≡ waits_of u v }
{
    u == OPEN || v == OPEN
}

// From cell left0 of a and cell right0 of b: blanks are passed over (document 01's B and C); the same cell on both sides is passed whatever it holds; the
// walk stops at an open place; a side that is used up before a letter fails (F); else what the cells hold is made the same (E) and passed (D), or fails
// where it is two letters that differ. Where it fails, no lengths of the box make the sides the same, and the error is how far it came.
// It calls itself on the next location, a form that document 01 names.
pub fn walk_on(
    a: &[u8],
    b: &[u8],
    left0: usize,
    right0: usize,
    g: Substitution,
) -> Result<Walked, Walked>
    requires { Cells a.now × Cells b.now × (left0 ≤ length a.now) × (right0 ≤ length b.now) }
    ensures { result ≡ walk_on a.now b.now left0 right0 g }
{
    let left = skip(a, left0, g);
    let right = skip(b, right0, g);
    let here = Walked {
        left,
        right,
        substitution: g,
    };
    if left == a.len() {
        return if may_end(b, right, g) {
            Ok(here)
        } else {
            Err(here)
        };
    }
    if right == b.len() {
        return if may_end(a, left, g) {
            Ok(here)
        } else {
            Err(here)
        };
    }
    let x = a[left];
    let y = b[right];
    let u = unification::value(g, x);
    let v = unification::value(g, y);
    let p = left + 1;
    let q = right + 1;
    if alike(x, y, u, v) {
        return walk_on(a, b, p, q, g);
    }
    if waits(u, v) {
        return Ok(here);
    }
    let Ok(h) = unification::unify(g, u, v) else {
        return Err(here);
    };
    walk_on(a, b, p, q, h)
}

// What place c of field f, whose places in an outer box are t, holds in a box whose lengths of the field are from lo to hi.
fn renewed(t: Field, f: u8, c: u8, lo: u8, hi: u8) -> u8
    requires { (f < 6) × (c < 8) }
    ensures { result ≡ renew_place f lo hi t c }
{
    let x = t.letters[usize::from(c)];
    if hi <= c {
        PAST
    } else if x != OPEN {
        x
    } else if c < lo {
        FIRST_PLACE + PLACES * f + c
    } else {
        OPEN
    }
}

// Field f, which is t in an outer box, in the box from lo to hi. (Place by place, as fields are below: a loop would need values that it overwrites.)
fn renew_field(t: Field, f: u8, lo: Lengths, hi: Lengths) -> Field
    requires { f < 6 }
    ensures { result ≡ renew_field f (get_or lo f 0) (get_or hi f 0) t }
{
    let least = lo[usize::from(f)];
    let most = hi[usize::from(f)];
    Field {
        letters: [
            renewed(t, f, 0, least, most),
            renewed(t, f, 1, least, most),
            renewed(t, f, 2, least, most),
            renewed(t, f, 3, least, most),
            renewed(t, f, 4, least, most),
            renewed(t, f, 5, least, most),
            renewed(t, f, 6, least, most),
            renewed(t, f, 7, least, most),
        ],
        len: least,
    }
}

// A substitution of an outer box as one of the box from lo to hi: past the greatest length there is no place, and below the least one an open place gets
// its own name.
pub fn renew(g: Substitution, lo: Lengths, hi: Lengths) -> Substitution
    ensures { result ≡ renew_of g lo hi }
{
    [
        renew_field(g[0], 0, lo, hi),
        renew_field(g[1], 1, lo, hi),
        renew_field(g[2], 2, lo, hi),
        renew_field(g[3], 3, lo, hi),
        renew_field(g[4], 4, lo, hi),
        renew_field(g[5], 5, lo, hi),
    ]
}
