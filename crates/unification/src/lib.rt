// A substitution whose letters are found by unification, and what a template's cells hold under it.
//
// A place holds a letter (below 8); a name (8 + 8 × f + c), which stands for every place that must hold the same letter while that letter is
// not known; 254, where it is open whether there is such a place (see `walk`); or 255, past its field's length. A cell is a letter, or the name of
// a place, as in `shape`.
#![tactic(auto)]

ghost use Rattle.std.specs.Prelude.{◌≡◌, ℕ, ◌<◌};
ghost use Rattle.unification.specs.Names.{repl, settle, map_field, app, Computes, value_of, unify_of};

use fields::{FIELDS, Field, PAST, PLACES, Substitution};
use shape::FIRST_PLACE;

// A name that is left takes letter 0.
fn settled(x: u8) -> u8
    ensures { result ≡ settle x }
{
    if x < FIRST_PLACE {
        x
    } else if x == PAST {
        PAST
    } else {
        0
    }
}

// A renaming of the places of one field. (A `for`, and no `map` of the array, which would go through an iterator that holds it.)
fn rename_field<F: Fn(u8) -> u8 + Copy>(t: Field, by: F) -> Field
    requires { F.IsAlwaysCallable by }
    ensures { (s : ℕ → ℕ) → Computes (F.post by) s → result ≡ map_field s t }
{
    let mut letters = t.letters;
    for c in 0..PLACES {
        letters[c] = by(t.letters[c]);
    }
    Field {
        letters,
        len: t.len,
    }
}

// A renaming of all places: what `by` computes is applied to each.
fn rename<F: Fn(u8) -> u8 + Copy>(g: Substitution, by: F) -> Substitution
    requires { F.IsAlwaysCallable by }
    ensures { (s : ℕ → ℕ) → Computes (F.post by) s → result ≡ app s g }
{
    let mut h = g;
    for f in 0..FIELDS {
        h[f] = rename_field(g[f], by);
    }
    h
}

// Name u becomes v, another name or a letter.
pub fn replace(g: Substitution, u: u8, v: u8) -> Substitution
    ensures { result ≡ app (repl u v) g }
{
    rename(g, |x| if x == u { v } else { x })
}

// Every name that is left becomes the lowest letter.
pub fn settle(g: Substitution) -> Substitution
    ensures { result ≡ app settle g }
{
    rename(g, settled)
}

// What a cell holds: its letter, or what stands at its place.
pub fn value(g: Substitution, u: u8) -> u8
    requires { u < 56 }
    ensures { result ≡ value_of g u }
{
    if u < FIRST_PLACE {
        return u;
    }
    let at = u - FIRST_PLACE;
    g[usize::from(at / shape::PLACES)].letters[usize::from(at % shape::PLACES)]
}

// Makes the values u and v, letters or names, the same in the most general way; or fails, and gives g back, where they are two letters that differ.
pub fn unify(g: Substitution, u: u8, v: u8) -> Result<Substitution, Substitution>
    ensures { result ≡ unify_of g u v }
{
    if u == v {
        Ok(g)
    } else if u >= FIRST_PLACE {
        Ok(replace(g, u, v))
    } else if v >= FIRST_PLACE {
        Ok(replace(g, v, u))
    } else {
        Err(g)
    }
}
