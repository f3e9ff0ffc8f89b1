// The search in boxes of lengths. A box is every vector from `lo` to `hi`; its ranges are shortened by the rows and by the totals that are asked for, and its
// two trails are walked as far as they go. A box is cut where nothing is left of a range, or where a walk fails; a box of one vector is tried; any other is
// parted by the length of one field, which `choice` names.
#![tactic(auto)]

ghost use Rattle.std.specs.Prelude.{◌≡◌, ◌≤◌, length};
ghost use Rattle.walk.specs.Walk.{Cells};
ghost use Rattle.trails.specs.Equations.{equations, cell_total};
ghost use Rattle.trails.specs.Attempt.{answer_of};
ghost use Rattle.bounds.specs.Bounds.{sum_of, Some};
ghost use Rattle.trails.specs.Board.{Watches};
ghost use Rattle.boxes.specs.Vectors.{try_of};
ghost use Rattle.boxes.specs.Boxes.{Twins, Given, Shrinks, taken, Betters, Seeks};

use bounds::Ranges;
use choice::Uses;
use fields::{Lengths, Substitution};
use trails::Board;

// What is asked: x has the cells of the equations, y those of the equations reversed, and w their widths; rows are the inequalities, as many as `count`; and how
// often each equation uses each field.
#[derive(Clone, Copy)]
pub struct Problem<'a> {
    pub x: &'a [u8],
    pub y: &'a [u8],
    pub w: &'a [u8],
    pub rows: &'a [u16],
    pub count: usize,
    pub uses: Uses,
    pub ghost given: { Given x.now y.now w.now rows.now count },
}

// What is left of a box, with its trails.
#[derive(Clone, Copy)]
pub struct Left {
    pub ranges: Ranges,
    pub board: Board,
}

// The best answer so far, and the total below which answers are asked for.
#[derive(Clone, Copy)]
pub struct Best {
    pub found: Option<Substitution>,
    pub below: u16,
}

// The best answer after a box, and the equation that failed last: it is the next to look at.
#[derive(Clone, Copy)]
struct Searched {
    best: Best,
    last: u8,
}

// What is left of a box for totals from t to u, or the equation that failed last, where there is nothing. The ranges are the widest; how far the trails come
// is not promised, and bears on time alone.
fn shrink(p: &Problem<'_>, b: Board, ranges: Ranges, t: u16, u: u16, last: u8) -> Result<Left, u8>
    requires { Some ranges.lo ranges.hi × Twins (equations p.now.x.now p.now.w.now) (equations p.now.y.now p.now.w.now) ranges.lo ranges.hi × Watches (equations p.now.x.now p.now.w.now) (equations p.now.y.now p.now.w.now) ranges.lo ranges.hi b }
    ensures { Shrinks (equations p.now.x.now p.now.w.now) (equations p.now.y.now p.now.w.now) p.now.rows.now p.now.count ranges.lo ranges.hi t u result }
{
    let Some(left) = bounds::tighten_total(p.rows, p.count, ranges, t, u) else {
        return Err(last);
    };
    let board = trails::narrow(p.x, p.y, p.w, b, left.lo, left.hi)?;
    Ok(Left {
        ranges: left,
        board,
    })
}

// A box of one vector: an attempt there.
fn at_vector(p: &Problem<'_>, n: Lengths, best: Best, shortest: bool) -> Best
    ensures { result ≡ taken (answer_of (equations p.now.x.now p.now.w.now) n) (sum_of n) best shortest }
{
    let found = trails::attempt(p.x, p.w, n).ok();
    if found.is_none() {
        return best;
    }
    let total = bounds::sum(n);
    Best {
        found,
        below: if shortest { total } else { 0 },
    }
}

// The best answer of a box with a total of t or more, if it is better than the best so far. (A recursion, as a box has two parts.)
fn in_box(
    p: &Problem<'_>,
    b: Board,
    ranges: Ranges,
    t: u16,
    best: Best,
    shortest: bool,
    last: u8,
) -> Searched
    requires { Some ranges.lo ranges.hi × Twins (equations p.now.x.now p.now.w.now) (equations p.now.y.now p.now.w.now) ranges.lo ranges.hi × Watches (equations p.now.x.now p.now.w.now) (equations p.now.y.now p.now.w.now) ranges.lo ranges.hi b }
    ensures { Betters (try_of (equations p.now.x.now p.now.w.now) p.now.rows.now p.now.count) ranges.lo ranges.hi t shortest best result.best }
{
    if best.below <= t {
        return Searched { best, last };
    }
    let left = match shrink(p, b, ranges, t, best.below - 1, last) {
        Ok(left) => left,
        Err(last) => return Searched { best, last },
    };
    let board = left.board;
    let lo = left.ranges.lo;
    let hi = left.ranges.hi;
    let Some(k) = choice::choose(p.x, p.y, p.w, p.uses, board, lo, hi, last) else {
        return Searched {
            best: at_vector(p, lo, best, shortest),
            last,
        };
    };
    let mut least = hi;
    least[k] = lo[k];
    let mut others = lo;
    others[k] = lo[k] + 1;
    let first = in_box(p, board, Ranges { lo, hi: least }, t, best, shortest, last);
    let rest = Ranges { lo: others, hi };
    in_box(p, board, rest, t, first.best, shortest, first.last)
}

// The best answer of a total from t on and below u in a box of which nothing is known: of the least total, if the shortest is asked for.
pub fn seek(p: &Problem<'_>, ranges: Ranges, t: u16, u: u16, shortest: bool) -> Best
    requires { Some ranges.lo ranges.hi × Twins (equations p.now.x.now p.now.w.now) (equations p.now.y.now p.now.w.now) ranges.lo ranges.hi }
    ensures { Seeks (try_of (equations p.now.x.now p.now.w.now) p.now.rows.now p.now.count) ranges.lo ranges.hi t u shortest result }
{
    let start = Best {
        found: None,
        below: u,
    };
    let board = trails::open_board();
    in_box(p, board, ranges, t, start, shortest, trails::EQUATIONS).best
}
