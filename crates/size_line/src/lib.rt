// How many bytes a line of the clause file has, by the codes of its literals, and several lines at once: nothing is written, and nothing here knows of sheets.
#![tactic(auto)]

ghost use Rattle.std.specs.Prelude.{◌≡◌, ◌+◌, ◌*◌, ◌<◌, ◌≤◌, length};
ghost use Rattle.model.specs.Lists.{each, up_to, total};
ghost use Rattle.formula.specs.Dimacs.{decimal, problem_line};
ghost use Rattle.dimacs.specs.Codes.{code_size, large_code};
ghost use Rattle.matching.specs.Codes.{unlike_line, match_line};
ghost use Rattle.size_line.specs.Figures.{reached};

// How many bytes end a line: a nought and the line end.
pub const ENDING: usize = 2;

// How many figures a number has.
pub fn figures(n: usize) -> usize
    requires { n < 100000 }
    ensures { (result ≡ length (decimal n)) × (result ≤ 5) }
{
    match n {
        0..=9 => 1,
        10..=99 => 2,
        100..=999 => 3,
        1000..=9999 => 4,
        _ => 5,
    }
}

// How many of the n numbers from `first` on are at least `power`.
fn reaching(power: usize, first: usize, n: usize) -> usize
    ensures { (result ≡ reached power first n) × (result ≤ n) }
{
    n.saturating_sub(power.saturating_sub(first))
}

// How many figures the n numbers from `first` on have together: one each, and one more for each power of ten that a number reaches.
fn figures_from(first: usize, n: usize) -> usize
    requires { first + n ≤ 100000 }
    ensures { (result ≡ total n (λ k. length (decimal (first + k)))) × (result ≤ 5 * n) }
{
    n + reaching(10, first, n)
        + reaching(100, first, n)
        + reaching(1000, first, n)
        + reaching(10000, first, n)
}

// A literal by its code: a minus where it has one, its figures, and the space after it; of code 0 nothing.
pub fn literal_size(code: usize) -> usize
    requires { code < 200000 }
    ensures { (result ≡ code_size code) × (result ≤ 7) }
{
    if code == 0 {
        return 0;
    }
    code % 2 + figures(code / 2) + 1
}

// Literals of n variables in a row, all with the same sign: of code `first`, and of codes that go up by two.
pub fn literals_size(first: usize, n: usize) -> usize
    requires { (0 < first) × (first + 2 * n ≤ 200000) }
    ensures { (result ≡ total n (λ k. code_size (first + 2 * k))) × (result ≤ 7 * n) }
{
    n * (first % 2 + 1) + figures_from(first / 2, n)
}

// How many bytes the lines have that `matching::put_unlike` writes: in each is the negation of what has code `here`, and one of n literals in a row.
pub fn unlike_size(here: usize, x: usize, first: usize, n: usize) -> usize
    requires { (here ≤ large_code) × (x ≤ large_code) × (first + n ≤ 9) }
    ensures { (result ≡ length (each (up_to n) (unlike_line here x first))) × (result ≤ 16 * n) }
{
    n * (literal_size(here + 1) + ENDING) + literals_size(x + 2 * first + 1, n)
}

// Those that `matching::put_matches` writes: in each are the negation of what has code `here`, y's blank, one of x's letters and one of y's.
pub fn matches_size(l: usize, here: usize, x: usize, y: usize) -> usize
    requires { (l ≤ 8) × (here ≤ large_code) × (x ≤ large_code) × (y ≤ large_code) × (0 < y) }
    ensures { (result ≡ length (each (up_to l) (match_line l here x y))) × (result ≤ 30 * l) }
{
    l * (literal_size(here + 1) + literal_size(y + 2 * l) + ENDING)
        + literals_size(x + 1, l)
        + literals_size(y, l)
}

// The first line of a clause file: `p cnf`, the two counts, a space before each, and the line end.
pub fn problem_size(variables: usize, clauses: usize) -> usize
    requires { (variables < 100000) × (clauses < 100000) }
    ensures { (result ≡ length (problem_line variables clauses)) × (result ≤ 18) }
{
    6 + figures(variables) + 1 + figures(clauses) + 1
}
