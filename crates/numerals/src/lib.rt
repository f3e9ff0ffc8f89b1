// The numbers of a solver's reply: one piece of a v line. Knows nothing of lines.
#![tactic(auto)]

ghost use Rattle.std.specs.Prelude.{◌≡◌, Some, None};
ghost use Rattle.model.specs.Lists.{pick};
ghost use Rattle.formula.specs.Dimacs.{value_of};
ghost use Rattle.calls.specs.Reply.{magnitude};
ghost use Rattle.numerals.specs.Said.{Said};

// A number of a v line: 0 or more, or with a minus.
#[derive(Clone, Copy, Debug, PartialEq, Eq)]
pub enum Number {
    Plus(usize),
    Minus(usize),
}

// The value of 1 to 9 digits, the first not 0; of other bytes none.
fn value(digits: &[u8]) -> Option<usize>
    ensures { result ≡ pick (magnitude digits.now) (Some (value_of digits.now)) None }
{
    let n = digits.len();
    if n == 0 || n > 9 || digits[0] == b'0' {
        return None;
    }
    let mut sum: usize = 0;
    for &x in digits {
        if !x.is_ascii_digit() {
            return None;
        }
        sum = sum * 10 + usize::from(x - b'0');
    }
    Some(sum)
}

// The number that a piece of a v line says, if it is one.
pub fn read_number(piece: &[u8]) -> Option<Number>
    ensures { Said piece.now result }
{
    if piece.is_empty() {
        return None;
    }
    if piece[0] == b'-' {
        let n = value(&piece[1..])?;
        return Some(Number::Minus(n));
    }
    if piece[0] == b'0' && piece.len() == 1 {
        return Some(Number::Plus(0));
    }
    let n = value(piece)?;
    Some(Number::Plus(n))
}
