// Whether the text of a solver's reply lists an assignment. Nothing here knows of a sheet; the text's numbers are judged by the lent marks, one for
// each number from 0 on.
#![tactic(auto)]

ghost use Rattle.std.specs.Prelude.{◌≡◌, ◌<◌, ◌≤◌, length, replicate};
ghost use Rattle.calls.specs.Reply.{line_ended};
ghost use Rattle.listing.specs.Answer.{number_of, Form};

use tally::{LINE_END, UNLISTED};

// What a text is refused for, by document 01's numbers 31 to 36.
#[derive(Clone, Copy, Debug, PartialEq, Eq)]
pub enum Fault {
    End,
    Line,
    Status,
    Closing,
    Above,
    Twice,
}

// Document 01's number of a fault.
impl From<Fault> for u8 {
    ghost from_gives = { λ e r. r ≡ number_of e };

    fn from(fault: Fault) -> u8 {
        match fault {
            Fault::End => 31,
            Fault::Line => 32,
            Fault::Status => 33,
            Fault::Closing => 34,
            Fault::Above => 35,
            Fault::Twice => 36,
        }
    }
}

// Whether a text is empty or ends with a line end.
fn ended(text: &[u8]) -> bool
    ensures { result ≡ line_ended text.now }
{
    text.is_empty() || text[text.len() - 1] == LINE_END
}

// Reads a text of at most 65,536 bytes: whether it breaks none of document 01's 31 to 36, the variables being as many as there are marks but
// one, or the first of these. If none, a variable's mark is `tally::PLUS` just where the text makes it true.
pub fn read(marks: &mut [u8], text: &[u8]) -> Result<(), Fault>
    requires { (0 < length marks.old) × (marks.old ≡ replicate (length marks.old) 0) × (length text.now ≤ 65536) }
    ensures { Form (length marks.old) text.now result marks.new }
{
    if !ended(text) {
        return Err(Fault::End);
    }
    let Some(sum) = tally::read_lines(marks, text) else {
        return Err(Fault::Line);
    };
    if !sum.status || sum.again || sum.early {
        return Err(Fault::Status);
    }
    if sum.after || marks[0] == UNLISTED {
        return Err(Fault::Closing);
    }
    if sum.above {
        return Err(Fault::Above);
    }
    if sum.twice {
        return Err(Fault::Twice);
    }
    Ok(())
}
