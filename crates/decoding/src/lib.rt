// A solver's reply, read without trusting it: what it says of the fields' places, and the substitution that is handed over if it solves the sheet.
#![tactic(auto)]

ghost use Rattle.std.specs.Prelude.{◌≡◌, ◌*◌, ◌≤◌, length, replicate};
ghost use Rattle.model.specs.Sheet.{sheet_of};
ghost use Rattle.formula.specs.Numbering.{variables};
ghost use Rattle.formula.specs.Assignment.{truth};
ghost use Rattle.calls.specs.Reply.{assigned};
ghost use Rattle.calls.specs.Calls.{formed, replying, HandsOver};
ghost use Rattle.calls.specs.Calls as model;
ghost use Rattle.places.specs.Marked.{Marked};
ghost use Rattle.decoding.specs.declared.Refusal.TheVariants.{Sheet, Text};
ghost use Rattle.decoding.specs.Answer.{number_of, replied};

use fields::FIELD_BYTES;

// The most bytes of a text, and the most marks: of 0 and of each variable.
const MOST_REPLY: usize = 65536;

const MOST_MARKS: usize = 5649;

// What reading a reply refuses, by document 01's numbers: what reading a sheet refuses, 27, 30, 31 to 36 of the text, and 37 to 39.
#[derive(Clone, Copy, Debug, PartialEq, Eq)]
pub enum Refusal {
    Sheet(sheet::Refusal),
    Room,
    Long,
    Text(listing::Fault),
    Place,
    Blank,
    NoClash,
}

impl From<sheet::Refusal> for Refusal {
    ghost from_gives = { λ e r. r ≡ Sheet e };

    fn from(refusal: sheet::Refusal) -> Refusal {
        Refusal::Sheet(refusal)
    }
}

impl From<listing::Fault> for Refusal {
    ghost from_gives = { λ e r. r ≡ Text e };

    fn from(fault: listing::Fault) -> Refusal {
        Refusal::Text(fault)
    }
}

// Document 01's number of a refusal.
impl From<Refusal> for u8 {
    ghost from_gives = { λ e r. r ≡ number_of e };

    fn from(refusal: Refusal) -> u8 {
        match refusal {
            Refusal::Sheet(found) => u8::from(found),
            Refusal::Room => 27,
            Refusal::Long => 30,
            Refusal::Text(fault) => u8::from(fault),
            Refusal::Place => 37,
            Refusal::Blank => 38,
            Refusal::NoClash => 39,
        }
    }
}

// Hands over what the marks spell, if it solves the sheet.
fn hand_over(sheet: &[u8], marks: &[u8], buf: &mut [u8]) -> Result<(), Refusal>
    requires { Marked sheet.now marks.now × (9 * length (sheet_of sheet.now).limits ≤ length buf.old) }
    ensures { HandsOver (model.decoding (sheet_of sheet.now) (truth marks.now)) buf.old (replied result) buf.new }
{
    if !places::all_single(sheet, marks) {
        return Err(Refusal::Place);
    }
    if !places::none_after_blank(sheet, marks) {
        return Err(Refusal::Blank);
    }
    let g = places::spelled(sheet, marks);
    if !judge::solves(sheet, g) {
        return Err(Refusal::NoClash);
    }
    fields::store(buf, g, shape::fields(sheet));
    Ok(())
}

// Reads a text of an accepted sheet, the lent marks being one for 0 and for each variable, and hands over what it spells.
fn read_text(sheet: &[u8], text: &[u8], marks: &mut [u8], buf: &mut [u8]) -> Result<(), Refusal>
    requires { Marked sheet.now marks.old × (marks.old ≡ replicate (length marks.old) 0) × (length text.now ≤ 65536) × (9 * length (sheet_of sheet.now).limits ≤ length buf.old) }
    ensures { HandsOver (formed (length (variables (sheet_of sheet.now))) text.now (model.decoding (sheet_of sheet.now) (assigned text.now))) buf.old (replied result) buf.new }
{
    listing::read(marks, text)?;
    hand_over(sheet, marks, buf)
}

// Reads a solver's reply to the clause file of a sheet: if it lists an assignment that spells a filling that clashes, that filling fills the
// buffer's first 9 bytes for each field. Else the first refusal in document 01's order. Any bytes are allowed. Bytes after the filling, and
// on a refusal all, are as they were.
pub fn read_reply(sheet: &[u8], text: &[u8], buf: &mut [u8]) -> Result<(), Refusal>
    ensures { HandsOver (replying sheet.now text.now (length buf.old)) buf.old (replied result) buf.new }
{
    sheet::read(sheet)?;
    if buf.len() < FIELD_BYTES * shape::fields(sheet) {
        return Err(Refusal::Room);
    }
    if text.len() > MOST_REPLY {
        return Err(Refusal::Long);
    }
    // No heap: room for the most marks.
    let mut marks = [0u8; MOST_MARKS];
    let n = numbering::variable_count(sheet) + 1;
    read_text(sheet, text, &mut marks[..n], buf)
}
