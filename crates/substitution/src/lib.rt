// What a sheet asks of a substitution: whether it solves the sheet, and what a template spells under it.
#![tactic(auto)]

ghost use Rattle.std.specs.Prelude.{◌≡◌, ◌<◌, length};
ghost use Rattle.model.specs.Sheet.{Accepted, sheet_of};
ghost use Rattle.model.specs.Filling.{filling};
ghost use Rattle.model.specs.Mismatch.{judged};
ghost use Rattle.calls.specs.Calls.{finished, of_filling, judgement_values, checking, spelling, spelling_of, Writes};
ghost use Rattle.substitution.specs.declared.Refusal.TheVariants.{Sheet, Filling};
ghost use Rattle.substitution.specs.Answer.{number_of, checked, spelled};

use judge::Judgement;
pub use judge::solves;
use scan::WIDEST;

// What checking and spelling refuse, by document 01's numbers: what reading refuses, 20 to 23 of a filling, and 24 to 26.
#[derive(Clone, Copy, Debug, PartialEq, Eq)]
pub enum Refusal {
    Sheet(sheet::Refusal),
    Filling(fields::Fault),
    Equation,
    Side,
    Room,
}

impl From<sheet::Refusal> for Refusal {
    ghost from_gives = { λ e r. r ≡ Sheet e };

    fn from(refusal: sheet::Refusal) -> Refusal {
        Refusal::Sheet(refusal)
    }
}

impl From<fields::Fault> for Refusal {
    ghost from_gives = { λ e r. r ≡ Filling e };

    fn from(fault: fields::Fault) -> Refusal {
        Refusal::Filling(fault)
    }
}

// Document 01's number of a refusal.
impl From<Refusal> for u8 {
    ghost from_gives = { λ e r. r ≡ number_of e };

    fn from(refusal: Refusal) -> u8 {
        match refusal {
            Refusal::Sheet(found) => u8::from(found),
            Refusal::Filling(fault) => u8::from(fault),
            Refusal::Equation => 24,
            Refusal::Side => 25,
            Refusal::Room => 26,
        }
    }
}

// Checks a filling of an accepted sheet.
fn check_filling(sheet: &[u8], bytes: &[u8]) -> Result<Judgement, Refusal>
    requires { Accepted sheet.now }
    ensures { checked result ≡ of_filling (filling (sheet_of sheet.now) bytes.now) (λ g. finished (judgement_values (judged (sheet_of sheet.now) g))) }
{
    fields::admit(sheet, bytes)?;
    let g = fields::load(sheet, bytes);
    Ok(judge::judge(sheet, g))
}

// Checks a filling (document 01: clash, or no clash): whether it solves the sheet, and if not, the first cause; or the first refusal in document 01's order.
// Any bytes are allowed.
pub fn check(sheet: &[u8], bytes: &[u8]) -> Result<Judgement, Refusal>
    ensures { checked result ≡ checking sheet.now bytes.now }
{
    sheet::read(sheet)?;
    check_filling(sheet, bytes)
}

// Spells a template of an accepted sheet: one side of an equation that it has.
fn spell_filling(
    sheet: &[u8],
    equation: usize,
    side: usize,
    bytes: &[u8],
    buf: &mut [u8],
) -> Result<usize, Refusal>
    requires { Accepted sheet.now × (equation < length (sheet_of sheet.now).equations) }
    ensures { Writes (spelling_of (sheet_of sheet.now) equation side bytes.now (length buf.old)) buf.old (spelled result) buf.new }
{
    fields::admit(sheet, bytes)?;
    let g = fields::load(sheet, bytes);
    let mut word = [0u8; WIDEST];
    let n = words::spell(&mut word, parts::template(sheet, equation, side), g);
    if buf.len() < n {
        return Err(Refusal::Room);
    }
    Ok(words::put_letters(buf, 0, sheet, &word[..n]))
}

// Spells the left (0) or right (1) template of an equation into the buffer, as the sheet's letter bytes: the text's length, or the first
// refusal in document 01's order. Any bytes and numbers are allowed. Bytes after the text, and on a refusal all, are as they were.
pub fn spell(
    sheet: &[u8],
    equation: usize,
    side: usize,
    bytes: &[u8],
    buf: &mut [u8],
) -> Result<usize, Refusal>
    ensures { Writes (spelling sheet.now equation side bytes.now (length buf.old)) buf.old (spelled result) buf.new }
{
    sheet::read(sheet)?;
    if equation >= usize::from(parts::four_counts(sheet).equations) {
        return Err(Refusal::Equation);
    }
    if side > 1 {
        return Err(Refusal::Side);
    }
    spell_filling(sheet, equation, side, bytes, buf)
}
