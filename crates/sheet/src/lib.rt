// Reads a sheet: its four counts, or the first refusal in document 01's order. It knows nothing of what a sheet means.
#![tactic(auto)]

ghost use Rattle.std.specs.Prelude.{◌≡◌, ◌≤◌, length, drop};
ghost use Rattle.calls.specs.Calls.{reading_of, reading};
ghost use Rattle.model.specs.Sheet.{ended, opening};
ghost use Rattle.model.specs.Sheet as model;
ghost use Rattle.rows.specs.Progress as rows;
ghost use Rattle.sheet.specs.Answer.{number_of, answer, opening_of, IsAdmitted};
ghost use Rattle.parts.specs.Counts.{counts_of};

use parts::Counts;
use rows::Fault;
use scan::{
    CONSTRAINT_COUNT, EQUATION_COUNT, FIELD_COUNT, HEADER, LETTER_COUNT, VERSION_HIGH, VERSION_LOW,
};
use sections::walked;

// What reading refuses a sheet for, by document 01's numbers from 1 to 15.
#[derive(Clone, Copy, Debug, PartialEq, Eq)]
pub enum Refusal {
    Short,
    Mark,
    Version,
    LetterCount,
    FieldCount,
    EquationCount,
    ConstraintCount,
    Missing,
    LeftOver,
    Letter,
    Limit,
    SymbolCount,
    Symbol,
    Width,
    Coefficient,
}

// Document 01's number of a refusal.
impl From<Refusal> for u8 {
    ghost from_gives = { λ refusal r. r ≡ number_of refusal };

    fn from(refusal: Refusal) -> u8 {
        match refusal {
            Refusal::Short => 1,
            Refusal::Mark => 2,
            Refusal::Version => 3,
            Refusal::LetterCount => 4,
            Refusal::FieldCount => 5,
            Refusal::EquationCount => 6,
            Refusal::ConstraintCount => 7,
            Refusal::Missing => 8,
            Refusal::LeftOver => 9,
            Refusal::Letter => 10,
            Refusal::Limit => 11,
            Refusal::SymbolCount => 12,
            Refusal::Symbol => 13,
            Refusal::Width => 14,
            Refusal::Coefficient => 15,
        }
    }
}

// No accepted sheet has more than 159 bytes, and the first 160 decide how one is read.
pub const ENOUGH: usize = 160;

const VERSION: u16 = 1;

const MOST_LETTERS: u8 = 8;

const MOST_FIELDS: u8 = 6;

const MOST_EQUATIONS: u8 = 4;

const MOST_CONSTRAINTS: u8 = 4;

// The header alone: its four counts, or the first of the refusals 1 to 7.
fn header(sheet: &[u8]) -> Result<Counts, Refusal>
    ensures { opening_of sheet.now result ≡ opening sheet.now }
{
    if sheet.len() < HEADER {
        return Err(Refusal::Short);
    }
    if !sheet.starts_with(b"TPL") {
        return Err(Refusal::Mark);
    }
    if u16::from_be_bytes([sheet[VERSION_HIGH], sheet[VERSION_LOW]]) != VERSION {
        return Err(Refusal::Version);
    }
    if !(1..=MOST_LETTERS).contains(&sheet[LETTER_COUNT]) {
        return Err(Refusal::LetterCount);
    }
    if !(0..=MOST_FIELDS).contains(&sheet[FIELD_COUNT]) {
        return Err(Refusal::FieldCount);
    }
    if !(1..=MOST_EQUATIONS).contains(&sheet[EQUATION_COUNT]) {
        return Err(Refusal::EquationCount);
    }
    if !(0..=MOST_CONSTRAINTS).contains(&sheet[CONSTRAINT_COUNT]) {
        return Err(Refusal::ConstraintCount);
    }
    Ok(Counts {
        letters: sheet[LETTER_COUNT],
        fields: sheet[FIELD_COUNT],
        equations: sheet[EQUATION_COUNT],
        constraints: sheet[CONSTRAINT_COUNT],
    })
}

// The refusal of a fault of the walk.
impl From<Fault> for Refusal {
    ghost from_gives = { λ fault r. number_of r ≡ rows.number_of fault };

    fn from(fault: Fault) -> Refusal {
        match fault {
            Fault::Missing => Refusal::Missing,
            Fault::Letter => Refusal::Letter,
            Fault::Limit => Refusal::Limit,
            Fault::SymbolCount => Refusal::SymbolCount,
            Fault::Symbol => Refusal::Symbol,
            Fault::Width => Refusal::Width,
            Fault::Coefficient => Refusal::Coefficient,
        }
    }
}

// What is left to read after a header that passes: the walk, and that it ends where the sheet does.
fn body(sheet: &[u8], counts: Counts) -> Result<Counts, Refusal>
    requires { 9 ≤ length sheet.now }
    ensures { answer result ≡ reading_of (ended (model.walk (counts_of counts) (drop 9 sheet.now))) }
{
    let end = walked(
        sheet,
        counts.letters,
        counts.fields,
        counts.equations,
        counts.constraints,
    )?;
    if end < sheet.len() {
        return Err(Refusal::LeftOver);
    }
    Ok(counts)
}

// Reads a sheet: the four counts of an accepted one, or the first refusal in document 01's order. Any bytes are allowed.
// The second clause says nothing more of the answer: it hands callers what acceptance means.
pub fn read(sheet: &[u8]) -> Result<Counts, Refusal>
    ensures result_value { answer result ≡ reading sheet.now }
    ensures admitted { IsAdmitted sheet.now result }
{
    let counts = header(sheet)?;
    body(sheet, counts)
}
