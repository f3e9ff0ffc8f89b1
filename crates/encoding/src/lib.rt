// One line of a sheet's clause file, found by its number.
#![tactic(auto)]

ghost use Rattle.std.specs.Prelude.{◌≡◌, suc, ◌≤◌, length};
ghost use Rattle.model.specs.Lists.{Puts};
ghost use Rattle.model.specs.Sheet.{sheet_of};
ghost use Rattle.model.specs.Range.{Admitted};
ghost use Rattle.formula.specs.Dimacs.{line};
ghost use Rattle.calls.specs.Calls.{writing, Writes};
ghost use Rattle.encoding.specs.Answer.{number_of, lined};
ghost use Rattle.encoding.specs.Lines.{LineWritten};
ghost use Rattle.encoding.specs.declared.Refusal.TheVariants.{Sheet};

// What writing a line refuses, by document 01's numbers: what reading refuses, 28 and 29.
#[derive(Clone, Copy, Debug, PartialEq, Eq)]
pub enum Refusal {
    Sheet(sheet::Refusal),
    Line,
    Room,
}

impl From<sheet::Refusal> for Refusal {
    ghost from_gives = { λ found r. r ≡ Sheet found };

    fn from(found: sheet::Refusal) -> Refusal {
        Refusal::Sheet(found)
    }
}

// Document 01's number of a refusal.
impl From<Refusal> for u8 {
    ghost from_gives = { λ refusal r. r ≡ number_of refusal };

    fn from(refusal: Refusal) -> u8 {
        match refusal {
            Refusal::Sheet(found) => u8::from(found),
            Refusal::Line => 28,
            Refusal::Room => 29,
        }
    }
}

// Room for any line.
const LINE_ROOM: usize = 80;

// Line 0 of an accepted sheet's clause file, from the front of the buffer on. Returns its length.
fn put_first(buf: &mut [u8], sheet: &[u8]) -> usize
    requires { Admitted sheet.now × (80 ≤ length buf.old) }
    ensures { Puts buf.old 0 (line (sheet_of sheet.now) 0) buf.new result }
{
    let variables = numbering::variable_count(sheet);
    let clauses = counting::clause_count(sheet);
    dimacs::problem_line(buf, variables, clauses)
}

// The line of clause n, counted from 0: its length, if there is such a clause.
fn put_clause(buf: &mut [u8], sheet: &[u8], n: usize) -> Option<usize>
    requires { Admitted sheet.now × (80 ≤ length buf.old) }
    ensures { LineWritten (sheet_of sheet.now) (suc n) buf.old result buf.new }
{
    let id = finding::find(sheet, n).ok()?;
    Some(literals::put_clause(buf, 0, sheet, id))
}

// Line n: its length, if there is such a line.
fn put_line(buf: &mut [u8], sheet: &[u8], n: usize) -> Option<usize>
    requires { Admitted sheet.now × (80 ≤ length buf.old) }
    ensures { LineWritten (sheet_of sheet.now) n buf.old result buf.new }
{
    if n == 0 {
        Some(put_first(buf, sheet))
    } else {
        put_clause(buf, sheet, n - 1)
    }
}

// Writes line n of the clause file into the buffer, line 0 being the first: the line's length, or the first refusal in document 01's order.
// Any bytes and any number are allowed. Bytes after the line, and on a refusal all, are as they were.
pub fn write_line(sheet: &[u8], n: usize, buf: &mut [u8]) -> Result<usize, Refusal>
    ensures { Writes (writing sheet.now n (length buf.old)) buf.old (lined result) buf.new }
{
    sheet::read(sheet)?;
    let mut line = [0; LINE_ROOM];
    let len = put_line(&mut line, sheet, n).ok_or(Refusal::Line)?;
    if buf.len() < len {
        return Err(Refusal::Room);
    }
    Ok(words::put(buf, 0, &line[..len]))
}
