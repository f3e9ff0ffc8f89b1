// The text that the programs print: the report of a clash, which is `clash`, a line for each field and a line for each pair; and the line of
// a refusal.
#![tactic(auto)]

ghost use Rattle.std.specs.Prelude.{◌≡◌, [], ◌∷◌, ◌+◌, ◌<◌, ◌≤◌, length};
ghost use Rattle.model.specs.Lists.{each, up_to, All, Puts};
ghost use Rattle.model.specs.Sheet.{Accepted, sheet_of};
ghost use Rattle.model.specs.Word.{letter_bytes};
ghost use Rattle.model.specs.Filling.{filling, substitution_in};
ghost use Rattle.calls.specs.Report.{refused_line, field_line, pair_line, most_report};
ghost use Rattle.calls.specs.Report as model;
ghost use Rattle.calls.specs.Calls.{finished, checking};
ghost use Rattle.fields.specs.Memory.{Held, meaning};

use fields::Substitution;
use scan::WIDEST;

// Room for any report, and for the line of any refusal.
pub const MOST_REPORT: usize = 236;

// A line at an offset: a name with a space after it, a number of one digit, "=", a word as letter bytes, a line end. Returns the offset
// past it.
fn line(buf: &mut [u8], at: usize, name: &[u8], n: u8, sheet: &[u8], word: &[u8]) -> usize
    requires { Accepted sheet.now × All (λ a. a < length (sheet_of sheet.now).letters) word.now × (n < 10) × (at + length name.now + length word.now + 3 ≤ length buf.old) }
    ensures { Puts buf.old at (model.labelled_line name.now n (letter_bytes (sheet_of sheet.now) word.now)) buf.new result }
{
    let a = words::put(buf, at, name);
    let b = words::put(buf, a, &[b'0' + n, b'=']);
    let c = words::put_letters(buf, b, sheet, word);
    words::put(buf, c, b"\n")
}

// The fields' lines, at an offset. Returns the offset past them.
fn field_lines(buf: &mut [u8], at: usize, sheet: &[u8], g: Substitution) -> usize
    requires { Held sheet.now g × (at + length (each (up_to (length (sheet_of sheet.now).limits)) (field_line (sheet_of sheet.now) (meaning sheet.now g))) ≤ length buf.old) }
    ensures { Puts buf.old at (each (up_to (length (sheet_of sheet.now).limits)) (field_line (sheet_of sheet.now) (meaning sheet.now g))) buf.new result }
{
    let fields = parts::four_counts(sheet).fields;
    let mut past = at;
    for f in 0..fields {
        let field = g[usize::from(f)];
        let letters = &field.letters[..usize::from(field.len)];
        past = line(buf, past, b"field ", f, sheet, letters);
    }
    past
}

// The pairs' lines, at an offset. Returns the offset past them.
fn pair_lines(buf: &mut [u8], at: usize, sheet: &[u8], g: Substitution) -> usize
    requires { Held sheet.now g × (at + length (each (up_to (length (sheet_of sheet.now).equations)) (pair_line (sheet_of sheet.now) (meaning sheet.now g))) ≤ length buf.old) }
    ensures { Puts buf.old at (each (up_to (length (sheet_of sheet.now).equations)) (pair_line (sheet_of sheet.now) (meaning sheet.now g))) buf.new result }
{
    let equations = parts::four_counts(sheet).equations;
    let mut past = at;
    for p in 0..equations {
        let mut word = [0u8; WIDEST];
        let n = words::spell(&mut word, parts::template(sheet, usize::from(p), 0), g);
        past = line(buf, past, b"pair ", p, sheet, &word[..n]);
    }
    past
}

// The report of a filling that checks as a clash, at the front of a buffer of the greatest size that a report has, 236 bytes. Returns its
// length; later bytes are as they were.
pub fn write(sheet: &[u8], bytes: &[u8], buf: &mut [u8]) -> usize
    requires { (checking sheet.now bytes.now ≡ finished (1 ∷ [])) × (most_report ≤ length buf.old) }
    ensures { Puts buf.old 0 (model.report (sheet_of sheet.now) (substitution_in (filling (sheet_of sheet.now) bytes.now))) buf.new result }
{
    let g = fields::load(sheet, bytes);
    let a = words::put(buf, 0, b"clash\n");
    let b = field_lines(buf, a, sheet, g);
    pair_lines(buf, b, sheet, g)
}

// The line of a refusal with that number, at the front of a buffer. Returns its length; later bytes are as they were.
pub fn refusal(buf: &mut [u8], number: u8) -> usize
    requires { 12 ≤ length buf.old }
    ensures { Puts buf.old 0 (refused_line number) buf.new result × (result ≤ 12) }
{
    let a = words::put(buf, 0, b"refused ");
    let b = dimacs::print(buf, a, usize::from(number));
    words::put(buf, b, b"\n")
}
