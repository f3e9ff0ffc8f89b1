// Words: the word that a template spells under a substitution; two words compared, and what is left over; words as letter bytes. Bytes are written
// piece by piece into a lent buffer, each piece at the offset past the one before it.
#![tactic(auto)]

ghost use Rattle.std.specs.Prelude.{◌≡◌, map, ◌+◌, ◌<◌, ◌≤◌, length};
ghost use Rattle.model.specs.Lists.{All, Puts};
ghost use Rattle.model.specs.Sheet.{Sheet, symbol_of, Accepted, sheet_of};
ghost use Rattle.model.specs.Word.{symbol_word, letter_bytes};
ghost use Rattle.model.specs.Word as model;
ghost use Rattle.model.specs.Mismatch.{rest_word};
ghost use Rattle.model.specs.Mismatch as mismatch;
ghost use Rattle.fields.specs.Memory.{texts_of, Whole};

use fields::Substitution;
use scan::FIRST_FIELD;

// Copies a piece to an offset of the buffer. Returns the offset past it.
pub fn put(buf: &mut [u8], at: usize, piece: &[u8]) -> usize
    requires { at + length piece.now ≤ length buf.old }
    ensures { Puts buf.old at piece.now buf.new result }
{
    let past = at + piece.len();
    buf[at..past].copy_from_slice(piece);
    past
}

// What a symbol stands for: a letter, or a field's text.
fn put_symbol(word: &mut [u8], at: usize, symbol: u8, g: Substitution) -> usize
    requires { All Whole g × (symbol < 128 + 6) × (at + length (symbol_word (texts_of g) (symbol_of symbol)) ≤ length word.old) }
    ensures { Puts word.old at (symbol_word (texts_of g) (symbol_of symbol)) word.new result }
{
    if symbol < FIRST_FIELD {
        return put(word, at, &[symbol]);
    }
    let field = g[usize::from(symbol - FIRST_FIELD)];
    put(word, at, &field.letters[..usize::from(field.len)])
}

// The word that a template spells, at the front of `word`. Returns its length.
pub fn spell(word: &mut [u8], template: &[u8], g: Substitution) -> usize
    requires { All Whole g × All (λ x. x < 128 + 6) template.now × (length (model.spell (texts_of g) (map symbol_of template.now)) ≤ length word.old) }
    ensures { Puts word.old 0 (model.spell (texts_of g) (map symbol_of template.now)) word.new result }
{
    let mut at: usize = 0;
    for &symbol in template {
        at = put_symbol(word, at, symbol, g);
    }
    at
}

// How many letters of two words agree from the start. Letters count as the same alike on every sheet.
pub fn agreeing(left: &[u8], right: &[u8]) -> usize
    ensures { (result ≤ length left.now) × (result ≤ length right.now) × ((s : Sheet) → result ≡ mismatch.agreeing s left.now right.now) }
{
    let n = left.len().min(right.len());
    for i in 0..n {
        if left[i] != right[i] {
            return i;
        }
    }
    n
}

// What is left over of two words: the caller's own left word from the first letter on that does not agree, unless it is used up; then the right one.
pub fn rest<'a>(left: &'a [u8], right: &'a [u8]) -> &'a [u8]
    ensures { (s : Sheet) → result.now ≡ rest_word s left.now right.now }
{
    let n = agreeing(left, right);
    if n < left.len() {
        &left[n..]
    } else {
        &right[n..]
    }
}

// A word as the sheet's letter bytes, at an offset of the buffer. Returns the offset past it.
pub fn put_letters(buf: &mut [u8], at: usize, sheet: &[u8], word: &[u8]) -> usize
    requires { Accepted sheet.now × All (λ a. a < length (sheet_of sheet.now).letters) word.now × (at + length word.now ≤ length buf.old) }
    ensures { Puts buf.old at (letter_bytes (sheet_of sheet.now) word.now) buf.new result }
{
    for i in 0..word.len() {
        buf[at + i] = parts::letter(sheet, usize::from(word[i]));
    }
    at + word.len()
}
