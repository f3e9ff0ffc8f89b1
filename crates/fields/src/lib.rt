// A substitution (document 01: a filling) in memory, six fields of eight letter places and a length by value, and as bytes: read, and written.
#![tactic(auto)]

ghost use Rattle.std.specs.Prelude.{◌≡◌, [], ◌++◌, ◌+◌, ◌*◌, ◌≤◌, length, take, drop};
ghost use Rattle.model.specs.Lists.{All};
ghost use Rattle.model.specs.Sheet.{got, rest, Accepted, sheet_of};
ghost use Rattle.model.specs.Filling.{a_text, filling, encode_filling};
ghost use Rattle.fields.specs.Memory.{texts_of, Whole, meaning, Held, field_bytes, field_at, loaded};
ghost use Rattle.fields.specs.Answer.{number_of, left, IsAdmitted};

// The most fields, a field's places, its bytes in a filling, and what a place past the length holds.
pub const FIELDS: usize = 6;

pub const PLACES: usize = 8;

pub const FIELD_BYTES: usize = 9;

pub const PAST: u8 = 255;

// The most bytes of a filling.
pub const MOST_BYTES: usize = 54;

// A field's text: letter numbers, 255 past the length.
#[derive(Clone, Copy)]
pub struct Field {
    pub letters: [u8; PLACES],
    pub len: u8,
}

pub type Substitution = [Field; FIELDS];

// A field without a letter.
pub const EMPTY: Field = Field {
    letters: [PAST; PLACES],
    len: 0,
};

// The lengths of the fields' texts, alone.
pub type Lengths = [u8; FIELDS];

// What a filling's bytes are refused for, by document 01's numbers 20 to 23.
#[derive(Clone, Copy, Debug, PartialEq, Eq)]
pub enum Fault {
    Size,
    Length,
    Letter,
    Past,
}

// Document 01's number of a fault.
impl From<Fault> for u8 {
    ghost from_gives = { λ e r. r ≡ number_of e };

    fn from(fault: Fault) -> u8 {
        match fault {
            Fault::Size => 20,
            Fault::Length => 21,
            Fault::Letter => 22,
            Fault::Past => 23,
        }
    }
}

// The field whose nine bytes stand at an offset.
fn load_field(bytes: &[u8], at: usize) -> Field
    requires { at + 9 ≤ length bytes.now }
    ensures { result ≡ field_at bytes.now at }
{
    let mut letters = [PAST; PLACES];
    letters.copy_from_slice(&bytes[at + 1..at + FIELD_BYTES]);
    Field {
        letters,
        len: bytes[at],
    }
}

// The first n fields from their bytes, the others empty.
fn load_fields(bytes: &[u8], n: usize) -> Substitution
    requires { (n ≤ 6) × (9 * n ≤ length bytes.now) }
    ensures { result ≡ loaded n bytes.now }
{
    let mut g = [EMPTY; FIELDS];
    for f in 0..n {
        g[f] = load_field(bytes, FIELD_BYTES * f);
    }
    g
}

// The nine bytes of a field, at the front of a buffer.
fn store_field(buf: &mut [u8], field: Field)
    requires { 9 ≤ length buf.old }
    ensures { buf.new ≡ field_bytes field ++ drop 9 buf.old }
{
    buf[0] = field.len;
    buf[1..FIELD_BYTES].copy_from_slice(&field.letters);
}

// The bytes of the first n fields' texts, at the front of a buffer. Each field's nine bytes are written in their own stretch of it.
pub fn store(buf: &mut [u8], g: Substitution, n: usize)
    requires { All Whole g × (length g ≡ 6) × (n ≤ 6) × (9 * n ≤ length buf.old) }
    ensures { buf.new ≡ encode_filling (take n (texts_of g)) ++ drop (9 * n) buf.old }
{
    for f in 0..n {
        store_field(&mut buf[FIELD_BYTES * f..], g[f]);
    }
}

// Whether the nine bytes at the front are a text of at most that many of the letters, or the first fault.
fn check_field(bytes: &[u8], limit: u8, letters: u8) -> Result<(), Fault>
    requires { 9 ≤ length bytes.now }
    ensures { left bytes.now result ≡ rest (a_text letters limit bytes.now) }
{
    let len = bytes[0];
    if len > limit {
        return Err(Fault::Length);
    }
    for c in 0..PLACES {
        let x = bytes[c + 1];
        if c < usize::from(len) {
            if x >= letters {
                return Err(Fault::Letter);
            }
        } else if x != PAST {
            return Err(Fault::Past);
        }
    }
    Ok(())
}

// Whether these bytes are a filling of an accepted sheet, or the first refusal in document 01's order. If they are, `load` gives
// the substitution.
pub fn admit(sheet: &[u8], bytes: &[u8]) -> Result<(), Fault>
    requires { Accepted sheet.now }
    ensures { IsAdmitted result ≡ rest (filling (sheet_of sheet.now) bytes.now) }
{
    let counts = parts::four_counts(sheet);
    let fields = usize::from(counts.fields);
    if bytes.len() != FIELD_BYTES * fields {
        return Err(Fault::Size);
    }
    for f in 0..fields {
        check_field(
            &bytes[FIELD_BYTES * f..],
            parts::limit(sheet, f),
            counts.letters,
        )?;
    }
    Ok(())
}

// The substitution of a filling that was admitted.
pub fn load(sheet: &[u8], bytes: &[u8]) -> Substitution
    requires { Accepted sheet.now × (rest (filling (sheet_of sheet.now) bytes.now) ≡ got tt []) }
    ensures { Held sheet.now result × (filling (sheet_of sheet.now) bytes.now ≡ got (meaning sheet.now result) []) }
{
    load_fields(bytes, usize::from(parts::four_counts(sheet).fields))
}
