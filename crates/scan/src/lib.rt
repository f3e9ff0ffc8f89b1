// The first byte of a kind, and where a sheet's header has what. Knows nothing of rows, nor of what a sheet means.
#![tactic(auto)]

ghost use Rattle.std.specs.Prelude.{◌≡◌, ◌+◌, ◌≤◌, length, drop};
ghost use Rattle.model.specs.Lists.{span};

// A header's length, and the offsets in it: the version's two bytes and the four counts.
pub const HEADER: usize = 9;

pub const VERSION_HIGH: usize = 3;

pub const VERSION_LOW: usize = 4;

pub const LETTER_COUNT: usize = 5;

pub const FIELD_COUNT: usize = 6;

pub const EQUATION_COUNT: usize = 7;

pub const CONSTRAINT_COUNT: usize = 8;

// The symbol of field 0, and the greatest width of a template.
pub const FIRST_FIELD: u8 = 128;

pub const WIDEST: usize = 24;

// The offset of the first x at or after an offset, or the length where there is none.
pub fn find(bytes: &[u8], at: usize, x: u8) -> usize
    requires { at ≤ length bytes.now }
    ensures { (result ≡ at + span x (drop at bytes.now)) × (at ≤ result) × (result ≤ length bytes.now) }
{
    match bytes[at..].iter().position(|&b| b == x) {
        Some(i) => at + i,
        None => bytes.len(),
    }
}
