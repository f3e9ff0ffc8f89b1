// What the calls for C share: a refusal as the number that is returned. `Returned.antt` says of each kind of call what it returns for an answer,
// and what is lent to it holds afterwards.
#![tactic(auto)]

ghost use Rattle.std.specs.Prelude.{◌≡◌, ◌<◌, pos, neg_ℤ};

// Minus a refusal's number, which is a byte.
pub fn minus(number: u8) -> i64
    ensures { (result ≡ neg_ℤ (pos number)) × (number < 256) }
{
    -i64::from(number)
}
