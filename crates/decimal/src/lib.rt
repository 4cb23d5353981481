// Decimal numbers as bytes: the number that bytes are, if they are one.
#![tactic(auto)]

ghost use Rattle.std.specs.Prelude.{◌≡◌};
ghost use Rattle.lists.specs.Options.{option_of};
ghost use Rattle.decimal.specs.Decimal.{read_from, read_number};

// the number that these digits say, if they are digits and it is not too large
#[tactic(auto, unfolding(lists::specs::Options::option_of))]
fn digits(bytes: &[u8]) -> Option<u32>
    ensures { result ≡ option_of (read_from 0 bytes.now) }
{
    let mut value: u32 = 0;
    for &d in bytes {
        if !d.is_ascii_digit() {
            return None;
        }
        value = value.checked_mul(10)?.checked_add((d - b'0') as u32)?;
    }
    Some(value)
}

// "without leading zeros (0 itself is `0`)"
#[tactic(auto, unfolding(lists::specs::Options::option_of))]
pub fn read(bytes: &[u8]) -> Option<u32>
    ensures { result ≡ option_of (read_number bytes.now) }
{
    if bytes.is_empty() {
        return None;
    }
    if bytes[0] == b'0' && bytes.len() > 1 {
        return None;
    }
    digits(bytes)
}
