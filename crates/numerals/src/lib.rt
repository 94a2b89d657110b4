// An inner crate: the numbers that the arguments of a program say.
#![tactic(auto)]

ghost use Rattle.std.specs.Prelude.{◌≡◌, Some};
ghost use Rattle.numerals.specs.Numerals.{after, numeral};

// The number n with one digit more; none, if the byte is no digit or the number is over the most.
fn with_byte(n: u32, byte: u8, most: u32) -> Option<u32>
    ensures { result ≡ after most (Some n) byte }
{
    if !byte.is_ascii_digit() {
        return None;
    }
    let more = n.checked_mul(10)?.checked_add(u32::from(byte - b'0'))?;
    (more <= most).then_some(more)
}

// The number that decimal digits say, if it is at most `most`.
pub fn number_of(digits: &[u8], most: u32) -> Option<u32>
    ensures { result ≡ numeral most digits.now }
{
    if digits.is_empty() {
        return None;
    }
    let mut said = 0;
    for byte in digits {
        said = with_byte(said, *byte, most)?;
    }
    Some(said)
}
