// Bytes of text, and numbers in decimal.
ghost use Rattle.std.specs.Prelude.{[], ◌∷◌};
ghost use Rattle.listing_lines.specs.Text.{decimal, signed_decimal};
ghost use Rattle.listing_lines.specs.Puts.{Puts};

use calculus::{SIGN_BIT, WORD_SIZE};

pub fn put_byte(out: &mut [u8], at: usize, b: u8) -> usize
    ensures { Puts out.old at (b ∷ []) out.new result }
{
    if at < out.len() {
        out[at] = b;
        return at + 1;
    }
    at
}

pub fn put(out: &mut [u8], at: usize, text: &[u8]) -> usize
    ensures { Puts out.old at text.now out.new result }
{
    let mut o = at;
    for b in text {
        o = put_byte(out, o, *b);
    }
    o
}

// The digits above the last one first.
// Kept: `Puts` says which bytes stand in the lent buffer also where the number does not fit into it, and nothing of the library
// promises that of formatted text; with no heap there is no String to write it to first.
pub fn put_decimal(out: &mut [u8], at: usize, n: u64) -> usize
    ensures { Puts out.old at (decimal n) out.new result }
{
    let last = b'0' + (n % 10) as u8;
    if n < 10 {
        return put_byte(out, at, last);
    }
    let o = put_decimal(out, at, n / 10);
    put_byte(out, o, last)
}

// Patterns from the sign bit on are those of negative numbers.
const LOWEST: u32 = SIGN_BIT as u32;

// A number of 32 bits, two's complement.
pub fn put_signed(out: &mut [u8], at: usize, n: u32) -> usize
    ensures { Puts out.old at (signed_decimal n) out.new result }
{
    if n < LOWEST {
        return put_decimal(out, at, n as u64);
    }
    let o = put(out, at, b"-");
    put_decimal(out, o, WORD_SIZE - n as u64)
}
