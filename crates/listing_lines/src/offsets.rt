// Numbers and records in the bytes of log and report (document 01, "The image": "a length (whole record, in bytes), a kind,
// then fields"). Bytes past the end count as 0.
ghost use Rattle.std.specs.Prelude.{◌≡◌, ◌+◌, ◌*◌, ◌≤◌, length, take, drop};
ghost use Rattle.base_bytes.specs.Bytes.{number_at};
ghost use Rattle.listing_lines.specs.Offsets.{size_at};

fn join(lo: u8, hi: u8) -> u16
    ensures { result ≡ lo + 256 * hi }
{
    u16::from_le_bytes([lo, hi])
}

// The 16-bit number at an offset.
pub fn word(s: &[u8], at: usize) -> u16
    ensures { result ≡ number_at 2 at s.now }
{
    if at < s.len() {
        let next = at + 1;
        if next < s.len() {
            return join(s[at], s[next]);
        }
        return join(s[at], 0);
    }
    0
}

// The 32-bit number of two words.
pub fn long(lo: u16, hi: u16) -> u32
    ensures { result ≡ lo + 65536 * hi }
{
    lo as u32 + 65536 * (hi as u32)
}

// The length of the record at an offset; 0 where no whole record stands.
pub fn size_at(s: &[u8], at: usize) -> usize
    requires { at ≤ length s.now }
    ensures { result ≡ size_at s.now at }
{
    let size = word(s, at) as usize;
    if size < 4 || s.len() - at < size {
        return 0;
    }
    size
}

// The first n bytes, or as many as there are.
pub fn front(s: &[u8], n: usize) -> &[u8]
    ensures { result.now ≡ take n s.now }
{
    &s[..n.min(s.len())]
}

// The bytes past the first n.
pub fn behind(s: &[u8], n: usize) -> &[u8]
    ensures { result.now ≡ drop n s.now }
{
    &s[n.min(s.len())..]
}
