// The 16-bit numbers of an image: little-endian.
ghost use Rattle.std.specs.Prelude.{◌≡◌, ◌+◌, ◌<◌, length};
ghost use Rattle.image.specs.Bytes.{le16, number_at};

// The number at an offset.
pub fn word(s: &[u8], at: usize) -> u16
    requires { at + 1 < length s.now }
    ensures { result ≡ le16 s.now at }
{
    u16::from_le_bytes([s[at], s[at + 1]])
}

// The kind's number of the record at an offset.
pub fn kind_at(image: &[u8], at: usize) -> u16
    requires { at + 3 < length image.now }
    ensures { result ≡ number_at image.now at }
{
    word(image, at + 2)
}
