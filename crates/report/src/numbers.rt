// Little-endian numbers at an offset of a lent slice.
ghost use Rattle.std.specs.Prelude.{◌≡◌, ◌+◌, ◌≤◌, ◌++◌, length};
ghost use Rattle.base_bytes.specs.Bytes.{over};
ghost use Rattle.base_bytes.specs.Records.{bytes16, bytes32};

pub fn put16(out: &mut [u8], at: usize, v: u16)
    requires { at + 2 ≤ length out.old }
    ensures { out.new ≡ over at (bytes16 v) out.old }
{
    out[at..at + 2].copy_from_slice(&v.to_le_bytes());
}

pub fn put32(out: &mut [u8], at: usize, v: u32)
    requires { at + 4 ≤ length out.old }
    ensures { out.new ≡ over at (bytes32 v) out.old }
{
    out[at..at + 4].copy_from_slice(&v.to_le_bytes());
}

// The length and the kind that a record begins with.
pub fn put_header(out: &mut [u8], at: usize, size: u16, kind: u16)
    requires { at + 4 ≤ length out.old }
    ensures { out.new ≡ over at (bytes16 size ++ bytes16 kind) out.old }
{
    put16(out, at, size);
    put16(out, at + 2, kind);
}
