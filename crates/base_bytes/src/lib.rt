// Words of 8 bytes in a lent work area, little-endian, and the clearing of its front.
#![tactic(auto)]

ghost use Rattle.std.specs.Prelude.{◌≡◌, ◌+◌, ◌*◌, ◌≤◌, length};
ghost use Rattle.base_bytes.specs.Bytes.{bytes_of, over, cleared};
ghost use Rattle.base_bytes.specs.Memory.{word_at};

use calculus::{ADVICE_LIMIT, BINDING_LIMIT, CELL_LIMIT, FRAME_LIMIT, PIECE_LIMIT};

// The single bytes of the machine's memory, one beside each slot: of the unfinished terms that may enclose the next one to
// reduce, and of that one.
pub const BESIDE_COUNT: usize = FRAME_LIMIT + 1;

// Its words, 4,418: both halves of bindings, pieces of two words, and cells (card 9), slots, installed advice, and as many
// values that are kept as there are slots (card 6).
pub const WORD_COUNT: usize = 2 * BINDING_LIMIT
    + BESIDE_COUNT
    + 4 * PIECE_LIMIT
    + 2 * CELL_LIMIT
    + ADVICE_LIMIT
    + BESIDE_COUNT;

// Word i of the area.
pub fn load(area: &[u8], i: usize) -> u64
    requires { 8 * i + 8 ≤ length area.now }
    ensures { result ≡ word_at area.now i }
{
    let k = 8 * i;
    u64::from_le_bytes([
        area[k],
        area[k + 1],
        area[k + 2],
        area[k + 3],
        area[k + 4],
        area[k + 5],
        area[k + 6],
        area[k + 7],
    ])
}

// Word i becomes v; no other byte changes.
pub fn store(area: &mut [u8], i: usize, v: u64)
    requires { 8 * i + 8 ≤ length area.old }
    ensures { area.new ≡ over (8 * i) (bytes_of 8 v) area.old }
{
    let k = 8 * i;
    area[k..k + 8].copy_from_slice(&v.to_le_bytes());
}

// The first n bytes become 0.
pub fn clear(area: &mut [u8], n: usize)
    requires { n ≤ length area.old }
    ensures { area.new ≡ cleared n area.old }
{
    area[..n].fill(0);
}
