// Pieces, which is document 01's word for the room that a pair, a pointcut or an advice takes.
ghost use Rattle.std.specs.Prelude.{◌≤◌, ◌<◌, length};
ghost use Rattle.calculus.specs.Limits.{piece_limit};
ghost use Rattle.base_bytes.specs.Memory.{memory_length};
ghost use Rattle.vm_machine.specs.Registers.{fuel_bias, frame_slots};
ghost use Rattle.vm_machine.specs.Fits.{PoolFits};
ghost use Rattle.vm_machine.specs.Reduce.{new_piece};
ghost use Rattle.vm_code.specs.Values.{tag_count};
ghost use Rattle.vm_registers.specs.Phases.{Phase};

use crate::ends::given;
use crate::pools::{has_capacity, pieces_out, quota_of};
use crate::regs::halt;
use calculus::PIECE_LIMIT;
use vm_machine::Regs;
use vm_memory::pieces::put_piece;
use vm_words::value::value;

// One more piece, for a value with a tag.
pub fn new_piece(work: &mut [u8], r: Regs, w: u64, tag: u64, a: u64, b: u64) -> Regs
    requires { (memory_length ≤ length work.old) × (r.frames ≤ frame_slots) × (fuel_bias < r.fuel) × (tag < tag_count) × PoolFits piece_limit r.pools.pieces }
    ensures { Phase (new_piece w tag a b) work.old work.new r result }
{
    let h = quota_of(w);
    let p = r.pools;
    let x = p.pieces;
    if has_capacity(x, h, 1, PIECE_LIMIT) {
        let n = x.whole();
        put_piece(work, n, a, b);
        let mut q = given(work, r, w, value(tag, n as u64));
        q.pools = p.charge_pieces(h, 1);
        return q;
    }
    halt(r, pieces_out(h))
}
