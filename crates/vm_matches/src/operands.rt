// A match begins, or an operand of it is worked out: its stack, then the pointcuts of its entries, left to right.
ghost use Rattle.std.specs.Prelude.{List, ◌≡◌, ℕ, ◌+◌, ◌≤◌, ◌<◌, get_or};
ghost use Rattle.vm_code.specs.Words.{term_count};
ghost use Rattle.vm_machine.specs.Registers.{frame_slots};
ghost use Rattle.vm_machine.specs.Turn.{begin_operand, entries_from, begin_match, resume_match};
ghost use Rattle.vm_registers.specs.Phases.{Phase};
ghost use Rattle.vm_matches.specs.Matching.{match_fields, looked_of};
ghost use Rattle.vm_matches.specs.Operands.{Matchable, OfMatch, FramesOf};

use crate::Progress;
use crate::entries::{STACK, cut_term, entry_at, match_fields};
use crate::looks::{STACK_TO_COME, look_on, looked_again, looked_byte, unlooked};
use crate::matches::make_match;
use calculus::outcomes;
use read_records::numbers::TermNo;
use vm_labels::children::term_at;
use vm_labels::entry::entry_from;
use vm_machine::Regs;
use vm_memory::slots::{byte_beside, match_word, put_match, slot_env, slot_pc};
use vm_memory::words::BINDING_PLACES;
use vm_registers::ends::atom_value;
use vm_registers::regs::{halt, same};
use vm_words::classes::INSTRUCTION;
use vm_words::code::{class_of, count_of, depth_of};
use vm_words::terms::{instruction, word_of};

// The operand x of the match at hand begins as a body of its own; v is the match's stack, and the byte its progress.
fn begin_operand(code: &[u64], work: &mut [u8], r: Regs, x: TermNo, v: u64, byte: u64) -> Regs
    requires { Matchable code.now work.old r × FramesOf code.now r × (x.0 < term_count) × (byte < 256) }
    ensures { (image : List ℕ) → Phase (begin_operand (record { code = code.now; image = image }) r.pc x.0 v byte) work.old work.new r result }
{
    let pc = r.pc;
    let d = depth_of(instruction(code, pc)) + 1;
    if r.frames <= d {
        return halt(r, outcomes::FRAMES);
    }
    let frames = r.frames - d;
    put_match(work, frames + 1, 1, match_word(pc, r.env, v), byte);
    let mut q = same(r);
    q.frames = frames;
    q.pc = entry_from(code, x);
    q
}

// The entries of the match at hand, from where it was left: the next pointcut that is no atom is a body of its own; after the
// last entry the match is made. It has the word w.
fn entries_from(
    code: &[u64],
    fields: &[u8],
    work: &mut [u8],
    r: Regs,
    w: u64,
    from: Progress,
) -> Regs
    requires { Matchable code.now work.old r × FramesOf code.now r × (w ≡ get_or code.now r.pc 0) × OfMatch fields.now w }
    ensures { (image : List ℕ) → fields.now ≡ match_fields image w → Phase (entries_from (record { code = code.now; image = image }) r.pc from.stack (looked_of from)) work.old work.new r result }
{
    let k = look_on(code, fields, work, r.env, w, from);
    if count_of(w) <= k.next {
        return make_match(code, fields, work, r, w, k);
    }
    let x = cut_term(entry_at(fields, k.next));
    begin_operand(code, work, r, x, k.stack, looked_byte(k))
}

pub fn begin_match(code: &[u64], image: &[u8], work: &mut [u8], r: Regs) -> Regs
    requires { Matchable code.now work.old r × (r.frames ≤ frame_slots) }
    ensures { Phase (begin_match (record { code = code.now; image = image.now })) work.old work.new r result }
{
    let w = instruction(code, r.pc);
    let fields = match_fields(image, w);
    let x = term_at(fields, STACK);
    let u = word_of(code, x);
    if class_of(u) < INSTRUCTION {
        let v = atom_value(work, r.env, u);
        return entries_from(code, fields, work, r, w, unlooked(v));
    }
    begin_operand(code, work, r, x, 0, STACK_TO_COME)
}

// An operand is worked out: the match's slot has the word f.
pub fn resume_match(code: &[u64], image: &[u8], work: &mut [u8], r: Regs, f: u64) -> Regs
    requires { Matchable code.now work.old r × (r.frames < frame_slots) }
    ensures { Phase (resume_match (record { code = code.now; image = image.now }) f) work.old work.new r result }
{
    let pc = slot_pc(f);
    let w = instruction(code, pc);
    let k = looked_again(work, r.acc, f, byte_beside(work, r.frames));
    let mut q = same(r);
    q.frames = r.frames + (depth_of(w) + 1);
    q.env = slot_env(f) % BINDING_PLACES;
    q.pc = pc;
    entries_from(code, match_fields(image, w), work, q, w, k)
}
