// Sums and maxima of the eleven numbers. A sum stops at the largest 32-bit number; no image comes near it.
ghost use Rattle.std.specs.Prelude.{◌≡◌};
ghost use Rattle.need_sums.specs.Sums.{JoinedBy, add_needs, dearer_needs, raise_needs};

use image_needs::Needs;

// Number by number; frames never add up, since of two things that are done one after the other the deeper one counts.
fn joined<F: Fn(u32, u32) -> u32>(a: Needs, b: Needs, join: F) -> Needs
    requires { F.IsAlwaysCallable join }
    ensures { JoinedBy (F.post join) a b result }
{
    Needs {
        steps: join(a.steps, b.steps),
        bindings: join(a.bindings, b.bindings),
        other_bindings: join(a.other_bindings, b.other_bindings),
        pieces: join(a.pieces, b.pieces),
        other_pieces: join(a.other_pieces, b.other_pieces),
        cells: join(a.cells, b.cells),
        other_cells: join(a.other_cells, b.other_cells),
        labels: join(a.labels, b.labels),
        advice: join(a.advice, b.advice),
        frames: a.frames.max(b.frames),
        log: join(a.log, b.log),
    }
}

// One after the other: all add up, but frames.
pub fn add(a: Needs, b: Needs) -> Needs
    ensures { result ≡ add_needs a b }
{
    joined(a, b, |x, y| x.saturating_add(y))
}

// The dearer of two, for each number on its own.
pub fn dearer(a: Needs, b: Needs) -> Needs
    ensures { result ≡ dearer_needs a b }
{
    joined(a, b, |x, y| x.max(y))
}

// The frames of something that stands d terms deeper, if it makes a step.
fn raised(steps: u32, d: u32, frames: u32) -> u32
    ensures { result ≡ Rattle.need_sums.specs.Sums.raised_to steps d frames }
{
    if steps == 0 {
        0
    } else {
        frames.saturating_add(d)
    }
}

// The same numbers of something that stands d terms deeper.
#[tactic(auto, unfolding(crate::specs::Sums::raise_needs))]
pub fn raise(d: u32, a: Needs) -> Needs
    ensures { result ≡ raise_needs d a }
{
    Needs {
        frames: raised(a.steps, d, a.frames),
        ..a
    }
}
