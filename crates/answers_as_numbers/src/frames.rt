// The calls of one image over the frames of a recording, as a definition (specs/Recordings.antt), and the
// answers where all of them are refused.
ghost use Rattle.std.specs.Prelude.{◌≡◌, length, replicate};
ghost use Rattle.image.specs.Refusals.{refusal_number};
ghost use Rattle.answers_as_numbers.specs.Numbers.{refused_as_number};

use crate::numbers::refused_as_number;
use image::Refusal;

// The same refusal of every call.
pub fn refuse_each(why: Refusal, place: usize, numbers: &mut [u64])
    ensures { numbers.new ≡ replicate (length numbers.old) (refused_as_number (refusal_number why) place) }
{
    numbers.fill(refused_as_number(u16::from(why), place));
}
