// The number of a refusal (document 01, "Turned back at the gate"), apart from the image's definitions, which are edited far more
// often.
#![tactic(auto)]

ghost use Rattle.std.specs.Prelude.{◌≡◌};
ghost use Rattle.image.specs.Refusals.{refusal_number};

use image::Refusal;

pub fn refusal_number(why: Refusal) -> u16
    ensures { result ≡ refusal_number why }
{
    u16::from(why)
}
