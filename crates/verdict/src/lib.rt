// The verdict on an image: its definition in specs/, what acceptance means in proofs/; and here the type that answers it.
#![tactic(auto)]

use image::Refused;

// What the validator answers of an image: it is accepted, or it is refused, with the reason and the place.
pub type Verdict = Result<(), Refused>;
