// What a run of an image will need (document 02, card 10): its definition in specs/, its laws in proofs/; and here the numbers
// and the refusals that answer it.
#![tactic(auto)]

ghost use Rattle.std.specs.Prelude.{◌≡◌};
ghost use Rattle.image_needs.specs.declared.Unforeseen.{Unforeseen};
ghost use Rattle.image_needs.specs.Forecasts.{forecast_number, forecast_place};

use image::Refused;

// The number of the refusal of images that are outside the class (document 02, card 10).
pub const OUTSIDE_NUMBER: u16 = 19;

// The eleven upper numbers, in the order in which they are printed; "other" ones are of the other domains' half (card 9). "Piece"
// is document 01's word: the room that a pair, a pointcut or an advice takes.
#[derive(Clone, Copy, Default)]
pub struct Needs {
    pub steps: u32,
    pub bindings: u32,
    pub other_bindings: u32,
    pub pieces: u32,
    pub other_pieces: u32,
    pub cells: u32,
    pub other_cells: u32,
    pub labels: u32,
    pub advice: u32,
    pub frames: u32,
    pub log: u32,
}

// Why an image has no numbers: the check refuses it; or it is outside the class, with the place of its lowest fault.
#[derive(Clone, Copy)]
pub enum Unforeseen {
    Refused(Refused),
    OutsideClass(usize),
}

impl From<Refused> for Unforeseen {
    ghost from_gives = { λ refused u. u ≡ Unforeseen.Refused refused };

    fn from(refused: Refused) -> Self {
        Self::Refused(refused)
    }
}

// The forecast of an image before a launch: its run needs no more than these numbers.
pub type Forecast = Result<Needs, Unforeseen>;

// Its number, 0 for numbers that are known, and its place.
pub fn forecast_number(f: Forecast) -> u16
    ensures { result ≡ forecast_number f }
{
    match f {
        Ok(_) => 0,
        Err(Unforeseen::Refused(refused)) => image_refusals::refusal_number(refused.why),
        Err(Unforeseen::OutsideClass(_)) => OUTSIDE_NUMBER,
    }
}

pub fn forecast_place(f: Forecast) -> usize
    ensures { result ≡ forecast_place f }
{
    match f {
        Ok(_) => 0,
        Err(Unforeseen::Refused(refused)) => refused.place,
        Err(Unforeseen::OutsideClass(place)) => place,
    }
}
