// The numbers of a forecast in lent places.
ghost use Rattle.std.specs.Prelude.{◌≡◌, ◌≤◌, length};
ghost use Rattle.base_bytes.specs.Bytes.{over};
ghost use Rattle.answers_as_numbers.specs.Forecasts.{number_count, numbers_of, numbers_left, need_number};

use image_needs::{Forecast, Needs};

// How many numbers a forecast has.
const NUMBERS: usize = 11;

// The eleven numbers in the first places.
fn put_numbers(numbers: &mut [u32], n: Needs)
    requires { number_count ≤ length numbers.old }
    ensures { numbers.new ≡ over 0 (numbers_of n) numbers.old }
{
    numbers[0] = n.steps;
    numbers[1] = n.bindings;
    numbers[2] = n.other_bindings;
    numbers[3] = n.pieces;
    numbers[4] = n.other_pieces;
    numbers[5] = n.cells;
    numbers[6] = n.other_cells;
    numbers[7] = n.labels;
    numbers[8] = n.advice;
    numbers[9] = n.frames;
    numbers[10] = n.log;
}

// Numbers that are known, where there are places for them.
pub fn put_forecast(numbers: &mut [u32], f: Forecast)
    ensures { numbers.new ≡ numbers_left f numbers.old }
{
    if let Ok(known) = f {
        if NUMBERS <= numbers.len() {
            put_numbers(numbers, known);
        }
    }
}

// The refusal of a forecast whose numbers have too few places, behind those of documents 01 and 02.
const TOO_FEW_PLACES: u16 = 25;

// The number that is answered, for so many lent places.
pub fn need_number(f: Forecast, places: usize) -> u16
    ensures { result ≡ need_number f places }
{
    let n = image_needs::forecast_number(f);
    if n == 0 && places < NUMBERS {
        TOO_FEW_PLACES
    } else {
        n
    }
}
