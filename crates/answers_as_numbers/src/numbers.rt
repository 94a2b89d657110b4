// Answers as one number.
ghost use Rattle.std.specs.Prelude.{◌≡◌};
ghost use Rattle.answers_as_numbers.specs.Numbers.{as_number, refused_as_number, call_number};

use call_spec::Answer;

// The bytes written count modulo BYTE_COUNT; a refusal's number and its place are multiplied by their units, and the place counts
// modulo PLACE_COUNT.
const BYTE_COUNT: usize = 65536;

const NUMBER_UNIT: u64 = 65536;

const PLACE_UNIT: u64 = 16777216;

const PLACE_COUNT: usize = 549755813888;

// The bytes of a run's log are multiplied by LOG_UNIT and count modulo LOG_COUNT.
const LOG_UNIT: u64 = 65536;

const LOG_COUNT: usize = 281474976710656;

// Bytes that were written, or a refusal.
pub fn as_number(bytes: usize, number: u16, place: usize) -> u64
    ensures { result ≡ as_number bytes number place }
{
    (bytes % BYTE_COUNT) as u64
        + (NUMBER_UNIT * (number as u64) + PLACE_UNIT * ((place % PLACE_COUNT) as u64))
}

pub fn refused_as_number(number: u16, place: usize) -> u64
    ensures { result ≡ refused_as_number number place }
{
    as_number(0, number, place)
}

// What a call of the engine answers.
pub fn call_number(a: Answer) -> u64
    ensures { result ≡ call_number a }
{
    match a.verdict {
        Ok(()) => { (a.report % BYTE_COUNT) as u64 + LOG_UNIT * ((a.log % LOG_COUNT) as u64) }
        Err(refused) => refused_as_number(u16::from(refused.why), refused.place),
    }
}
