// Answers as the registers tell them. A pair of functions and no `From`, which could not require that the parts of a reading fit their bytes.
ghost use Rattle.std.specs.Prelude.{◌≡◌};
ghost use Rattle.answer.specs.Answer.{outcome_answer};
ghost use Rattle.reading.specs.Reading.{reading_answer};
ghost use Rattle.registers.specs.Write.{told_by, ToldFits};

use answer::Refusal;
use reading::{Fault, Kind, Reading};

// The bits of byte 7: numbers, as a processor reads them.
const DONE: u8 = 1;

const REFUSED: u8 = 2;

// Byte 4, byte 5, and the bit of byte 7.
#[derive(Clone, Copy)]
pub(crate) struct Told {
    pub answer: u8,
    pub detail: u8,
    pub bit: u8,
}

fn as_told(bit: u8, answer: u8, detail: u8) -> Told
    ensures { result ≡ record { answer = answer; detail = detail; bit = bit } }
{
    Told {
        answer,
        detail,
        bit,
    }
}

pub(crate) fn of_reading(x: Reading) -> Told
    requires { ToldFits (reading_answer x) }
    ensures { result ≡ told_by (reading_answer x) }
{
    match x {
        Ok(Kind::Clean) => as_told(DONE, 0, 0),
        Ok(Kind::Chips(n)) => as_told(DONE, 1, n),
        Ok(Kind::OneCard(j, n)) => as_told(DONE, 2, n + 16 * j),
        // 16 plus 11, and the card.
        Err(Fault::Several(j)) => as_told(REFUSED, 27, 16 * j),
        Err(Fault::Refused(n)) => as_told(REFUSED, 16 + n, 0),
    }
}

#[tactic(auto, using(crate::proofs::Commands::number_fits))]
pub(crate) fn of_outcome(x: Result<(), Refusal>) -> Told
    ensures { result ≡ told_by (outcome_answer x) }
{
    match x {
        Ok(()) => as_told(DONE, 3, 0),
        Err(r) => as_told(REFUSED, 16 + r.number(), 0),
    }
}
