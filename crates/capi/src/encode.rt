// Answers as codes: bits 0 to 7 are the number; 8 to 15 the kind, 16 to 23 the card, 24 to 31 n; of a report, the totals from bit 8; of a
// register, its byte from bit 8; of a proposal, the chip from bit 8, 255 for none; of a slip, how many bytes it has from bit 8, the block
// number from bit 16, and the reading's own code from bit 32. Functions and no `From`: neither a Result nor a number is a type of this crate.
ghost use Rattle.std.specs.Prelude.{◌≡◌, ◌≤◌, Ok};
ghost use Rattle.answer.specs.Answer.{outcome_answer};
ghost use Rattle.reading.specs.Reading.{reading_answer};
ghost use Rattle.window.specs.Window.{proposal_of};
ghost use Rattle.registers.specs.Write.{value_said};
ghost use Rattle.slip.specs.Wrote.{wrote_said};
ghost use Rattle.slip.specs.Found.{found_said};
ghost use Rattle.slip.specs.Fit.{WroteFits, FoundFits};
ghost use Rattle.capi.specs.Codes.{code, packed, packed_totals, value_code, proposal_code, wrote_code, found_code, reading_in};

use answer::{Refusal, Totals};
use reading::{Fault, Kind, Reading};
use slip::{NoSlip, SlipRead};

fn packed(number: u8, kind: u8, card: u8, n: u8) -> u32
    ensures { result ≡ packed number kind card n }
{
    u32::from_le_bytes([number, kind, card, n])
}

pub(crate) fn of_outcome(r: Result<(), Refusal>) -> u32
    ensures { result ≡ code (outcome_answer r) }
{
    match r {
        Ok(()) => packed(0, 0, 0, 0),
        Err(refusal) => packed(refusal.number(), 0, 0, 0),
    }
}

pub(crate) fn of_reading(r: Reading) -> u32
    ensures { result ≡ code (reading_answer r) }
{
    match r {
        Ok(Kind::Clean) => packed(0, 0, 0, 0),
        Ok(Kind::Chips(n)) => packed(0, 1, 0, n),
        Ok(Kind::OneCard(j, n)) => packed(0, 2, j, n),
        // 11 is no `Refusal`: the card comes with it.
        Err(Fault::Several(j)) => packed(11, 0, j, 0),
        Err(Fault::Refused(n)) => packed(n, 0, 0, 0),
    }
}

// Five totals of 11 bits each.
pub(crate) fn of_totals(t: Totals) -> u64
    requires { (t.clean ≤ 1024) × (t.chips ≤ 1024) × (t.card ≤ 1024) × (t.none ≤ 1024) × (t.several ≤ 1024) }
    ensures { result ≡ packed_totals t.clean t.chips t.card t.none t.several }
{
    let c = u64::from(t.none) + 2048 * u64::from(t.several);
    let c = u64::from(t.card) + 2048 * c;
    let c = u64::from(t.chips) + 2048 * c;
    256 * (u64::from(t.clean) + 2048 * c)
}

// A register's byte above the number 0, or the number of the refusal.
pub(crate) fn of_value(x: Result<u8, Refusal>) -> u32
    ensures { result ≡ value_code (value_said x) }
{
    match x {
        Ok(b) => 256 * u32::from(b),
        Err(refusal) => u32::from(refusal.number()),
    }
}

// A chip above the number; 255 for none. By a match, as the next: handed on to `of_value` by `map`, each would have a closure with a contract of
// its own.
pub(crate) fn of_proposal(x: Result<Option<u8>, Refusal>) -> u32
    ensures { result ≡ proposal_code (proposal_of x) }
{
    match x {
        Ok(Some(p)) => 256 * u32::from(p),
        Ok(None) => 65280,
        Err(refusal) => u32::from(refusal.number()),
    }
}

// The slip's length above the number, `at` being where it was written.
pub(crate) fn of_wrote(at: usize, x: Result<usize, Refusal>) -> u32
    requires { WroteFits at (wrote_said x) }
    ensures { result ≡ wrote_code at (wrote_said x) }
{
    match x {
        // A slip has six bytes at most, so that `as` loses nothing; try_from would give an Err that can't be.
        Ok(next) => 256 * ((next - at) as u32),
        Err(refusal) => u32::from(refusal.number()),
    }
}

// What was found of a slip above the number, `at` being where it was read. With 15 there is nothing more: its offset is the slice's length.
pub(crate) fn of_found(at: usize, x: Result<SlipRead, NoSlip>) -> u64
    requires { FoundFits at (found_said x) }
    ensures { result ≡ found_code at (found_said x) }
{
    // `as`: no u64 is From<usize>.
    match x {
        Ok(slip) => {
            let answer = u64::from(of_reading(slip.reading));
            let low = 256 * ((slip.next - at) as u64) + 65536 * (slip.block as u64);
            low + 4294967296 * answer
        }
        Err(
            NoSlip {
                refusal: Refusal::SlipCutOff,
                ..
            },
        ) => u64::from(Refusal::SlipCutOff.number()),
        Err(none) => u64::from(none.refusal.number()) + 256 * ((none.at - at) as u64),
    }
}

// The reading that the parts of a code tell, whether or not it is the code of one. 11 is no `Refusal`: the card comes with it.
pub(crate) fn reading_in(c: u32) -> Reading
    ensures { reading_answer result ≡ reading_in c }
{
    match c.to_le_bytes() {
        [0, 0, ..] => Ok(Kind::Clean),
        [0, 1, _, n] => Ok(Kind::Chips(n)),
        [0, _, card, n] => Ok(Kind::OneCard(card, n)),
        [11, _, card, _] => Err(Fault::Several(card)),
        [number, ..] => Err(Fault::Refused(number)),
    }
}
