// A slip as bytes of its own, before there is room for it.
ghost use Rattle.reading.specs.Reading.{reading_answer};
ghost use Rattle.slip.specs.Made.{Makes};

use super::limits;
use answer::Refusal;
use reading::{Fault, Kind, Reading};

// The first `size` of these bytes. Not an ArrayVec: a copy of a length that is not constant is a call of memcpy, which firmware need not have.
#[derive(Clone, Copy)]
pub(crate) struct Made {
    pub bytes: [u8; 6],
    pub size: usize,
}

// The slip of block k, read as r; none if a value is out of its range.
#[tactic(auto, unfolding(crate::specs::Slip::slip))]
pub(crate) fn slip(k: usize, r: Reading) -> Result<Made, Refusal>
    ensures { Makes k (reading_answer r) result }
{
    if k >= 1024 {
        return Err(Refusal::NoSuchSlip);
    }
    let [low, high, ..] = k.to_le_bytes();
    let made = match r {
        Ok(Kind::Clean) => Made {
            bytes: [limits::CLEAN, low, high, 0, 0, 0],
            size: 4,
        },
        Ok(Kind::Chips(n @ 1..=2)) => Made {
            bytes: [limits::CHIPS, low, high, 1, n, 0],
            size: 5,
        },
        Ok(Kind::OneCard(j @ 0..=4, n @ 1..=11)) => Made {
            bytes: [limits::ONE_CARD, low, high, 2, j, n],
            size: 6,
        },
        Err(Fault::Several(j @ 0..=4)) => Made {
            bytes: [limits::SEVERAL, low, high, j, 11, 0],
            size: 5,
        },
        Err(Fault::Refused(10)) => Made {
            bytes: [limits::NONE_FITS, low, high, 10, 0, 0],
            size: 4,
        },
        _ => return Err(Refusal::NoSuchSlip),
    };
    Ok(made)
}
