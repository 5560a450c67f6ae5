// Fault slips: one reading of one block in a few bytes, written into a lent slice at an offset, and read from one. Document 02, order 8.
#![tactic(auto)]

mod limits;
mod make;

ghost use Rattle.std.specs.Prelude.{◌≡◌, ◌≢◌, ◌++◌, ◌+◌, ◌*◌, ◌≤◌, length, get_or, take, drop};
ghost use Rattle.reading.specs.Reading.{reading_answer};
ghost use Rattle.slip.specs.Wrote.{wrote_said};
ghost use Rattle.slip.specs.Found.{found_said};
ghost use Rattle.slip.specs.Calls.{WriteSlipDone, ReadSlipDone};
ghost use Rattle.slip.specs.Limits.{limits_of, answer_told};

use answer::Refusal;
use reading::{Fault, Kind, Reading};

// A slip that was read: the block number, its reading, and the offset after the slip.
#[derive(Clone, Copy)]
pub struct SlipRead {
    pub block: usize,
    pub reading: Reading,
    pub next: usize,
}

// Why none was read, and where: the offset of the cause.
#[derive(Clone, Copy)]
pub struct NoSlip {
    pub refusal: Refusal,
    pub at: usize,
}

// Puts the first `size` bytes of a slip where they belong, one by one: a loop would become a call of memcpy, which firmware need not have.
fn put(slip: &[u8; 6], size: usize, slips: &mut [u8], at: usize)
    requires { (4 ≤ size) × (size ≤ 6) × (size ≤ length slip.now) × (at + size ≤ length slips.old) }
    ensures slips_after { slips.new ≡ take at slips.old ++ (take size slip.now ++ drop (at + size) slips.old) }
    ensures slip_value { slip.now ≡ slip.now }
{
    slips[at] = slip[0];
    slips[at + 1] = slip[1];
    slips[at + 2] = slip[2];
    slips[at + 3] = slip[3];
    if size == 4 {
        return;
    }
    slips[at + 4] = slip[4];
    if size == 5 {
        return;
    }
    slips[at + 5] = slip[5];
}

// Writes the slip of block k, read as r, into the slice at an offset. The two come each by itself, as C lends them.
pub fn write(slips: &mut [u8], at: usize, k: usize, r: Reading) -> Result<usize, Refusal>
    ensures { WriteSlipDone slips.old at k (reading_answer r) (wrote_said result) slips.new }
{
    let made = make::slip(k, r)?;
    let size = made.size;
    // The slice's bytes from the offset on are counted: an offset and a slip's length may be more than a number holds.
    let full = at > slips.len() || slips.len() - at < size;
    if full {
        return Err(Refusal::NoRoom);
    }
    put(&made.bytes, size, slips, at);
    Ok(at + size)
}

// Low byte first.
fn block_number(low: u8, high: u8) -> usize
    ensures { result ≡ low + 256 * high }
{
    usize::from(u16::from_le_bytes([low, high]))
}

// The reading that the bytes of a slip tell.
#[tactic(auto, unfolding(crate::specs::Limits::limits_of, crate::specs::Limits::answer_told))]
fn reading_in(slip: &[u8]) -> Reading
    requires { (length slip.now ≡ 1 + (limits_of (get_or slip.now 0 0)).size) × ((limits_of (get_or slip.now 0 0)).size ≢ 0) }
    ensures { reading_answer result ≡ answer_told slip.now }
{
    match slip[0] {
        limits::CLEAN => Ok(Kind::Clean),
        limits::CHIPS => Ok(Kind::Chips(slip[4])),
        limits::ONE_CARD => Ok(Kind::OneCard(slip[4], slip[5])),
        limits::NONE_FITS => Err(Fault::Refused(slip[3])),
        _ => Err(Fault::Several(slip[3])),
    }
}

// Reads the slip in the slice at an offset.
pub fn read(slips: &[u8], at: usize) -> Result<SlipRead, NoSlip>
    ensures { ReadSlipDone slips.now at (found_said result) slips.now }
{
    let n = slips.len();
    let cut_off = NoSlip {
        refusal: Refusal::SlipCutOff,
        at: n,
    };
    if at >= n {
        return Err(cut_off);
    }
    let Some(allowed) = limits::behind(slips[at]) else {
        return Err(NoSlip {
            refusal: Refusal::NoSuchSlip,
            at,
        });
    };
    // Alone, without the size, they take less stack.
    let each = allowed.each;
    let limits = &each[..allowed.size];
    for (i, &(least, most)) in limits.iter().enumerate() {
        let p = at + 1 + i;
        let cut = p >= n;
        if cut {
            return Err(cut_off);
        }
        if !(least..=most).contains(&slips[p]) {
            return Err(NoSlip {
                refusal: Refusal::NoSuchSlip,
                at: p,
            });
        }
    }
    let next = at + 1 + limits.len();
    let slip = &slips[at..next];
    Ok(SlipRead {
        block: block_number(slip[1], slip[2]),
        reading: reading_in(slip),
        next,
    })
}
