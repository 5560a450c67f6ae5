// A bank of blocks in lent bytes: clear, put, get, patrol, and a report over it.
#![tactic(auto)]

ghost use Rattle.std.specs.Prelude.{◌≡◌, ◌+◌, ◌*◌, ◌/◌, ◌≤◌, ◌<◌, length, replicate, OnOk};
ghost use Rattle.answer.specs.Answer.{outcome_answer, cause_number};
ghost use Rattle.answer.specs.Cause.{lowest};
ghost use Rattle.marks.specs.Marks.{marks_cause};
ghost use Rattle.reading.specs.Reading.{reading_answer};
ghost use Rattle.bank.specs.Calls.{blocks, size_causes, place_causes, ClearDone, PutDone, GetDone, PatrolDone, ReportDone, report_answer};
ghost use Rattle.bank.specs.Count.{five, EachAtMost, CountsOne, CountsMore, CountedBlocks};

use answer::Refusal;
use marks::Marks;
use reading::{Fault, Kind, Reading};

// What a report gives.
pub use answer::Totals;

// The length of the largest bank: 1,024 blocks.
const LARGEST: usize = 46080;

// Whether a bank's length serves: 4 where it is 0 bytes, no multiple of 45, or above 46,080.
fn check_size(n: usize) -> Result<(), Refusal>
    ensures { cause_number result ≡ lowest (size_causes n) }
{
    if n == 0 || n % 45 != 0 || n > LARGEST {
        return Err(Refusal::BankLength);
    }
    Ok(())
}

// Whether a bank's length serves, and there is a block of that number: 4, 5. Then block k lies in the bank.
fn check_place(n: usize, k: usize) -> Result<(), Refusal>
    ensures cause { cause_number result ≡ lowest (place_causes n k) }
    ensures room { OnOk result (45 * k + 45 ≤ n) }
{
    check_size(n)?;
    if k >= n / 45 {
        return Err(Refusal::BlockNumber);
    }
    Ok(())
}

// A loop of its own: `fill` takes 16 bytes of stack more than `livomashen_clear` may.
fn zero(bank: &mut [u8])
    ensures { bank.new ≡ replicate (length bank.old) 0 }
{
    for b in bank.iter_mut() {
        *b = 0;
    }
}

// Makes every block 45 zeros.
pub fn clear(bank: &mut [u8]) -> Result<(), Refusal>
    ensures { ClearDone bank.old (outcome_answer result) bank.new }
{
    check_size(bank.len())?;
    zero(bank);
    Ok(())
}

// Puts a record into block k. Here and below the block is cut out where it is lent: a function for it would be one for `&` and one for `&mut`.
pub fn put(bank: &mut [u8], k: usize, rec: &[u8]) -> Result<(), Refusal>
    ensures { PutDone bank.old k rec.now (outcome_answer result) bank.new rec.now }
{
    if rec.len() != 34 {
        return Err(Refusal::RecordLength);
    }
    check_place(bank.len(), k)?;
    let to = 45 * k;
    let end = to + 45;
    store::store(rec, &mut bank[to..end])
}

// Reads block k into the output; the bank is not altered. The positions that are changed are added to the window.
pub fn get(bank: &[u8], k: usize, m: Marks, out: &mut [u8], w: &mut [u8; 64]) -> Reading
    ensures { GetDone bank.now k m out.old w.old (reading_answer result) bank.now out.new w.new }
{
    if out.len() != 45 {
        return Err(Refusal::OutputLength.into());
    }
    check_place(bank.len(), k)?;
    let from = 45 * k;
    let end = from + 45;
    block::read_noted(&bank[from..end], m, out, w)
}

// Reads block k, and puts the corrected bytes back. The positions that are changed are added to the window.
pub fn patrol(bank: &mut [u8], k: usize, m: Marks, w: &mut [u8; 64]) -> Reading
    ensures { PatrolDone bank.old k m w.old (reading_answer result) bank.new w.new }
{
    check_place(bank.len(), k)?;
    let start = 45 * k;
    let end = start + 45;
    block::mend(&mut bank[start..end], m, w)
}

// Counts one reading. Not inlined: one copy of it serves both loops.
#[inline(never)]
fn count(t: &mut Totals, r: Reading)
    requires { EachAtMost 65534 t.old }
    ensures { CountsOne (reading_answer r) t.old t.new }
{
    match r {
        Ok(Kind::Clean) => t.clean += 1,
        Ok(Kind::Chips(_)) => t.chips += 1,
        Ok(Kind::OneCard(_, _)) => t.card += 1,
        Err(Fault::Refused(_)) => t.none += 1,
        Err(Fault::Several(_)) => t.several += 1,
    }
}

// Four blocks are asked together which of them are clean, and those that are not are looked at.
fn count_four(t: &mut Totals, four: &[u8; 180], m: Marks)
    requires { (marks_cause m ≡ 0) × EachAtMost 65531 t.old }
    ensures { CountsMore four.now m 4 t.old t.new }
{
    let mut left = block::four_unclean(four);
    if left == 0 {
        t.clean += 4;
        return;
    }
    for b in four.as_chunks::<45>().0 {
        let clean = left % 2 == 0;
        if clean {
            t.clean += 1;
        } else {
            count(t, block::look(b, m));
        }
        left /= 2;
    }
}

// Four blocks at a time, and then those that are left. What is asked of bank and marks is known in `report`, which alone calls this: a struct
// with ghost fields for this one function would be no plainer.
fn count_blocks(bank: &[u8], m: Marks) -> Totals
    requires { (length bank.now ≤ 46080) × (marks_cause m ≡ 0) }
    ensures { CountedBlocks bank.now m (blocks bank.now) (five result) }
{
    let mut t = Totals::default();
    let (fours, rest) = bank.as_chunks::<180>();
    for four in fours {
        count_four(&mut t, four, m);
    }
    for b in rest.as_chunks::<45>().0 {
        count(&mut t, block::look(b, m));
    }
    t
}

// How many blocks read as clean, chips, card, none and several; nothing is altered.
pub fn report(bank: &[u8], m: Marks) -> Result<Totals, Refusal>
    ensures { ReportDone bank.now m (report_answer result) bank.now }
{
    check_size(bank.len())?;
    marks::check(m)?;
    Ok(count_blocks(bank, m))
}
