// The library for C and Rust: numbers and lent bytes alone. Each export is one call of the library, and its answer as a code.
//
// Marks come in four bytes. Bytes of another length are a record outside its ranges, and so is a chip or a card of any other number.
// Registers come in twelve and the window in 64, as arrays, which have no other length.
#![tactic(auto)]

mod encode;

ghost use Rattle.answer.specs.Answer.{outcome_answer};
ghost use Rattle.capi.specs.Exports.{Marked, RegisterWritten};
ghost use Rattle.capi.specs.Exports.{StoreCoded, ReadCoded, ClearCoded, PutCoded, GetCoded, PatrolCoded, ReportCoded, MarkCoded};
ghost use Rattle.capi.specs.Exports.{WriteCoded, RegisterCoded, InterruptCoded, ClearWindowCoded, ProposeCoded, WriteSlipCoded, ReadSlipCoded};
ghost use Rattle.marks.specs.declared.MarkCall.TheVariants.{PlaceChip, LiftChip, PlaceCard, LiftCard};

use answer::Refusal;
use marks::MarkCall;

#[unsafe(no_mangle)]
pub extern "C" fn livomashen_store(rec: &[u8], out: &mut [u8]) -> u32
    ensures { StoreCoded rec.now out.old result rec.now out.new }
{
    encode::of_outcome(store::store(rec, out))
}

#[unsafe(no_mangle)]
pub extern "C" fn livomashen_read(block: &[u8], m: &[u8], out: &mut [u8]) -> u32
    ensures { ReadCoded block.now m.now out.old result block.now m.now out.new }
{
    encode::of_reading(block::read(block, marks::from_slice(m), out))
}

#[unsafe(no_mangle)]
pub extern "C" fn livomashen_clear(bank: &mut [u8]) -> u32
    ensures { ClearCoded bank.old result bank.new }
{
    encode::of_outcome(bank::clear(bank))
}

#[unsafe(no_mangle)]
pub extern "C" fn livomashen_put(bank: &mut [u8], k: usize, rec: &[u8]) -> u32
    ensures { PutCoded bank.old k rec.now result bank.new rec.now }
{
    encode::of_outcome(bank::put(bank, k, rec))
}

#[unsafe(no_mangle)]
pub extern "C" fn livomashen_get(
    bank: &[u8],
    k: usize,
    m: &[u8],
    out: &mut [u8],
    w: &mut [u8; 64],
) -> u32
    ensures { GetCoded bank.now k m.now out.old w.old result bank.now m.now out.new
        w.new }
{
    encode::of_reading(bank::get(bank, k, marks::from_slice(m), out, w))
}

#[unsafe(no_mangle)]
pub extern "C" fn livomashen_patrol(bank: &mut [u8], k: usize, m: &[u8], w: &mut [u8; 64]) -> u32
    ensures { PatrolCoded bank.old k m.now w.old result bank.new m.now w.new }
{
    encode::of_reading(bank::patrol(bank, k, marks::from_slice(m), w))
}

#[unsafe(no_mangle)]
pub extern "C" fn livomashen_report(bank: &[u8], m: &[u8]) -> u64
    ensures { ReportCoded bank.now m.now result bank.now m.now }
{
    match bank::report(bank, marks::from_slice(m)) {
        Ok(totals) => encode::of_totals(totals),
        Err(refusal) => u64::from(refusal.number()),
    }
}

// Places or lifts a mark in the bytes of a record, which are written where that is done. It was lawful then, so the bytes are four.
fn mark_bytes(m: &mut [u8], call: MarkCall) -> Result<(), Refusal>
    ensures { Marked m.old call (outcome_answer result) m.new }
{
    let mut record = marks::from_slice(m);
    marks::mark(&mut record, call)?;
    m.copy_from_slice(&marks::to_bytes(record));
    Ok(())
}

fn mark(m: &mut [u8], call: MarkCall) -> u32
    ensures { MarkCoded m.old call result m.new }
{
    encode::of_outcome(mark_bytes(m, call))
}

#[unsafe(no_mangle)]
pub extern "C" fn livomashen_place_chip(m: &mut [u8], p: u32) -> u32
    ensures { MarkCoded m.old (PlaceChip p) result m.new }
{
    mark(m, MarkCall::PlaceChip(p))
}

#[unsafe(no_mangle)]
pub extern "C" fn livomashen_lift_chip(m: &mut [u8], p: u32) -> u32
    ensures { MarkCoded m.old (LiftChip p) result m.new }
{
    mark(m, MarkCall::LiftChip(p))
}

#[unsafe(no_mangle)]
pub extern "C" fn livomashen_place_card(m: &mut [u8], j: u32) -> u32
    ensures { MarkCoded m.old (PlaceCard j) result m.new }
{
    mark(m, MarkCall::PlaceCard(j))
}

#[unsafe(no_mangle)]
pub extern "C" fn livomashen_lift_card(m: &mut [u8]) -> u32
    ensures { MarkCoded m.old LiftCard result m.new }
{
    mark(m, MarkCall::LiftCard)
}

// Writes a register, by its address, in twelve bytes, which a refused write leaves alone.
fn write_bytes(
    r: &mut [u8; 12],
    a: u32,
    v: u8,
    bank: &mut [u8],
    out: &mut [u8],
    w: &mut [u8; 64],
) -> Result<(), Refusal>
    ensures { RegisterWritten r.old a v bank.old out.old w.old (outcome_answer result) r.new bank.new out.new
        w.new }
{
    let mut registers = registers::from_bytes(r);
    registers::write(&mut registers, a, v, bank, out, w)?;
    *r = registers::to_bytes(registers);
    Ok(())
}

#[unsafe(no_mangle)]
pub extern "C" fn livomashen_write_register(
    r: &mut [u8; 12],
    a: u32,
    v: u8,
    bank: &mut [u8],
    out: &mut [u8],
    w: &mut [u8; 64],
) -> u32
    ensures { WriteCoded r.old a v bank.old out.old w.old result r.new bank.new out.new
        w.new }
{
    encode::of_outcome(write_bytes(r, a, v, bank, out, w))
}

// Reads a register, by its address.
#[unsafe(no_mangle)]
pub extern "C" fn livomashen_read_register(r: &[u8; 12], a: u32) -> u32
    ensures { RegisterCoded r.now a result r.now }
{
    encode::of_value(registers::read(registers::from_bytes(r), a))
}

// 1 while the interrupt is raised, else 0.
#[unsafe(no_mangle)]
pub extern "C" fn livomashen_interrupt(r: &[u8; 12]) -> u32
    ensures { InterruptCoded r.now result r.now }
{
    u32::from(registers::interrupt(registers::from_bytes(r)))
}

// Makes a window hold nothing.
#[unsafe(no_mangle)]
pub extern "C" fn livomashen_clear_window(w: &mut [u8; 64]) -> u32
    ensures { ClearWindowCoded result w.new }
{
    window::clear(w);
    encode::of_outcome(Ok(()))
}

// The chip that the window proposes to mark.
#[unsafe(no_mangle)]
pub extern "C" fn livomashen_propose(w: &[u8; 64], m: &[u8]) -> u32
    ensures { ProposeCoded w.now m.now result w.now m.now }
{
    encode::of_proposal(window::propose(w, marks::from_slice(m)))
}

// Writes the slip of block k at an offset, by the code that a reading of it gave. A number that is no reading's code has no slip: 16.
#[unsafe(no_mangle)]
pub extern "C" fn livomashen_write_slip(slips: &mut [u8], at: usize, k: usize, answer: u32) -> u32
    ensures { WriteSlipCoded slips.old at k answer result slips.new }
{
    let r = encode::reading_in(answer);
    if encode::of_reading(r) != answer {
        return u32::from(Refusal::NoSuchSlip.number());
    }
    encode::of_wrote(at, slip::write(slips, at, k, r))
}

// Reads the slip at an offset.
#[unsafe(no_mangle)]
pub extern "C" fn livomashen_read_slip(slips: &[u8], at: usize) -> u64
    ensures { ReadSlipCoded slips.now at result slips.now }
{
    encode::of_found(at, slip::read(slips, at))
}
