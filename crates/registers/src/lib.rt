// The corrector as twelve registers: a processor writes a command into byte 0, and the call that it stands for runs on the lent bank,
// output and window. Document 02, order 1.
//
// A write is lent the registers, the other calls take them by value. Bytes 8 to 11 are the mark record itself, so that nothing has to agree
// with it.
#![tactic(auto)]

mod answers;
mod bits;

ghost use Rattle.std.specs.Prelude.{◌≡◌};
ghost use Rattle.answer.specs.Answer.{outcome_answer};
ghost use Rattle.marks.specs.Mark.{MarkDone};
ghost use Rattle.registers.specs.Registers.{fresh_registers, register_bytes, registers_in, raised};
ghost use Rattle.registers.specs.Write.{asked_block, command_said, command_of, after_command, WriteDone, CommandDone, value_said, read_value};

use answer::Refusal;
use marks::{MarkCall, Marks};

// Bytes 0 to 7, and the mark record, which is bytes 8 to 11.
#[derive(Clone, Copy)]
pub struct Registers {
    pub front: [u8; 8],
    pub marks: Marks,
}

// What a command asks of the library.
#[derive(Clone, Copy)]
pub enum Command {
    Get(usize),
    Patrol(usize),
    Mark(MarkCall),
}

// All bytes 0 but the mark record, which is fresh.
pub fn fresh() -> Registers
    ensures { result ≡ fresh_registers }
{
    Registers {
        front: [0; 8],
        marks: marks::fresh(),
    }
}

// The registers in twelve bytes. Named, as std names those of numbers: `from` would not say that these are bytes.
#[tactic(auto, using(crate::proofs::Plain::cells_are), unfolding(crate::specs::Registers::registers_in))]
pub fn from_bytes(b: &[u8; 12]) -> Registers
    ensures { (result ≡ registers_in b.now) × (b.now ≡ b.now) }
{
    Registers {
        // Byte by byte: tried with a copy of the eight, and the exported `livomashen_interrupt` took eight instructions in place of five.
        front: [b[0], b[1], b[2], b[3], b[4], b[5], b[6], b[7]],
        marks: marks::from_slice(&b[8..]),
    }
}

// The twelve bytes of the registers.
pub fn to_bytes(r: Registers) -> [u8; 12]
    ensures { result ≡ register_bytes r }
{
    let mut b = [0; 12];
    b[..8].copy_from_slice(&r.front);
    b[8..].copy_from_slice(&marks::to_bytes(r.marks));
    b
}

// Whether the interrupt is raised: bytes 6 and 7 share a set bit.
#[tactic(auto, unfolding(crate::specs::Registers::raised))]
pub fn interrupt(r: Registers) -> bool
    ensures { result ≡ raised r }
{
    let f = r.front;
    bits::share(f[6], f[7])
}

// The byte at an address. `as`, since usize has no `From<u32>`, and `try_from` would give an Err for addresses that `get` refuses too.
pub fn read(r: Registers, a: u32) -> Result<u8, Refusal>
    ensures { value_said result ≡ read_value r a }
{
    to_bytes(r)
        .get(a as usize)
        .copied()
        .ok_or(Refusal::RegisterAddress)
}

// The block number in bytes 1 and 2, low byte first.
fn asked_block(r: Registers) -> usize
    ensures { result ≡ asked_block r }
{
    let f = r.front;
    usize::from(u16::from_le_bytes([f[1], f[2]]))
}

// What the number of a command asks for, by the bytes that stand in the registers. Lifting the card asks for none.
#[tactic(auto, using(crate::proofs::Commands::unknown), unfolding(crate::specs::Write::command_of))]
fn command_of(r: Registers, v: u8) -> Option<Command>
    ensures { command_said result ≡ command_of r v }
{
    let chip_or_card = u32::from(r.front[3]);
    match v {
        1 => Some(Command::Get(asked_block(r))),
        2 => Some(Command::Patrol(asked_block(r))),
        3 => Some(Command::Mark(MarkCall::PlaceChip(chip_or_card))),
        4 => Some(Command::Mark(MarkCall::PlaceCard(chip_or_card))),
        5 => Some(Command::Mark(MarkCall::LiftChip(chip_or_card))),
        6 => Some(Command::Mark(MarkCall::LiftCard)),
        _ => None,
    }
}

// Puts a command's number into byte 0, its answer into bytes 4 and 5, and its bit into byte 7.
#[tactic(auto, using(crate::proofs::Plain::told_front))]
fn after(r: &mut Registers, v: u8, t: answers::Told)
    ensures { r.new ≡ after_command r.old v t r.old.marks }
{
    r.front[0] = v;
    r.front[4] = t.answer;
    r.front[5] = t.detail;
    r.front[7] |= t.bit;
}

// Not inlined: each of the four commands on marks would have a copy of the whole of it.
#[inline(never)]
fn mark(m: &mut Marks, c: MarkCall) -> Result<(), Refusal>
    ensures { MarkDone m.old c (outcome_answer result) m.new }
{
    marks::mark(m, c)
}

// Runs the command v on the lent bank, output and window. The three come each by itself, as C lends them.
fn run(
    r: &mut Registers,
    v: u8,
    bank: &mut [u8],
    out: &mut [u8],
    window: &mut [u8; 64],
) -> Result<(), Refusal>
    ensures { CommandDone r.old v bank.old out.old window.old (outcome_answer result) r.new bank.new
        out.new window.new }
{
    let Some(command) = command_of(*r, v) else {
        return Err(Refusal::UnknownCommand);
    };
    let told = match command {
        Command::Get(k) => answers::of_reading(bank::get(bank, k, r.marks, out, window)),
        Command::Patrol(k) => answers::of_reading(bank::patrol(bank, k, r.marks, window)),
        Command::Mark(c) => answers::of_outcome(mark(&mut r.marks, c)),
    };
    after(r, v, told);
    Ok(())
}

// Writes v to the byte at an address. Byte 0 runs a command; ones written to byte 7 clear its bits; 4, 5 and 8 to 11 are read only.
pub fn write(
    r: &mut Registers,
    a: u32,
    v: u8,
    bank: &mut [u8],
    out: &mut [u8],
    window: &mut [u8; 64],
) -> Result<(), Refusal>
    ensures { WriteDone r.old a v bank.old out.old window.old (outcome_answer result) r.new bank.new
        out.new window.new }
{
    match a {
        0 => run(r, v, bank, out, window),
        1..=3 | 6 => {
            // `as`, since usize has no `From<u32>`: this a is 6 at most, so that `try_from` would give an Err that can't be.
            r.front[a as usize] = v;
            Ok(())
        }
        7 => {
            r.front[7] = bits::without(r.front[7], v);
            Ok(())
        }
        4..=5 | 8..=11 => Err(Refusal::ReadOnlyRegister),
        _ => Err(Refusal::RegisterAddress),
    }
}
