// The bank program: 4 mark bytes and a bank on standard input; on standard output what its blocks read as.
// It only reads, has it said, and writes: what is printed is decided in the crate `program`, and proved there for every input.
#![tactic(auto)]

ghost use Rattle.std.specs.Prelude.{OnOk, IfSome};
ghost use Rattle.cabinet.specs.Written.{Written};

use arrayvec::ArrayVec;
use std::io;
use std::io::{Read, Write};

// 4 mark bytes, the largest bank, and one byte by which a larger bank is known: program's proofs/Cut.antt.
const MOST: usize = 46085;

// Reads an input and writes its text, whole. A read that fails is the error, and nothing is written; so is a write that fails, and maybe a part
// of the text is written.
fn print_reading<R: Read + Drop, W: Write>(from: R, to: &mut W) -> io::Result<()>
    ensures { IfSome (R.remaining from) (λ input. OnOk result (Written input (W.contents to.old) (W.contents to.new))) }
{
    let mut input = ArrayVec::<u8, MOST>::new();
    // `as`: no u64 is From<usize>.
    io::copy(&mut from.take(MOST as u64), &mut input)?;
    let mut out = [0u8; 16384];
    let said = program::say(&input, &mut out);
    to.write_all(&out[..said])
}

fn main(rt: HostRuntime) -> io::Result<()> {
    print_reading(rt.stdin(), &mut rt.stdout())
}
