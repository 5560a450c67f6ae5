// One block: read under marks into an output, mended where it stands, or only looked at; and the record as a part of the caller's output.
#![tactic(auto)]

ghost use Rattle.std.specs.Prelude.{◌≡◌, ◌++◌, ◌+◌, ◌≤◌, length, take, drop};
ghost use Rattle.answer.specs.Answer.{cause_number};
ghost use Rattle.reading.specs.Reading.{reading_answer};
ghost use Rattle.block.specs.Read.{ReadDone, NotedDone, MendDone, LookDone, FourUnclean, is_corrected, record_in};
ghost use Rattle.block.specs.Steps.{lengths_cause, length_cause, clean_under, Corrects};

use answer::Refusal;
use decode::Correction;
use marks::Marks;
use reading::{Fault, Kind, Reading};

// Whether a block's length lets it be read: 1.
fn check_length(n: usize) -> Result<(), Refusal>
    ensures { cause_number result ≡ length_cause n }
{
    if n != 45 {
        return Err(Refusal::BlockLength);
    }
    Ok(())
}

// Whether the lengths let a block be read into an output: 1, 2.
fn check_lengths(n: usize, o: usize) -> Result<(), Refusal>
    ensures { cause_number result ≡ lengths_cause n o }
{
    check_length(n)?;
    if o != 45 {
        return Err(Refusal::OutputLength);
    }
    Ok(())
}

// What a clean block reads as: the marks are asked of it here, of any other by the decoder. Not inlined: the record would be kept in registers
// while the sums are made, which takes 48 bytes of stack.
#[inline(never)]
fn clean_under(m: Marks) -> Reading
    ensures { reading_answer result ≡ clean_under m }
{
    marks::check(m)?;
    Ok(Kind::Clean)
}

// Copies sixteen bytes from a place on, by way of sixteen of its own: they cannot be those that are written, so that all are moved at once.
fn copy_sixteen(from: &[u8; 45], to: &mut [u8; 45], start: usize)
    requires { start + 16 ≤ 45 }
    ensures { to.new ≡ take start to.old ++ (take 16 (drop start from.now) ++ drop (start + 16) to.old) }
{
    let end = start + 16;
    let mut piece = [0u8; 16];
    piece.copy_from_slice(&from[start..end]);
    to[start..end].copy_from_slice(&piece);
}

// Copies a block in three moves, the last of which goes over three bytes again: a copy of 45 bytes would be a call of memcpy, which
// firmware need not have.
fn copy_block(from: &[u8; 45], to: &mut [u8; 45])
    ensures { (to.new ≡ from.now) × (from.now ≡ from.now) }
{
    copy_sixteen(from, to, 0);
    copy_sixteen(from, to, 16);
    copy_sixteen(from, to, 29);
}

// A block with the sums s, decoded; where it is corrected, the output takes it.
fn correct(
    received: &[u8; 45],
    s: sums::Sums,
    m: Marks,
    out: &mut [u8; 45],
) -> Result<Correction, Fault>
    ensures { Corrects received.now s m out.old result received.now out.new }
{
    // no `?`, here as below: it keeps a correction several times, together as many bytes as a block, which order 4 of document 02 rules out
    let d = decode::decode(s, m);
    let Ok(correction) = &d else {
        return d;
    };
    copy_block(received, out);
    correction.apply(out);
    d
}

// Reads 45 bytes under marks; the output is written only where the block is corrected. Of a block that is not clean the decoder asks the
// marks, here as in the three functions below: asked before the sums, they were asked twice.
pub fn read(received: &[u8], m: Marks, out: &mut [u8]) -> Reading
    ensures { ReadDone received.now m out.old (reading_answer result) received.now out.new }
{
    check_lengths(received.len(), out.len())?;
    let block = received.as_array().unwrap();
    let output = out.as_mut_array().unwrap();
    let s = sums::of_block(received);
    if sums::is_zero(s) {
        marks::check(m)?;
        copy_block(block, output);
        return Ok(Kind::Clean);
    }
    // by a match, as below: a closure handed to `map` would want a contract of its own
    match correct(block, s, m, output) {
        Ok(made) => Ok(made.kind),
        Err(unmade) => Err(unmade),
    }
}

// The same, and the positions that are changed are added to a window. A clean block changes none. Not one function with `read`: a window that
// may be none would be asked for at each call.
pub fn read_noted(received: &[u8], m: Marks, out: &mut [u8], w: &mut [u8; 64]) -> Reading
    ensures { NotedDone received.now m out.old w.old
        (reading_answer result) received.now out.new w.new }
{
    check_lengths(received.len(), out.len())?;
    let block = received.as_array().unwrap();
    let output = out.as_mut_array().unwrap();
    let s = sums::of_block(received);
    if sums::is_zero(s) {
        marks::check(m)?;
        copy_block(block, output);
        return Ok(Kind::Clean);
    }
    match correct(block, s, m, output) {
        Ok(noted) => {
            window::add(w, noted.changed());
            Ok(noted.kind)
        }
        Err(fault) => Err(fault),
    }
}

// Reads 45 bytes under marks, puts the corrected ones in their place, and adds the positions that are changed to a window.
pub fn mend(block: &mut [u8], m: Marks, w: &mut [u8; 64]) -> Reading
    ensures { MendDone block.old m w.old (reading_answer result) block.new w.new }
{
    check_length(block.len())?;
    let s = sums::of_block(block);
    if sums::is_zero(s) {
        return clean_under(m);
    }
    match decode::decode(s, m) {
        Ok(made) => {
            made.apply(block);
            window::add(w, made.changed());
            Ok(made.kind)
        }
        Err(unread) => Err(unread),
    }
}

// Reads 45 bytes under marks, and writes nothing.
pub fn look(block: &[u8], m: Marks) -> Reading
    ensures { LookDone block.now m (reading_answer result) block.now }
{
    check_length(block.len())?;
    let s = sums::of_block(block);
    if sums::is_zero(s) {
        return clean_under(m);
    }
    match decode::decode(s, m) {
        Ok(seen) => Ok(seen.kind),
        Err(unseen) => Err(unseen),
    }
}

// Which of four blocks, in 180 bytes, don't read as clean: digit k is 0 exactly where block k does, whatever is marked. Of any other
// length all are said not to.
pub fn four_unclean(b: &[u8]) -> u64
    ensures { FourUnclean b.now result b.now }
{
    sums::built_in::four_left(b)
}

// Whether there is a record in the output.
fn was_corrected(r: Reading) -> bool
    ensures { result ≡ is_corrected (reading_answer r) }
{
    r.is_ok()
}

// The record: the first 34 bytes of that same output where the reading is corrected, else an empty part of it, as document 01 asks: no Option.
pub fn record_part<'a>(out: &'a [u8], r: Reading) -> &'a [u8]
    ensures { (result.now ≡ record_in out.now (reading_answer r)) × (result.ref_ptr ≡ out.entry.ref_ptr) × (out.now ≡ out.now) }
{
    if out.len() == 45 && was_corrected(r) {
        return &out[..34];
    }
    &out[..0]
}
