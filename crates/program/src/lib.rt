// What the bank program prints of its input: 4 mark bytes, then a bank.
#![tactic(auto)]

ghost use Rattle.std.specs.Prelude.{◌≡◌, ◌≤◌, length};
ghost use Rattle.marks.specs.Marks.{marks_cause};
ghost use Rattle.reading.specs.Reading.{reading_answer};
ghost use Rattle.bank.specs.Calls.{blocks};
ghost use Rattle.lines.specs.Lines.{block_line};
ghost use Rattle.text.specs.Put.{Added};
ghost use Rattle.program.specs.Program.{SayDone};
ghost use Rattle.program.specs.Parts.{InputPut, BankPut, BlocksPut};

use answer::{Refusal, Totals};
use marks::Marks;
use reading::{Fault, Kind, Reading};
use text::Text;

// Puts the text at the front of the output and gives its length. 16,384 bytes have room for every text: a smaller output is left as it is,
// and 0 is given, as `SayDone` has it: the length of what was put, which an Option would only wrap.
pub fn say(input: &[u8], out: &mut [u8]) -> usize
    ensures { SayDone input.now out.old result input.now out.new }
{
    if out.len() < 16384 {
        return 0;
    }
    let mut text = Text { out, at: 0 };
    input_text(&mut text, input);
    text.at
}

// The text of an input.
fn input_text(text: &mut Text, input: &[u8])
    ensures { InputPut input.now text.old text.new }
{
    let Some((start, bank)) = input.split_first_chunk::<4>() else {
        lines::refused_line(text, Refusal::MarkRange.number());
        return;
    };
    let m = marks::from_slice(start);
    match bank::report(bank, m) {
        Ok(totals) => bank_text(text, bank, m, totals),
        Err(refusal) => lines::refused_line(text, refusal.number()),
    }
}

// The text of a bank that a report has counted. What is asked of bank and marks is asked here and in `block_lines` alone, and both come from
// `input_text`: a struct with ghost fields for two private functions would be no plainer.
fn bank_text(text: &mut Text, bank: &[u8], m: Marks, t: Totals)
    requires { (length bank.now ≤ 46080) × (marks_cause m ≡ 0) }
    ensures { BankPut bank.now m t text.old text.new }
{
    // At most 1,024, so that `as` loses nothing; try_from would give an Err that can't be.
    lines::count_line(text, (bank.len() / 45) as u16);
    block_lines(text, bank, m);
    lines::totals_line(text, t);
    lines::sound_line(text, t);
}

// A line for each block that is not clean.
fn block_lines(text: &mut Text, bank: &[u8], m: Marks)
    requires { (length bank.now ≤ 46080) × (marks_cause m ≡ 0) }
    ensures { BlocksPut bank.now m (blocks bank.now) text.old text.new }
{
    let (whole, _) = bank.as_chunks::<45>();
    for (k, b) in whole.iter().enumerate() {
        let r = block::look(b, m);
        // Below 1,024, so that `as` loses nothing. Tried `(0u16..).zip(whole)`, which needs no `as`: such a loop has no index for its proof, and
        // the library's laws of a zip are of two slices.
        block_line(text, k as u16, r);
    }
}

// A clean block has no line.
fn block_line(text: &mut Text, k: u16, r: Reading)
    ensures { Added (block_line k (reading_answer r)) text.old text.new }
{
    match r {
        Ok(Kind::Clean) => {}
        Ok(Kind::Chips(n)) => lines::chips_line(text, k, n),
        Ok(Kind::OneCard(j, n)) => lines::card_line(text, k, j, n),
        Err(Fault::Several(j)) => lines::several_line(text, k, j),
        Err(Fault::Refused(_)) => lines::none_line(text, k),
    }
}
