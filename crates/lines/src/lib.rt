// The lines of text that the bank program prints, newline included: specs/Lines.antt. Each function adds a line to a text.
#![tactic(auto)]

ghost use Rattle.std.specs.Prelude.{◌≡◌, ◌++◌};
ghost use Rattle.answer.specs.Answer.{in_chips, in_card, refused, refused_card};
ghost use Rattle.text.specs.Text.{ascii, decimal};
ghost use Rattle.text.specs.Put.{Added};
ghost use Rattle.lines.specs.Lines.{count_line, block_line, totals_line, refused_line, SoundPut};

use answer::Totals;
use text::Text;

// The block number, the word, the other number and the newline.
fn two_numbers_line(text: &mut Text, k: u16, word: &[u8], n: u8)
    ensures { Added (decimal k ++ (word.now ++ (decimal n ++ ascii "\n"))) text.old text.new }
{
    text.number(u64::from(k));
    text.number_line(word, u64::from(n));
}

pub fn count_line(text: &mut Text, n: u16)
    ensures { Added (count_line n) text.old text.new }
{
    text.number_line(b"blocks ", u64::from(n));
}

// Block k reads as corrected in chips, n bytes changed.
pub fn chips_line(text: &mut Text, k: u16, n: u8)
    ensures { Added (block_line k (in_chips n)) text.old text.new }
{
    two_numbers_line(text, k, b" chips ", n);
}

// Block k reads as corrected on card j, n bytes changed.
pub fn card_line(text: &mut Text, k: u16, j: u8, n: u8)
    ensures { Added (block_line k (in_card j n)) text.old text.new }
{
    text.number(u64::from(k));
    text.labelled(b" card ", u64::from(j));
    text.number_line(b" ", u64::from(n));
}

// Block k reads as "none".
pub fn none_line(text: &mut Text, k: u16)
    ensures { Added (block_line k (refused 10)) text.old text.new }
{
    text.number(u64::from(k));
    text.put(b" none\n");
}

// Block k reads as "several", with card j.
pub fn several_line(text: &mut Text, k: u16, j: u8)
    ensures { Added (block_line k (refused_card 11 j)) text.old text.new }
{
    two_numbers_line(text, k, b" several ", j);
}

pub fn totals_line(text: &mut Text, t: Totals)
    ensures { Added (totals_line t.clean t.chips t.card t.none t.several) text.old text.new }
{
    text.labelled(b"clean ", u64::from(t.clean));
    text.labelled(b" chips ", u64::from(t.chips));
    text.labelled(b" card ", u64::from(t.card));
    text.labelled(b" none ", u64::from(t.none));
    text.number_line(b" several ", u64::from(t.several));
}

// The sums are wider than a total, so that none wraps.
pub fn sound_line(text: &mut Text, t: Totals)
    ensures put { SoundPut t.clean t.chips t.card t.none t.several text.old.out.now text.old.at text.new.at text.new.out.now }
    ensures same_out { text.new.out.ghost_name ≡ text.old.out.ghost_name }
{
    let sound = u32::from(t.clean) + u32::from(t.chips) + u32::from(t.card);
    let all = sound + u32::from(t.none) + u32::from(t.several);
    text.number_line(b"sound ", rounding::per_thousand(sound, all));
}

pub fn refused_line(text: &mut Text, n: u8)
    ensures { Added (refused_line n) text.old text.new }
{
    text.number_line(b"refused ", u64::from(n));
}
