// The text that the tables program prints: the powers of g, the logarithms and the labels, each number worked out by products in eight rounds.
#![tactic(auto)]

ghost use Rattle.std.specs.Prelude.{◌≡◌, ◌++◌, ◌+◌, ◌≤◌, ◌<◌, ℕ};
ghost use Rattle.field.specs.Field.{power};
ghost use Rattle.text.specs.Put.{Added};
ghost use Rattle.sheet.specs.Sheet.{log, number_lines, sheet, SheetDone};

use text::Text;

// Puts the text at the front of the output and gives its length, 1,992. A smaller output is left as it is, and 0 is given, as
// `SheetDone` has it: the length of what was put, which an Option would only wrap.
#[tactic(auto, using(crate::proofs::Said::too_small, crate::proofs::Said::all_said))]
pub fn say(out: &mut [u8]) -> usize
    ensures { SheetDone out.old result out.new }
{
    if out.len() < 1992 {
        return 0;
    }
    let mut text = Text { out, at: 0 };
    three_sections(&mut text);
    text.at
}

fn three_sections(text: &mut Text)
    ensures { Added sheet text.old text.new }
{
    section(text, b"powers\n", 0, 255, |k| power(u16::from(k)));
    section(text, b"logs\n", 1, 255, log);
    let label = |p: u8| power(u16::from(p % 9) + 17 * u16::from(p / 9));
    section(text, b"labels\n", 0, 45, label);
}

// The heading, and below it what f gives of n numbers, from the first on, one a line.
fn section<F: Fn(u8) -> u8>(text: &mut Text, heading: &[u8], first: u8, n: u8, f: F)
    ghost values: { ℕ → ℕ }
    requires bytes { first + n ≤ 256 }
    requires callable { F.IsAlwaysCallable f }
    requires gives { (k r : ℕ) → k < 256 → F.post f k r → r ≡ values k }
    ensures { Added (heading.now ++ number_lines values first n) text.old text.new }
{
    text.put(heading);
    for k in 0..n {
        text.number_line(b"", u64::from(f(first + k)));
    }
}

// The k-th power of g, by k products.
#[tactic(auto, using(crate::proofs::Steps::first_power, crate::proofs::Steps::next_power))]
fn power(k: u16) -> u8
    ensures { result ≡ power 2 k }
{
    let mut v = 1;
    for _i in 0..k {
        v = field::mul(2, v);
    }
    v
}

// The logarithm of a: from power to power until it is a; of 0, which is none of them, 255, as the definition of `log` has it.
#[tactic(auto, using(crate::proofs::Steps::first_power, crate::proofs::Steps::next_power, crate::proofs::Steps::found, crate::proofs::Steps::not_found))]
fn log(a: u8) -> u8
    ensures { result ≡ log a }
{
    let mut met = 1;
    for k in 0..255 {
        if met == a {
            return k;
        }
        met = field::mul(2, met);
    }
    255
}
