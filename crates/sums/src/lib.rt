// The eleven sums of a block: nine of chips, and two of labels times bytes.
//
// The nine are made eight at a time, a card's chips 0 to 7 as one word and chip 8 apart.
//
// The label sums take no product a byte. A label is kept as a word with one of its eight binary digits in each byte, so that byte times
// word, summed over the positions, gathers in byte k the bytes whose label has digit k. A label sum is then that word's eight bytes as a
// polynomial, at x for the labels and at x squared for their squares; the two are worked out together, as a pair of bytes 32 digits apart
// (crate pairs).
//
// What holds for the built-in labels alone is in built_in.rt.
#![tactic(auto)]

ghost use Rattle.std.specs.Prelude.{◌≡◌, ℕ, ◌+◌, ◌*◌, ◌<◌, ◌≤◌, ◌^◌, length, get_or};
ghost use Rattle.field.specs.Field.{sum};
ghost use Rattle.code.specs.Block.{byte};
ghost use Rattle.code.specs.Labels.{built_in};
ghost use Rattle.pairs.specs.Words.{spread, paired, at_both};
ghost use Rattle.sums.specs.Sums.{rows_of, all_zero, chip_sum, Holds, RowsWord, SumsOver, BlockSums, RecordSums};

pub mod built_in;
mod words;

// The row of chip i in byte i of `low`, of chip 8 in `high`; the sum of label times byte, and of label squared times byte.
#[derive(Clone, Copy, Default)]
pub struct Sums {
    pub low: u64,
    pub high: u8,
    pub once: u8,
    pub squared: u8,
}

// The two label sums as a pair.
pub fn both(s: Sums) -> u64
    ensures { result ≡ paired s.once s.squared }
{
    u64::from(s.once) ^ (u64::from(s.squared) << 32)
}

// ---- words
// Eight bytes from a place on as a word, the first lowest: one load.
fn word(b: &[u8], at: usize) -> u64
    requires { at + 8 ≤ length b.now }
    ensures { Holds (byte b.now) at result }
{
    u64::from_le_bytes(*b[at..at + 8].as_array().unwrap())
}

// A block's rows of eight chips from chip i on.
fn rows_from(b: &[u8; 45], i: usize) -> u64
    requires { i ≤ 1 }
    ensures { RowsWord (byte b.now) i result }
{
    word(b, i) ^ word(b, 9 + i) ^ word(b, 18 + i) ^ word(b, 27 + i) ^ word(b, 36 + i)
}

// ---- a record's words
// Its bytes of card 3 from chip i on, and 0 from chip 7 on: the record ends there.
#[tactic(auto, using(crate::proofs::Begun::third))]
fn third_card(rec: &[u8; 34], i: usize) -> u64
    requires { i < 7 }
    ensures { Holds (byte rec.now) (27 + i) result }
{
    word(rec, 26) >> (8 + 8 * i)
}

// Its sums of eight chips from chip i on.
fn sums_from(rec: &[u8; 34], i: usize) -> u64
    requires { i ≤ 1 }
    ensures { Holds (chip_sum rec.now) i result }
{
    word(rec, i) ^ word(rec, 9 + i) ^ word(rec, 18 + i) ^ third_card(rec, i)
}

// ---- the sums
// The rows' words of chips 0 to 7 and of chips 1 to 8, and the label sums as a pair.
fn with_pair(low: u64, high: u64, v: u64) -> Sums
    ensures { (b row : ℕ → ℕ) (u : ℕ) → ((p : ℕ) → b p < 2 ^ 8) → u ≡ sum 45 (λ p. b p * get_or (spread built_in) p 0)
        → Holds row 0 low → Holds row 1 high → v ≡ at_both u → SumsOver built_in b row result }
{
    Sums {
        low,
        high: pairs::part(high, 56),
        once: pairs::once(v),
        squared: pairs::squared(v),
    }
}

// The sums of 45 bytes under the built-in labels; of any other length all zeros.
pub fn of_block(block: &[u8]) -> Sums
    ensures { BlockSums block.now result block.now }
{
    let Some(b) = block.as_array() else {
        return Sums::default();
    };
    let v = pairs::pair(built_in::gather_block(b));
    with_pair(rows_from(b, 0), rows_from(b, 1), v)
}

// The sums of a record of 34 bytes under the built-in labels: its nine chip sums, and the label sums of the block that has them as card 4
// and zeros for bytes 34 and 35. Of any other length all zeros.
pub fn of_record(rec: &[u8]) -> Sums
    ensures { RecordSums rec.now result rec.now }
{
    let Some(r) = rec.as_array() else {
        return Sums::default();
    };
    let v = pairs::pair(built_in::gather_record(r));
    with_pair(sums_from(r, 0), sums_from(r, 1), v)
}

// Whether all eleven are 0: one test. A derived equality asks each field, which takes five instructions more, and a clean patrol, which is
// held to 275, has none to spare.
#[tactic(auto, using(crate::proofs::Zero::or_zero))]
pub fn is_zero(s: Sums) -> bool
    ensures { result ≡ all_zero s }
{
    (s.low | u64::from(s.high) | u64::from(s.once) | u64::from(s.squared)) == 0
}

// The nine rows, by chips.
#[tactic(auto, unfolding(pairs::specs::Words::byte_of))]
pub fn rows(s: Sums) -> [u8; 9]
    ensures { result ≡ rows_of s }
{
    let [a, b, c, d, e, f, g, h] = s.low.to_le_bytes();
    [a, b, c, d, e, f, g, h, s.high]
}
