// What holds for the built-in labels alone: card 0's are 1, x, .., x ^ 8, and card j's are 152 ^ j times these.
ghost use Rattle.std.specs.Prelude.{◌≡◌, ◌↔◌, ◌*◌, get_or};
ghost use Rattle.field.specs.Field.{◌⊕◌, sum};
ghost use Rattle.code.specs.Block.{byte, Lawful};
ghost use Rattle.code.specs.Labels.{built_in};
ghost use Rattle.pairs.specs.Words.{spread, gathered, at_both};
ghost use Rattle.sums.specs.Maps.{lower, upper, wrapped};
ghost use Rattle.sums.specs.Sums.{taken, next, begun, FourLeft};

use super::{Sums, rows_from, sums_from, third_card, word};

// ---- the word that both label sums come from
// Five cards' words as polynomials with bytes for digits, card j's times 152 ^ j: as 152 ^ 4 = 152 + 1, 152 ^ 2 = 68 + 10 and
// 152 ^ 3 = 10, they are p + 152 q + 68 b + 10 a, with p and q of cards 0 and 1, card 4 added to both, b of card 2 and a of cards 2 and 3.
// The digits 0 to 7, from the words of chips 0 to 7.
fn below(zero: u64, one: u64, two: u64, three: u64, four: u64) -> u64
    ensures { result ≡ lower (zero ⊕ four) (one ⊕ four) two (three ⊕ two) }
{
    let (p, q, b, a) = (zero ^ four, one ^ four, two, three ^ two);
    let t = (b ^ (q << 8)) << 16;
    let t = (q ^ t) << 8;
    let t = (a ^ q ^ t) << 8;
    let t = (b ^ t) << 8;
    p ^ ((a ^ t) << 8)
}

// The digits 8 to 15 of the same, from the words of chips 1 to 8.
fn above(zero: u64, one: u64, two: u64, three: u64, four: u64) -> u64
    ensures { result ≡ upper (zero ⊕ four) (one ⊕ four) two (three ⊕ two) }
{
    let (p, q, b, a) = (zero ^ four, one ^ four, two, three ^ two);
    let t = (a ^ (p >> 8)) >> 8;
    let t = (b ^ t) >> 8;
    let t = (a ^ q ^ t) >> 8;
    let t = (q ^ t) >> 16;
    let t = (b ^ t) >> 8;
    q ^ t
}

// Sixteen digits to eight, by the modulus.
fn wrap(low: u64, h: u64) -> u64
    ensures { result ≡ wrapped low h }
{
    let q = h ^ ((h ^ ((h ^ (h >> 8)) >> 8)) >> 32);
    low ^ q ^ ((q ^ ((q ^ (q << 8)) << 8)) << 16)
}

// The sum of byte times word over a block, without a product. (No function of five words and five for this and the next: two such arrays
// are room for a block, which no function that is lent one may have; and a clean read took 20 instructions more, a store 42.)
pub(crate) fn gather_block(b: &[u8; 45]) -> u64
    ensures { result ≡ sum 45 (λ p. byte b.now p * get_or (spread built_in) p 0) }
{
    let low = below(
        word(b, 0),
        word(b, 9),
        word(b, 18),
        word(b, 27),
        word(b, 36),
    );
    let high = above(
        word(b, 1),
        word(b, 10),
        word(b, 19),
        word(b, 28),
        word(b, 37),
    );
    wrap(low, high)
}

// The same over the block that a record begins: its chip sums are card 4.
pub(crate) fn gather_record(rec: &[u8; 34]) -> u64
    ensures { result ≡ sum 45 (λ p. begun rec.now p * get_or (spread built_in) p 0) }
{
    let low = below(
        word(rec, 0),
        word(rec, 9),
        word(rec, 18),
        third_card(rec, 0),
        sums_from(rec, 0),
    );
    let high = above(
        word(rec, 1),
        word(rec, 10),
        word(rec, 19),
        third_card(rec, 1),
        sums_from(rec, 1),
    );
    wrap(low, high)
}

// ---- the rows on a card
// The rows, each times its word of card j, summed. (By an index: a `zip` has a drop that audit/buffers.py cannot look into.)
fn gather_card(rows: [u8; 9], j: u8) -> u64
    ensures { result ≡ gathered rows (spread built_in) j }
{
    let own = super::words::card_words(j);
    let mut u: u64 = 0;
    for (i, row) in rows.iter().enumerate() {
        u ^= u64::from(*row) * own[i];
    }
    u
}

// What the rows add to both label sums where card j takes them.
pub fn on_card(rows: [u8; 9], j: u8) -> u64
    ensures { result ≡ at_both (gathered rows (spread built_in) j) }
{
    pairs::pair(gather_card(rows, j))
}

// The same for card 0. Its labels are 1, x, .., x ^ 7, so that the word of the rows gathers itself, and x ^ 8 = x ^ 4 + x ^ 3 + x ^ 2 + 1.
pub fn first_card(s: Sums) -> u64
    ensures { result ≡ taken s 0 }
{
    pairs::pair(s.low ^ (u64::from(s.high) * 0x0000000101010001))
}

// From what a card takes to what the next one does: 152 times the one, and 152 squared = 78 times the other, each of degree 14 at most
// before the modulus.
pub fn next_card(v: u64) -> u64
    ensures { result ≡ next v }
{
    let one = v & 0x000000ff;
    let two = v & 0x000000ff00000000;
    let first = (one << 3) ^ (one << 4) ^ (one << 7);
    let second = (two << 1) ^ (two << 2) ^ (two << 3) ^ (two << 6);
    let p = first ^ second;
    let h = (p >> 8) & 0x0000007f0000007f;
    let q = (h ^ ((h ^ ((h ^ (h >> 1)) >> 1)) >> 4)) & 0x000000ff000000ff;
    (p ^ q ^ ((q ^ ((q ^ (q << 1)) << 1)) << 2)) & 0x000000ff000000ff
}

// ---- blocks one after the other
// 0 exactly where a block is lawful: its rows, from chip 0 on and from chip 1 on, and its label sums.
fn left_of(b: &[u8; 45]) -> u64
    ensures { (result ≡ 0) ↔ Lawful built_in b.now }
{
    rows_from(b, 0) | rows_from(b, 1) | pairs::pair(gather_block(b))
}

// Which of four blocks one after the other are not lawful: digit k is 0 exactly where block k is. Of any other length than 180 all are
// said not to be. The loop has no branch and no call that is left, so that it becomes code for two blocks at once. Nothing checks that but
// the benchmark: its rows on reports would be above what is to reach.
pub fn four_left(b: &[u8]) -> u64
    ensures { FourLeft b.now result b.now }
{
    if b.len() != 180 {
        return 15;
    }
    let mut left: u64 = 0;
    for (k, block) in b.as_chunks().0.iter().enumerate() {
        left |= u64::from(left_of(block) != 0) << k;
    }
    left
}
