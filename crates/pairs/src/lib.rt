// Words of eight bytes as polynomials, and pairs of bytes in a word: their values at x and at x squared, each by the field's modulus.
#![tactic(auto)]

ghost use Rattle.std.specs.Prelude.{◌≡◌, ◌/◌, ◌%◌, ◌^◌};
ghost use Rattle.pairs.specs.Words.{byte_of, at_both, reduced};

// The byte of a word that begins at digit k; past its end that is 0. `as`, behind a mask: what is cut off is what is not asked for.
pub fn part(u: u64, k: u64) -> u8
    ensures { result ≡ u / 2 ^ k % 2 ^ 8 }
{
    if k > 63 {
        return 0;
    }
    ((u >> k) & 0xff) as u8
}

// ---- two values, 32 digits apart
// Two polynomials of degree 21 at most, 32 digits apart, each by the modulus x ^ 8 + x ^ 4 + x ^ 3 + x ^ 2 + 1: it goes into x ^ 8
// 1 + x ^ -4 + x ^ -5 + x ^ -6 + x ^ -10 + x ^ -13 + .. times. Digits 22 to 31 of each are not looked at.
pub fn reduce_pair(v: u64) -> u64
    ensures { result ≡ reduced v }
{
    let h = (v >> 8) & 0x00003fff00003fff;
    let a = (h ^ (h >> 3)) >> 4;
    let b = (h ^ a) >> 1;
    let c = (h ^ b) >> 1;
    let q = (h ^ ((h ^ c) >> 4)) & 0x000000ff000000ff;
    let d = (q ^ (q << 1)) << 1;
    (v ^ q ^ ((q ^ d) << 2)) & 0x000000ff000000ff
}

// The word's bytes as a polynomial, at x in digits 0 to 31 and at x squared from digit 32 on. Neighbours are added, the upper one shifted
// by 1, then pairs by 2, then fours by 4; at x squared twice as far.
pub fn pair(u: u64) -> u64
    ensures { result ≡ at_both u }
{
    let even = u & 0x00ff00ff00ff00ff;
    let odd = (u >> 8) & 0x00ff00ff00ff00ff;
    let one = even ^ (odd << 1);
    let two = even ^ (odd << 2);
    let pairs = (one ^ (one >> 14)) & 0x0000ffff0000ffff;
    let fours = (two ^ (two >> 12)) & 0x0000ffff0000ffff;
    let v = ((pairs ^ (pairs >> 28)) & 0xffffffff) ^ ((fours ^ (fours >> 24)) << 32);
    reduce_pair(v)
}

// The first of a pair; of label sums, that of the labels. Two functions of a line, as callers read by their names: one of both would take a
// number for which, and say no more than `part`.
#[tactic(auto, unfolding(crate::specs::Words::byte_of))]
pub fn once(v: u64) -> u8
    ensures { result ≡ byte_of v 0 }
{
    part(v, 0)
}

// The second; that of their squares.
#[tactic(auto, unfolding(crate::specs::Words::byte_of))]
pub fn squared(v: u64) -> u8
    ensures { result ≡ byte_of v 4 }
{
    part(v, 32)
}
