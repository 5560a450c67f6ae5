// Arithmetic of the field of 256 elements.
#![tactic(auto)]

mod table;

ghost use Rattle.std.specs.Prelude.{◌≡◌};
ghost use Rattle.field.specs.Field.{◌⊕◌, ◌·◌};

// The sum.
pub fn add(a: u8, b: u8) -> u8
    ensures { result ≡ a ⊕ b }
{
    a ^ b
}

// x times a: a shift, a test of the top bit, and the mask of the modulus below its top bit.
fn times_x(a: u8) -> u8
    ensures { result ≡ 2 · a }
{
    let shifted = a << 1;
    if a & 0x80 == 0 {
        shifted
    } else {
        shifted ^ 0x1D
    }
}

// The product, in eight rounds: one for each digit of b, from the lowest.
pub fn mul(a: u8, b: u8) -> u8
    ensures { result ≡ a · b }
{
    let mut x = a;
    let mut y = b;
    let mut r: u8 = 0;
    for _ in 0..8u8 {
        if y & 1 == 1 {
            r ^= x;
        }
        x = times_x(x);
        y >>= 1;
    }
    r
}

// The inverse of a, and 0 for 0, by a table: each entry is shown to be the inverse.
pub fn invert(a: u8) -> u8
    ensures { (a ≡ 0 → result ≡ 0) × ((a ≡ 0 → ⊥) → a · result ≡ 1) }
{
    table::inverses_from(a / 8).to_le_bytes()[usize::from(a % 8)]
}
