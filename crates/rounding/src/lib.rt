// The per-thousand figure, and the rounding that it takes: specs/Rounding.antt, specs/PerThousand.antt.
#![tactic(auto)]

ghost use Rattle.rounding.specs.Rounding.{Rounds};
ghost use Rattle.rounding.specs.PerThousand.{PerThousand};

use std::cmp::Ordering;

// The result is wider than the arguments, so that it fits for all of them.
pub fn per_thousand(s: u32, n: u32) -> u64
    ensures { PerThousand s n result }
{
    nearest_even(1000 * u64::from(s), u64::from(n))
}

// Of the two whole numbers around a / n the nearer, and at an exact half the even one. Of n = 0 it is 0.
fn nearest_even(a: u64, n: u64) -> u64
    ensures { Rounds a n result }
{
    if n == 0 {
        return 0;
    }
    let below = a / n;
    let rest = a % n;
    // What the rest lacks of a whole: twice the rest might not fit.
    let lacking = n - rest;
    match rest.cmp(&lacking) {
        Ordering::Less => below,
        Ordering::Greater => below + 1,
        Ordering::Equal => below + below % 2,
    }
}
