// Bits of a byte.
ghost use Rattle.std.specs.Prelude.{◌≡◌};
ghost use Rattle.registers.specs.Registers.{share, without_bits};

// Whether some bit is set in both.
#[tactic(auto, using(crate::proofs::Digits::share_is))]
pub(crate) fn share(x: u8, y: u8) -> bool
    ensures { result ≡ share 8 x y }
{
    x & y != 0
}

// Without the bits of v: those that stand in both are turned over.
#[tactic(auto, unfolding(crate::specs::Registers::without_bits))]
pub(crate) fn without(x: u8, v: u8) -> u8
    ensures { result ≡ without_bits x v }
{
    x ^ (x & v)
}
