// What a reading of a block says, and how many further chips are allowed with no card marked. The definitions are in specs/, and what
// follows of them in proofs/.
#![tactic(auto)]

ghost use Rattle.std.specs.Prelude.{◌≡◌};
ghost use Rattle.answer.specs.Answer.{refusal_number};
ghost use Rattle.reading.specs.Allowed.{further};
ghost use Rattle.reading.specs.declared.Fault.TheVariants.{Refused};

use answer::Refusal;

// How a block was corrected, n being the number of bytes changed.
#[derive(Clone, Copy)]
pub enum Kind {
    Clean,
    // n
    Chips(u8),
    // the card, n
    OneCard(u8, u8),
}

// Why a block was not corrected.
#[derive(Clone, Copy)]
pub enum Fault {
    // 11: more than one lawful block differs from the one read as the marks allow. The card is the lowest of which a change, with one of
    // marked chips, reaches a lawful block.
    Several(u8),
    // The number of the refusal; 10: no lawful block does. It stays a number, as a reading that is handed in may have any: crate slip's `write`
    // refuses those that no reading gives.
    Refused(u8),
}

// What a reading of a block says.
pub type Reading = Result<Kind, Fault>;

impl From<Refusal> for Fault {
    ghost from_gives = { λ r fault. fault ≡ Refused (refusal_number r) };

    fn from(r: Refusal) -> Fault {
        Fault::Refused(r.number())
    }
}

// How many further chips the chip kind allows under u chip marks and no card mark.
pub fn further(u: u8) -> u8
    ensures { result ≡ further u }
{
    u8::from(u < 2)
}
