// How calls answer: what a refusal is, and the totals of a report. Document 01's numbers and values of every answer are in specs/Answer.antt.
#![tactic(auto)]

ghost use Rattle.std.specs.Prelude.{◌≡◌};
ghost use Rattle.answer.specs.Answer.{refusal_number};

// Why a call is refused, each cause with its number. 11 is none of these: it comes with a card, and is a fault of its own, in crate reading.
#[derive(Clone, Copy, PartialEq, Eq)]
pub enum Refusal {
    BlockLength = 1,
    OutputLength = 2,
    RecordLength = 3,
    BankLength = 4,
    BlockNumber = 5,
    // The mark record, or the mark asked for, is outside its ranges.
    MarkRange = 6,
    EqualMarks = 7,
    TooManyMarks = 8,
    NotMarked = 9,
    // No lawful block differs as the marks allow.
    NoLawfulBlock = 10,
    RegisterAddress = 12,
    ReadOnlyRegister = 13,
    UnknownCommand = 14,
    // The slice ends before the slip does.
    SlipCutOff = 15,
    // No slip has that bit or value.
    NoSuchSlip = 16,
    NoRoom = 17,
}

impl Refusal {
    // Its number, as it stands beside the case. No `From`, which would not say that it is that number.
    pub fn number(self) -> u8
        ensures { result ≡ refusal_number self }
    {
        self as u8
    }
}

// How many blocks read as each.
#[derive(Clone, Copy, Default)]
pub struct Totals {
    pub clean: u16,
    pub chips: u16,
    pub card: u16,
    pub none: u16,
    pub several: u16,
}
