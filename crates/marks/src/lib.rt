// The mark record: a card mark and up to two chip marks, placed and lifted one at a time.
//
// Any value that the struct can hold may arrive, and any number may be asked for. A call that is refused leaves the record as it was.
#![tactic(auto)]

mod calls;
mod lawful;

ghost use Rattle.std.specs.Prelude.{◌≡◌, eqb, None, Some};
ghost use Rattle.base.specs.Base.{if};
ghost use Rattle.answer.specs.Answer.{outcome_answer, cause_number};
ghost use Rattle.marks.specs.Marks.{fresh_marks, bytes, marks_in, marks_cause, is_marked};
ghost use Rattle.marks.specs.Mark.{MarkDone};

use answer::Refusal;

// The card mark, if there is one, and the chip places in order of placing; only the first `count` of them are in use. The count stands beside
// the places, and not a slice of them, since any four bytes that C lends are a record.
#[derive(Clone, Copy)]
pub struct Marks {
    pub card: Option<u8>,
    pub count: u8,
    pub first: u8,
    pub second: u8,
}

// What is asked for, as it is asked: a number that is no position and no card is refused, and never cut to a byte.
#[derive(Clone, Copy)]
pub enum MarkCall {
    PlaceChip(u32),
    LiftChip(u32),
    PlaceCard(u32),
    LiftCard,
}

// A record with no mark.
pub fn fresh() -> Marks
    ensures { result ≡ fresh_marks }
{
    calls::no_chip(None)
}

fn card_of_byte(j: u8) -> Option<u8>
    ensures { result ≡ if (eqb j 255) None (Some j) }
{
    (j != 255).then_some(j)
}

// The record in four bytes: card, count, first, second. Bytes of another length are a record outside its ranges.
#[tactic(auto, unfolding(crate::specs::Marks::marks_in, crate::specs::Marks::of_bytes))]
pub fn from_slice(b: &[u8]) -> Marks
    ensures { (result ≡ marks_in b.now) × (b.now ≡ b.now) }
{
    let &[card, count, first, second] = b else {
        return Marks {
            card: None,
            count: 255,
            first: 255,
            second: 255,
        };
    };
    Marks {
        card: card_of_byte(card),
        count,
        first,
        second,
    }
}

// The four bytes of a record. Named, as std names those of numbers: `from` would not say that these are bytes.
pub fn to_bytes(m: Marks) -> [u8; 4]
    ensures { result ≡ bytes m }
{
    [m.card.unwrap_or(255), m.count, m.first, m.second]
}

// Whether the record is lawful, or why not.
#[tactic(auto, unfolding(crate::specs::Marks::marks_cause))]
pub fn check(m: Marks) -> Result<(), Refusal>
    ensures { cause_number result ≡ marks_cause m }
{
    if !lawful::in_range(m) {
        return Err(Refusal::MarkRange);
    }
    if lawful::two_equal(m) {
        return Err(Refusal::EqualMarks);
    }
    Ok(())
}

// Whether chip p is marked.
pub fn is_marked(m: Marks, p: u8) -> bool
    ensures { result ≡ is_marked m p }
{
    calls::has_chip(m, u32::from(p))
}

// Places or lifts a mark.
#[tactic(auto, unfolding(crate::specs::Mark::MarkDone))]
pub fn mark(m: &mut Marks, c: MarkCall) -> Result<(), Refusal>
    ensures { MarkDone m.old c (outcome_answer result) m.new }
{
    calls::check(*m, c)?;
    *m = calls::after(*m, c);
    Ok(())
}
