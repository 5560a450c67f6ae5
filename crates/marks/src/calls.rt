// What refuses a call that places or lifts a mark, and the record after one that nothing refuses.
//
// Functions of a record and a call: as methods of the record, `m.too_many(c)` for `too_many(m, c)`, they would take the call beside it just so.
ghost use Rattle.std.specs.Prelude.{◌≡◌, true, [], ◌∷◌};
ghost use Rattle.answer.specs.Answer.{cause_number};
ghost use Rattle.marks.specs.Marks.{is_marked};
ghost use Rattle.marks.specs.Mark.{of_chips, marked, card_is, asked_in_range, too_many, absent, mark_cause};
ghost use Rattle.marks.specs.declared.MarkCall.TheVariants.{PlaceChip, LiftChip};

use super::{MarkCall, Marks};
use answer::Refusal;

// Whether the number p, however large, is that of a marked chip. A place past the count is not looked at.
#[tactic(auto, unfolding(crate::specs::Marks::is_marked))]
pub(crate) fn has_chip(m: Marks, p: u32) -> bool
    ensures { result ≡ is_marked m p }
{
    match m.count {
        0 => false,
        1 => p == u32::from(m.first),
        _ => p == u32::from(m.first) || p == u32::from(m.second),
    }
}

// Whether the number j, however large, is that of the marked card.
fn card_is(card: Option<u8>, j: u32) -> bool
    ensures { result ≡ card_is card j }
{
    card.is_some_and(|i| u32::from(i) == j)
}

fn asked_in_range(c: MarkCall) -> bool
    ensures { result ≡ asked_in_range c }
{
    match c {
        MarkCall::PlaceChip(p) => p < 45,
        MarkCall::LiftChip(p) => p < 45,
        MarkCall::PlaceCard(j) => j < 5,
        MarkCall::LiftCard => true,
    }
}

// A third chip, or another card while one is marked. A mark that is there is neither.
fn too_many(m: Marks, c: MarkCall) -> bool
    ensures { result ≡ too_many m c }
{
    match c {
        MarkCall::PlaceChip(p) => m.count == 2 && !has_chip(m, p),
        MarkCall::LiftChip(_) => false,
        MarkCall::PlaceCard(j) => m.card.is_some() && !card_is(m.card, j),
        MarkCall::LiftCard => false,
    }
}

// The mark to lift is not there.
fn absent(m: Marks, c: MarkCall) -> bool
    ensures { result ≡ absent m c }
{
    match c {
        MarkCall::PlaceChip(_) => false,
        MarkCall::LiftChip(p) => !has_chip(m, p),
        MarkCall::PlaceCard(_) => false,
        MarkCall::LiftCard => m.card.is_none(),
    }
}

// Whether the call may be made, or why not: the numbers in their order. 6 is also that of what is asked for, 7 the record's own.
#[tactic(auto, unfolding(crate::specs::Mark::mark_cause, crate::specs::Marks::marks_cause))]
pub(crate) fn check(m: Marks, c: MarkCall) -> Result<(), Refusal>
    ensures { cause_number result ≡ mark_cause m c }
{
    if !asked_in_range(c) {
        return Err(Refusal::MarkRange);
    }
    super::check(m)?;
    if too_many(m, c) {
        return Err(Refusal::TooManyMarks);
    }
    if absent(m, c) {
        return Err(Refusal::NotMarked);
    }
    Ok(())
}

pub(crate) fn no_chip(card: Option<u8>) -> Marks
    ensures { result ≡ of_chips card [] }
{
    Marks {
        card,
        count: 0,
        first: 255,
        second: 255,
    }
}

fn one_chip(card: Option<u8>, p: u8) -> Marks
    ensures { result ≡ of_chips card (p ∷ []) }
{
    Marks {
        card,
        count: 1,
        first: p,
        second: 255,
    }
}

// Chip p after the chips there, unless it is one of them. As nothing refuses the call, a chip that is not there has a place.
fn with_chip(m: Marks, p: u8) -> Marks
    requires { mark_cause m (PlaceChip p) ≡ 0 }
    ensures { result ≡ marked m (PlaceChip p) }
{
    if has_chip(m, u32::from(p)) {
        return m;
    }
    if m.count == 0 {
        return one_chip(m.card, p);
    }
    Marks {
        count: 2,
        second: p,
        ..m
    }
}

// Without chip p, which is marked. The second of two moves down where the first is lifted: the places in use stay the first ones.
#[tactic(auto, using(crate::proofs::Chips::lift_only, crate::proofs::Chips::lift_first, crate::proofs::Chips::lift_second))]
fn without_chip(m: Marks, p: u8) -> Marks
    requires { is_marked m p ≡ true }
    ensures { result ≡ marked m (LiftChip p) }
{
    if m.count == 1 {
        return no_chip(m.card);
    }
    if p == m.first {
        return one_chip(m.card, m.second);
    }
    one_chip(m.card, m.first)
}

// The record after a call that nothing refuses: what is asked for is a position or a card, so it fits a byte, and
// `try_from` would give an Err that can't be.
#[tactic(auto, unfolding(crate::specs::Mark::marked))]
pub(crate) fn after(m: Marks, c: MarkCall) -> Marks
    requires { mark_cause m c ≡ 0 }
    ensures { result ≡ marked m c }
{
    match c {
        MarkCall::PlaceChip(p) => with_chip(m, p as u8),
        MarkCall::LiftChip(p) => without_chip(m, p as u8),
        MarkCall::PlaceCard(j) => Marks {
            card: Some(j as u8),
            ..m
        },
        MarkCall::LiftCard => Marks { card: None, ..m },
    }
}
