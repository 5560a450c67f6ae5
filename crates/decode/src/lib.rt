// The reading of a block from its eleven sums, under any marks: a search for the lawful blocks that the marks allow.
//
// With no card marked the five cards are searched, each with the marked chips. A change of the chip kind reaches the only member of S,
// and two cards that are not of the chip kind reach different blocks, so that no block is compared with another. The cards are searched
// from 0 up, so that the first that is found is the lowest. The block itself is not looked at: what is said holds for every block with
// these sums.
#![tactic(auto)]

ghost use Rattle.std.specs.Prelude.{◌≡◌, [], ◌<◌, None, Some};
ghost use Rattle.base.specs.Base.{tally};
ghost use Rattle.code.specs.Labels.{built_in, LabelSet};
ghost use Rattle.marks.specs.Marks.{marked_chips, LawfulMarks};
ghost use Rattle.sums.specs.Sums.{rows_of, taken};
ghost use Rattle.sums.specs.declared.Sums.{Sums};
ghost use Rattle.change.specs.Change.{applied, nonzero_at, weight, Listed};
ghost use Rattle.decode.specs.Search.{SumsAt, Alone, chips_kind, card_kind};
ghost use Rattle.decode.specs.Decode.{change_of, Answers, Decodes};

mod chips;
mod equations;

use answer::Refusal;
use chips::OffCard;
use equations::Equations;
use reading::{Fault, Kind};

// How a block is corrected, and the change by which it is. Several changes can lead to one block, and which of them it is stays in this
// crate: what can be seen of it is what it makes of a block, and which positions it changes.
#[derive(Clone, Copy)]
pub struct Correction {
    pub kind: Kind,
    change: change::Change,
}

impl Correction {
    // Makes the change in a block. What is not 45 bytes is no block, and stays as it is.
    pub fn apply(self, block: &mut [u8])
        ensures { block.new ≡ applied block.old self.change }
    {
        change::apply(block, self.change);
    }

    // The positions that it changes, lowest first.
    pub fn changed(self) -> change::Positions
        ensures { Listed self.change result }
    {
        change::changed(self.change)
    }
}

// The same of whatever `decode` gave. These two stay, since they take a fault too: it changes nothing.
pub fn apply(d: Result<Correction, Fault>, block: &mut [u8])
    ensures { block.new ≡ applied block.old (change_of d) }
{
    if let Ok(correction) = d {
        correction.apply(block);
    }
}

pub fn changed(d: Result<Correction, Fault>) -> change::Positions
    ensures { Listed (change_of d) result }
{
    match d {
        Ok(correction) => correction.changed(),
        Err(_) => change::changed(change::no_change()),
    }
}

fn chips_kind(n: u8) -> Kind
    ensures { result ≡ chips_kind n }
{
    if n == 0 {
        return Kind::Clean;
    }
    Kind::Chips(n)
}

// ---- no card marked
// Whether card j alone reaches a lawful block: what it takes of the label sums is all of them.
fn fits_alone(s: sums::Sums, own: u64, j: u8) -> bool
    requires { (j < 5) × (own ≡ taken s j) }
    ensures { Alone built_in s j result }
{
    own == sums::both(s)
}

// No chip marked either: what a card takes are the rows themselves, so that all cards change as many bytes, and one test of a pair says whether
// it fits. By the search over cards below a bad card takes 1,010 instructions, and is held to 650. Not inlined, as the other two searches are
// not: what one keeps on the stack is not there in another.
#[inline(never)]
fn no_marks(s: sums::Sums) -> Result<Correction, Fault>
    ensures { Answers built_in None [] s result }
{
    let rows = sums::rows(s);
    let n = change::count(equations::alone(rows, 0));
    let mut fitting: Option<u8> = None;
    let mut own = sums::built_in::first_card(s);
    'five: for j in 0u8..5 {
        if fits_alone(s, own, j) {
            if n <= reading::further(0) {
                return Ok(Correction {
                    kind: chips_kind(n),
                    change: equations::alone(rows, j),
                });
            }
            if let Some(lowest) = fitting {
                return Err(Fault::Several(lowest));
            }
            fitting = Some(j);
            // under the built-in labels cards take different amounts, but for 0
            let takes = own != 0;
            if takes {
                break 'five;
            }
        }
        own = sums::built_in::next_card(own);
    }
    let Some(card) = fitting else {
        return Err(Refusal::NoLawfulBlock.into());
    };
    Ok(Correction {
        kind: Kind::OneCard(card, n),
        change: equations::alone(rows, card),
    })
}

// The cards are looked at in turn, each with the marked chips, until two different lawful blocks are found or one by chips: then the labelled
// loop is left, by a return, which needs no flag to tell them apart.
#[inline(never)]
fn over_cards(s: sums::Sums, m: marks::Marks) -> Result<Correction, Fault>
    requires { LawfulMarks m }
    ensures { Answers built_in None (marked_chips m) s result }
{
    let labels = code::labels();
    let rows = sums::rows(s);
    let mut held: Option<change::Change> = None;
    let mut own = sums::built_in::first_card(s);
    'cards: for j in 0u8..5 {
        let e = Equations {
            labels: &labels,
            rows,
            once: field::add(s.once, pairs::once(own)),
            squared: field::add(s.squared, pairs::squared(own)),
            card: j,
        };
        own = sums::built_in::next_card(own);
        let w = chips::off_card(m, j);
        if e.fits(w) {
            let d = e.solve(w);
            if chips::of_chip_kind(d, m) {
                let n = change::count(d);
                return Ok(Correction {
                    kind: chips_kind(n),
                    change: d,
                });
            }
            if let Some(lowest) = held {
                return Err(Fault::Several(lowest.card));
            }
            held = Some(d);
        }
    }
    let Some(d) = held else {
        return Err(Refusal::NoLawfulBlock.into());
    };
    let n = change::count(d);
    Ok(Correction {
        kind: Kind::OneCard(d.card, n),
        change: d,
    })
}

// ---- card j marked
// Not inlined: one copy of it serves the three ways to a change.
#[inline(never)]
fn kind_under(d: change::Change, j: u8) -> Kind
    ensures { result ≡ card_kind j (tally 9 (nonzero_at d.rows)) (weight d) }
{
    let own = change::count(equations::alone(d.rows, j));
    let n = change::count(d);
    if own == 0 {
        return chips_kind(n);
    }
    Kind::OneCard(j, n)
}

// No chip marked off the card: the card alone, or with the one further chip that can be wrong.
fn beside_card(e: Equations) -> Result<Correction, Fault>
    requires { LabelSet e.labels.now }
    ensures { (s : Sums) → e.entry.rows ≡ rows_of s → SumsAt e.entry.labels.now s e.entry.card e.entry.once e.entry.squared
        → Answers e.entry.labels.now (Some e.entry.card) [] s result }
{
    let j = e.card;
    if e.once == 0 {
        if e.squared != 0 {
            return Err(Refusal::NoLawfulBlock.into());
        }
        let d = equations::alone(e.rows, j);
        return Ok(Correction {
            kind: kind_under(d, j),
            change: d,
        });
    }
    let Some(p) = e.further_chip() else {
        return Err(Refusal::NoLawfulBlock.into());
    };
    let d = e.with_one(p);
    Ok(Correction {
        kind: kind_under(d, j),
        change: d,
    })
}

// At most one lawful block is allowed. Which chips of the card itself are marked makes no difference.
#[inline(never)]
fn under_card(s: sums::Sums, m: marks::Marks, j: u8) -> Result<Correction, Fault>
    requires lawful { LawfulMarks m }
    requires card { j < 5 }
    ensures { Answers built_in (Some j) (marked_chips m) s result }
{
    let labels = code::labels();
    let rows = sums::rows(s);
    let own = sums::built_in::on_card(rows, j);
    let once = field::add(s.once, pairs::once(own));
    let squared = field::add(s.squared, pairs::squared(own));
    let w = chips::off_card(m, j);
    // made in each branch: what is lent to `fits` lies in memory, and one for both took 40 instructions more here
    let alone = matches!(w, OffCard::Zero);
    if alone {
        return beside_card(Equations {
            labels: &labels,
            rows,
            once,
            squared,
            card: j,
        });
    }
    let e = Equations {
        labels: &labels,
        rows,
        once,
        squared,
        card: j,
    };
    if e.fits(w) {
        let d = e.solve(w);
        return Ok(Correction {
            kind: kind_under(d, j),
            change: d,
        });
    }
    Err(Refusal::NoLawfulBlock.into())
}

// ---- any marks
// What the sums of a block say under marks, and the change that corrects it. Marks that are not lawful are refused with their number.
pub fn decode(s: sums::Sums, m: marks::Marks) -> Result<Correction, Fault>
    ensures { Decodes s m result }
{
    marks::check(m)?;
    if m.card.is_none() && m.count == 0 {
        return no_marks(s);
    }
    match m.card {
        None => over_cards(s, m),
        Some(j) => under_card(s, m, j),
    }
}
