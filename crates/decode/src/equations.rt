// One card's equations: from the two sums of its reduced matrix to the change that reaches a lawful block.
ghost use Rattle.std.specs.Prelude.{◌≡◌, true, ◌≢◌, [], ◌∷◌, ◌%◌, ◌<◌, get_or, set};
ghost use Rattle.field.specs.Field.{◌⊕◌, ◌·◌};
ghost use Rattle.code.specs.Labels.{entry, LabelSet};
ghost use Rattle.code.specs.Reach.{Beside};
ghost use Rattle.decode.specs.Equations.{fits_by, rows_only, Solves, chips_off, Further};

use crate::chips::OffCard;

// The rows that card `card` takes, and the two sums of its reduced matrix, which the labels make.
#[derive(Clone, Copy)]
pub(crate) struct Equations<'a> {
    pub(crate) labels: &'a [u8; 45],
    pub(crate) rows: [u8; 9],
    pub(crate) once: u8,
    pub(crate) squared: u8,
    pub(crate) card: u8,
    ghost of_card: { card < 5 },
}

fn divide(s: u8, d: u8) -> u8
    ensures { d ≢ 0 → d · result ≡ s }
{
    field::mul(s, field::invert(d))
}

// The rows after e is added at chip p.
fn bumped(mut rows: [u8; 9], p: u8, e: u8) -> [u8; 9]
    ensures { result ≡ set rows (p % 9) (get_or rows (p % 9) 0 ⊕ e) }
{
    let i = usize::from(p % 9);
    rows[i] = field::add(rows[i], e);
    rows
}

// Card j takes the rows, and no further chip is changed.
pub(crate) fn alone(rows: [u8; 9], j: u8) -> change::Change
    ensures { result ≡ rows_only rows j }
{
    change::Change {
        card: j,
        rows,
        ..change::no_change()
    }
}

// The chips off the card come as an argument, and that they can be found beside it is asked of each method: as a field with this fact `with_one`
// and `with_two` would ask it of their chips all the same.
impl Equations<'_> {
    // Chip p's entry in the card's reduced matrix.
    fn entry_at(&self, p: u8) -> u8
        requires { p < 45 }
        ensures { result ≡ entry self.now.labels.now self.now.card p }
    {
        let at = usize::from(p);
        let own = 9 * usize::from(self.card) + at % 9;
        field::add(self.labels[at], self.labels[own])
    }

    // One further chip: the quotient of the first sum and its entry is what it takes.
    pub(crate) fn with_one(&self, p: u8) -> change::Change
        requires off { Beside self.now.card (p ∷ []) }
        requires fit { self.now.squared ≡ entry self.now.labels.now self.now.card p · self.now.once }
        ensures { Solves self.now.labels.now self.now.rows self.now.card (p ∷ []) self.now.once self.now.squared result }
    {
        let e = divide(self.once, self.entry_at(p));
        let added = bumped(self.rows, p, e);
        change::Change {
            p,
            e,
            ..alone(added, self.card)
        }
    }

    // Two further chips: two columns are independent, so there is always one solution.
    fn with_two(&self, p: u8, q: u8) -> change::Change
        requires { Beside self.now.card (p ∷ q ∷ []) }
        ensures { Solves self.now.labels.now self.now.rows self.now.card (p ∷ q ∷ []) self.now.once self.now.squared result }
    {
        let c = self.entry_at(p);
        let d = self.entry_at(q);
        // chip p's share of the first sum
        let share = divide(
            field::add(self.squared, field::mul(d, self.once)),
            field::add(c, d),
        );
        let e = divide(share, c);
        let f = divide(field::add(self.once, share), d);
        let first = bumped(self.rows, p, e);
        let both = bumped(first, q, f);
        change::Change {
            card: self.card,
            rows: both,
            p,
            e,
            q,
            f,
        }
    }

    // Whether the card and the chips w reach a lawful block.
    pub(crate) fn fits(&self, w: OffCard) -> bool
        requires { Beside self.now.card (chips_off w) }
        ensures { result ≡ fits_by self.now.labels.now self.now.card (chips_off w) self.now.once self.now.squared }
    {
        match w {
            OffCard::Zero => self.once == 0 && self.squared == 0,
            OffCard::One(p) => self.squared == field::mul(self.entry_at(p), self.once),
            OffCard::Two(_, _) => true,
        }
    }

    // The change by which they do.
    pub(crate) fn solve(&self, w: OffCard) -> change::Change
        requires off { Beside self.now.card (chips_off w) }
        requires fit { fits_by self.now.labels.now self.now.card (chips_off w) self.now.once self.now.squared ≡ true }
        ensures { Solves self.now.labels.now self.now.rows self.now.card (chips_off w) self.now.once self.now.squared result }
    {
        match w {
            OffCard::Zero => alone(self.rows, self.card),
            OffCard::One(p) => self.with_one(p),
            OffCard::Two(p, q) => self.with_two(p, q),
        }
    }

    // The only further chip that can be wrong beside the card, where the first sum is not 0: the sums are a multiple of its column.
    pub(crate) fn further_chip(&self) -> Option<u8>
        requires labels { LabelSet self.now.labels.now }
        requires first { self.now.once ≢ 0 }
        ensures { Further self.now.labels.now self.now.card self.now.once self.now.squared result }
    {
        // its entry; the card's own are 0. The loops are labelled, as the form of this search is named; the one chip that there can be leaves both
        let v = divide(self.squared, self.once);
        if v == 0 {
            return None;
        }
        'chips: for i in 0u8..9 {
            let wanted = field::add(self.labels[9 * usize::from(self.card) + usize::from(i)], v);
            'cards: for other in 0u8..5 {
                let p = 9 * other + i;
                if self.labels[usize::from(p)] == wanted {
                    return Some(p);
                }
            }
        }
        None
    }
}
