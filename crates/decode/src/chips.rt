// The marked chips: those off a card, and whether a change is of the chip kind.
ghost use Rattle.std.specs.Prelude.{◌≡◌, ◌&&◌, not, [], ◌∷◌, ◌<◌, leb};
ghost use Rattle.code.specs.Reach.{keep};
ghost use Rattle.marks.specs.Marks.{is_marked, marked_chips};
ghost use Rattle.change.specs.Change.{nonzero};
ghost use Rattle.reading.specs.Allowed.{further};
ghost use Rattle.decode.specs.Equations.{chips_off};
ghost use Rattle.decode.specs.Search.{strays};

// The marked chips off a card: at most two.
#[derive(Clone, Copy)]
pub(crate) enum OffCard {
    Zero,
    One(u8),
    Two(u8, u8),
}

// Chip p, unless it is on card j.
fn one_off(p: u8, j: u8) -> OffCard
    ensures { chips_off result ≡ keep j (p ∷ []) }
{
    if p / 9 == j {
        return OffCard::Zero;
    }
    OffCard::One(p)
}

// The marked chips that are off card j.
pub(crate) fn off_card(m: marks::Marks, j: u8) -> OffCard
    ensures { chips_off result ≡ keep j (marked_chips m) }
{
    let n = m.count;
    let a = m.first;
    let b = m.second;
    if n == 0 {
        return OffCard::Zero;
    }
    if n == 1 {
        return one_off(a, j);
    }
    if b / 9 == j {
        return one_off(a, j);
    }
    if a / 9 == j {
        return one_off(b, j);
    }
    OffCard::Two(a, b)
}

// Whether a row is changed, and its chip p is not marked.
fn is_stray(row: u8, m: marks::Marks, p: u8) -> bool
    ensures { result ≡ (nonzero row && not (is_marked m p)) }
{
    row != 0 && !marks::is_marked(m, p)
}

fn count_strays(d: change::Change, m: marks::Marks) -> u8
    requires { d.card < 5 }
    ensures { result ≡ strays d (marked_chips m) }
{
    let mut n = 0;
    for i in 0u8..9 {
        n += u8::from(is_stray(d.rows[usize::from(i)], m, 9 * d.card + i));
    }
    n
}

// Whether a change of one card and of marked chips is of the chip kind. Not inlined: what counts nine rows at once would keep 48 bytes on the
// stack of the search.
#[inline(never)]
pub(crate) fn of_chip_kind(d: change::Change, m: marks::Marks) -> bool
    requires { d.card < 5 }
    ensures { result ≡ leb (strays d (marked_chips m)) (further m.count) }
{
    count_strays(d, m) <= reading::further(m.count)
}
