// When a mark record is lawful.
ghost use Rattle.std.specs.Prelude.{◌≡◌};
ghost use Rattle.marks.specs.Marks.{card_in_range, places_in_range, in_range, two_equal};

use super::Marks;

fn card_in_range(card: Option<u8>) -> bool
    ensures { result ≡ card_in_range card }
{
    card.is_none_or(|j| j < 5)
}

// An unused place holds 255 and nothing else.
fn places_in_range(count: u8, first: u8, second: u8) -> bool
    ensures { result ≡ places_in_range count first second }
{
    match count {
        0 => first == 255 && second == 255,
        1 => first < 45 && second == 255,
        2 => first < 45 && second < 45,
        _ => false,
    }
}

#[tactic(auto, unfolding(crate::specs::Marks::in_range))]
pub(crate) fn in_range(m: Marks) -> bool
    ensures { result ≡ in_range m }
{
    card_in_range(m.card) && places_in_range(m.count, m.first, m.second)
}

// Only two chip marks: with fewer, an unused place says nothing.
#[tactic(auto, unfolding(crate::specs::Marks::two_equal))]
pub(crate) fn two_equal(m: Marks) -> bool
    ensures { result ≡ two_equal m }
{
    m.count == 2 && m.first == m.second
}
