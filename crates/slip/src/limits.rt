// What may stand behind a map, byte by byte.
ghost use Rattle.std.specs.Prelude.{◌≡◌};
ghost use Rattle.slip.specs.Limits.{allowed_of};

// The maps that slips have: bit 0 says that the block number stands behind, 1 the kind, 2 the card, 3 n, 4 the refusal. Bytes and no enum, whose
// numbers would have to stand in `behind` again: `EveryTable` of crate constants says of each byte what the one table gives.
pub(crate) const CLEAN: u8 = 3;

pub(crate) const CHIPS: u8 = 11;

pub(crate) const ONE_CARD: u8 = 15;

pub(crate) const NONE_FITS: u8 = 17;

pub(crate) const SEVERAL: u8 = 21;

// The least and the most of each byte behind a map; of the five pairs the first `size` are in use. No slice is lent instead: a table of slices
// is a table of pointers, which the linker writes into, and the archive has no writable data.
#[derive(Clone, Copy)]
pub(crate) struct Allowed {
    pub size: usize,
    pub each: [(u8, u8); 5],
}

// The block number's low and high byte, then kind, card, n and refusal, those of them that the map has. None where no slip has this map.
#[tactic(auto, unfolding(crate::specs::Limits::limits_of))]
pub(crate) fn behind(map: u8) -> Option<Allowed>
    ensures { result ≡ allowed_of map }
{
    match map {
        CLEAN => Some(Allowed {
            size: 3,
            each: [(0, 255), (0, 3), (0, 0), (0, 0), (0, 0)],
        }),
        CHIPS => Some(Allowed {
            size: 4,
            each: [(0, 255), (0, 3), (1, 1), (1, 2), (0, 0)],
        }),
        ONE_CARD => Some(Allowed {
            size: 5,
            each: [(0, 255), (0, 3), (2, 2), (0, 4), (1, 11)],
        }),
        NONE_FITS => Some(Allowed {
            size: 3,
            each: [(0, 255), (0, 3), (10, 10), (0, 0), (0, 0)],
        }),
        SEVERAL => Some(Allowed {
            size: 4,
            each: [(0, 255), (0, 3), (0, 4), (11, 11), (0, 0)],
        }),
        _ => None,
    }
}
