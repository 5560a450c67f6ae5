// The inverses of 0 to 255, with 0 for 0.
ghost use Rattle.std.specs.Prelude.{◌≡◌, ◌<◌, get_or};
ghost use Rattle.field.specs.Table.{inverse_words};

// The inverses of 8 * h to 8 * h + 7, the first in the lowest byte. A match that only hands out constants becomes a table in read-only
// memory; a constant array would be written out on the stack at each call.
pub(crate) fn inverses_from(h: u8) -> u64
    requires { h < 32 }
    ensures { result ≡ get_or inverse_words h 0 }
{
    match h {
        0 => 0xba7aa747f48e0100,
        1 => 0x965daa3d98dd9dad,
        2 => 0x664c3ee058c072d8,
        3 => 0x2a4b83a08055de90,
        4 => 0x8a2c56605139ed6c,
        5 => 0x6e338b264a1fd070,
        6 => 0x5e40c3a42e6f8948,
        7 => 0xe1150caba9cf2250,
        8 => 0x04a64e92d5f85f36,
        9 => 0x934567161e2b8830,
        10 => 0x61251a818c682338,
        11 => 0x41370e9763cbc113,
        12 => 0x4d17c4b95bca5724,
        13 => 0x322fec20b3ef8d52,
        14 => 0x79dafbe9d911d128,
        15 => 0xfcfecd84bb0677db,
        16 => 0xb0e4cc7c1da1541b,
        17 => 0xf50269532d273149,
        18 => 0x5c0fbc9b4f44df18,
        19 => 0xa2c709ac94bddc0b,
        20 => 0x0546c234c69f821c,
        21 => 0xb7be089c3c0d3bce,
        22 => 0xafbff2eb6beee587,
        23 => 0xb6ae9a957b0764c5,
        24 => 0x9ea3b86535a55912,
        25 => 0x3aa87d855a62f7d2,
        26 => 0xd6d743f9f6c87129,
        27 => 0x91190a9978767310,
        28 => 0xf1e2b186f0e63f14,
        29 => 0x6ab2216db4f374fa,
        30 => 0xc9d38f03eab5e7e3,
        31 => 0xfd7eff7f75e8d442,
        _ => 0,
    }
}
