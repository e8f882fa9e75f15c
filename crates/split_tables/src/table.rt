//! The table of all splits of at most five places.
ghost use Rattle.std.specs.Prelude.{◌≤◌};
ghost use Rattle.split_tables.specs.Masks.{IsTable};

use crate::signed_split::SignedSplit;

/// One case for each number of places and of chosen ones, with a split for each set of chosen places and its sign.
macro_rules! cases {
    ($sizes:expr; $($n:literal $k:literal: $($chosen:literal $sign:literal),+;)+) => {
        match $sizes {
            $(($n, $k) => &[
                $(SignedSplit { chosen: $chosen, rest: (1 << $n) - 1 - $chosen, sign: $sign }),+
            ],)+
            _ => &[],
        }
    };
}

/// The splits of `n` places into `k` chosen ones and the rest, in lexicographic order of the chosen places.
#[tactic(auto, unfolding(crate::specs::Masks::places_of))]
pub(crate) fn table(n: u8, k: u8) -> &'static [SignedSplit]
    requires chosen { k ≤ n }
    requires places { n ≤ 5 }
    ensures { IsTable n k result.now }
{
    cases! { (n, k);
        0 0: 0b0 1;
        1 0: 0b0 1;
        1 1: 0b1 1;
        2 0: 0b00 1;
        2 1: 0b01 1, 0b10 -1;
        2 2: 0b11 1;
        3 0: 0b000 1;
        3 1: 0b001 1, 0b010 -1, 0b100 1;
        3 2: 0b011 1, 0b101 -1, 0b110 1;
        3 3: 0b111 1;
        4 0: 0b0000 1;
        4 1: 0b0001 1, 0b0010 -1, 0b0100 1, 0b1000 -1;
        4 2: 0b0011 1, 0b0101 -1, 0b1001 1, 0b0110 1, 0b1010 -1, 0b1100 1;
        4 3: 0b0111 1, 0b1011 -1, 0b1101 1, 0b1110 -1;
        4 4: 0b1111 1;
        5 0: 0b00000 1;
        5 1: 0b00001 1, 0b00010 -1, 0b00100 1, 0b01000 -1, 0b10000 1;
        5 2: 0b00011 1, 0b00101 -1, 0b01001 1, 0b10001 -1,
            0b00110 1, 0b01010 -1, 0b10010 1, 0b01100 1, 0b10100 -1, 0b11000 1;
        5 3: 0b00111 1, 0b01011 -1, 0b10011 1, 0b01101 1, 0b10101 -1, 0b11001 1,
            0b01110 -1, 0b10110 1, 0b11010 -1, 0b11100 1;
        5 4: 0b01111 1, 0b10111 -1, 0b11011 1, 0b11101 -1, 0b11110 1;
        5 5: 0b11111 1;
    }
}
