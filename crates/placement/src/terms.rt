//! The terms of joins and meets, by the coordinates of the two objects.
ghost use Rattle.std.specs.Prelude.{◌≡◌, ◌+◌, ◌-◌, ◌<◌, ◌≤◌, IsTrue, map};
ghost use Rattle.std.specs.List.{list_all};
ghost use Rattle.coordinate_model.specs.Sequences.{IsRank};
ghost use Rattle.placement.specs.Terms.{is_within, join_rows, meet_rows, shown};

/// A product of a coordinate of the first object and one of the second.
#[derive(Clone, Copy)]
pub(crate) struct Term {
    /// The place of the coordinate among those of the first object.
    pub first: u8,
    /// The place of the coordinate among those of the second object.
    pub second: u8,
    /// Whether the product is subtracted.
    pub is_odd: bool,
}

/// One case for each rank and the steps of two objects: for each coordinate of what they make, in lexicographic order
/// of the columns, its terms in order, by the places of the two coordinates and the sign.
macro_rules! cases {
    ($sizes:expr; $($rank:literal $a:literal $b:literal: $([$($first:literal $second:literal $sign:tt),+]),+;)+) => {
        match $sizes {
            $(($rank, $a, $b) => &[
                $(&[$(Term { first: $first, second: $second, is_odd: is_odd!($sign) }),+]),+
            ],)+
            _ => &[],
        }
    };
}

macro_rules! is_odd {
    (+) => { false };
    (-) => { true };
}

/// The terms of the join, for each coordinate.
pub(crate) fn join_terms(rank: u8, a: u8, b: u8) -> &'static [&'static [Term]]
    requires rank { IsRank rank }
    requires steps { (1 ≤ a) × (1 ≤ b) × (a + b ≤ rank) }
    ensures terms { map (λ row. map (shown rank a b) row.now) result.now ≡ join_rows rank a b }
    ensures within { IsTrue (list_all (λ row. list_all (is_within rank a b) row.now) result.now) }
{
    cases! { (rank, a, b);
        2 1 1: [0 1 +, 1 0 -];
        3 1 1: [0 1 +, 1 0 -], [0 2 +, 2 0 -], [1 2 +, 2 1 -];
        3 1 2: [0 2 +, 1 1 -, 2 0 +];
        3 2 1: [0 2 +, 1 1 -, 2 0 +];
        4 1 1: [0 1 +, 1 0 -], [0 2 +, 2 0 -], [0 3 +, 3 0 -], [1 2 +, 2 1 -], [1 3 +, 3 1 -], [2 3 +, 3 2 -];
        4 1 2: [0 3 +, 1 1 -, 2 0 +], [0 4 +, 1 2 -, 3 0 +], [0 5 +, 2 2 -, 3 1 +], [1 5 +, 2 4 -, 3 3 +];
        4 2 1: [0 2 +, 1 1 -, 3 0 +], [0 3 +, 2 1 -, 4 0 +], [1 3 +, 2 2 -, 5 0 +], [3 3 +, 4 2 -, 5 1 +];
        4 1 3: [0 3 +, 1 2 -, 2 1 +, 3 0 -];
        4 2 2: [0 5 +, 1 4 -, 2 3 +, 3 2 +, 4 1 -, 5 0 +];
        4 3 1: [0 3 +, 1 2 -, 2 1 +, 3 0 -];
    }
}

/// The terms of the meet, for each coordinate.
pub(crate) fn meet_terms(rank: u8, a: u8, b: u8) -> &'static [&'static [Term]]
    requires rank { IsRank rank }
    requires steps { (1 ≤ a) × (a < rank) × (1 ≤ b) × (b < rank) × (rank ≤ a + b) }
    ensures terms { map (λ row. map (shown rank a b) row.now) result.now ≡ meet_rows rank a b }
    ensures within { IsTrue (list_all (λ row. list_all (is_within rank a b) row.now) result.now) }
{
    cases! { (rank, a, b);
        2 1 1: [0 1 +, 1 0 -];
        3 1 2: [0 2 +, 1 1 -, 2 0 +];
        3 2 1: [0 2 +, 1 1 -, 2 0 +];
        3 2 2: [0 1 +, 1 0 -], [0 2 +, 2 0 -], [1 2 +, 2 1 -];
        4 1 3: [0 3 +, 1 2 -, 2 1 +, 3 0 -];
        4 3 1: [0 3 +, 1 2 -, 2 1 +, 3 0 -];
        4 2 2: [0 5 +, 1 4 -, 2 3 +, 3 2 +, 4 1 -, 5 0 +];
        4 2 3: [0 2 +, 1 1 -, 2 0 +], [0 3 +, 3 1 -, 4 0 +], [1 3 +, 3 2 -, 5 0 +], [2 3 +, 4 2 -, 5 1 +];
        4 3 2: [0 2 +, 1 1 -, 2 0 +], [0 4 +, 1 3 -, 3 0 +], [0 5 +, 2 3 -, 3 1 +], [1 5 +, 2 4 -, 3 2 +];
        4 3 3: [0 1 +, 1 0 -], [0 2 +, 2 0 -], [1 2 +, 2 1 -], [0 3 +, 3 0 -], [1 3 +, 3 1 -], [2 3 +, 3 2 -];
    }
}
