//! The orders of the columns.
ghost use Rattle.std.specs.Prelude.{◌≡◌, suc, map, take, IsTrue, nat_lt};
ghost use Rattle.std.specs.List.{list_all};
ghost use Rattle.coordinate_model.specs.Sequences.{IsRank, columns, is_odd};
ghost use Rattle.coordinate_model.specs.InOrder.{orders};

/// An order of the columns of a rank.
#[derive(Clone, Copy)]
pub(crate) struct Order {
    /// The columns, counted from 0; unused places hold 0.
    pub columns: [u8; 4],
    /// Whether the order has the sign -1.
    pub is_odd: bool,
}

/// One case for each rank, with its orders: the columns, and whether the sign is -1.
macro_rules! cases {
    ($rank:expr; $($size:literal: $([$($column:literal),+] $is_odd:literal),+;)+) => {
        match $rank {
            $($size => &[$(Order { columns: [$($column),+], is_odd: $is_odd }),+],)+
            _ => &[],
        }
    };
}

/// The orders of the columns in this rank, in lexicographic order.
pub(crate) fn orders(rank: u8) -> &'static [Order]
    requires { IsRank rank }
    ensures columns { map (λ o. map suc (take rank o.columns)) result.now ≡ orders (columns rank) }
    ensures signs { map (λ o. o.is_odd) result.now ≡ map is_odd (orders (columns rank)) }
    ensures within { IsTrue (list_all (λ o. list_all (λ c. nat_lt c rank) o.columns) result.now) }
{
    cases! { rank;
        2: [0, 1, 0, 0] false, [1, 0, 0, 0] true;
        3: [0, 1, 2, 0] false, [0, 2, 1, 0] true, [1, 0, 2, 0] true,
            [1, 2, 0, 0] false, [2, 0, 1, 0] false, [2, 1, 0, 0] true;
        4: [0, 1, 2, 3] false, [0, 1, 3, 2] true, [0, 2, 1, 3] true,
            [0, 2, 3, 1] false, [0, 3, 1, 2] false, [0, 3, 2, 1] true,
            [1, 0, 2, 3] true, [1, 0, 3, 2] false, [1, 2, 0, 3] false,
            [1, 2, 3, 0] true, [1, 3, 0, 2] true, [1, 3, 2, 0] false,
            [2, 0, 1, 3] false, [2, 0, 3, 1] true, [2, 1, 0, 3] true,
            [2, 1, 3, 0] false, [2, 3, 0, 1] false, [2, 3, 1, 0] true,
            [3, 0, 1, 2] true, [3, 0, 2, 1] false, [3, 1, 0, 2] false,
            [3, 1, 2, 0] true, [3, 2, 0, 1] true, [3, 2, 1, 0] false;
    }
}
