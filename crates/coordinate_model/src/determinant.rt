//! Brackets of points with whole coordinates.
ghost use Rattle.std.specs.Prelude.{◌≡◌, IfSome, IsTrue, length, map, nat_lt, take};
ghost use Rattle.std.specs.List.{list_all};
ghost use Rattle.coordinate_model.specs.Ring.{Integers};
ghost use Rattle.coordinate_model.specs.Sequences.{IsRank};
ghost use Rattle.coordinate_model.specs.Brackets.{bracket};
ghost use Rattle.coordinate_model.specs.Limited.{Limited, is_limited};
ghost use Rattle.coordinate_model.specs.InOrder.{bracket_in_order};
ghost use Rattle.coordinate_model.specs.PlacedPoints.{placed, placed_within, product_of};

use crate::column_orders::{Order, orders};
use crate::limited::{limited_product, limited_sum, signed};

/// The bracket of `D` points, which is their determinant: the products of their coordinates in each order of the
/// columns, with the sign of the order, added up (Sturmfels, Algorithms in Invariant Theory, section 3.1). `None`
/// stands for a product or a sum that passes 2^127 - 1 in absolute value: the orders of the columns are taken in
/// lexicographic order, products from the left, and sums from 0.
pub fn bracket_value<const D: usize>(points: &[[i128; D]]) -> Option<i128>
    requires rank { IsRank D }
    requires count { length points.now ≡ D }
    ensures in_order { result ≡ bracket_in_order Limited (map placed_within points.now) }
    ensures value { IfSome result (λ value. value ≡ bracket Integers (map placed points.now)) }
{
    let mut sum = 0;
    for order in orders(D as u8) {
        let product = product(points, order)?;
        sum = limited_sum(sum, signed(order.is_odd, product))?;
    }
    Some(sum)
}

/// The product of the coordinates at the columns in this order.
fn product<const D: usize>(points: &[[i128; D]], order: &Order) -> Option<i128>
    requires rank { IsRank D }
    requires count { length points.now ≡ D }
    requires within { IsTrue (list_all (λ c. nat_lt c D) order.now.columns) }
    ensures in_order { result ≡ product_of points.now (take D order.now.columns) }
    ensures limited { IfSome result (λ product. IsTrue (is_limited product)) }
{
    let mut product = 1;
    for k in 0..D {
        product = limited_product(product, points[k][order.columns[k] as usize])?;
    }
    Some(product)
}
