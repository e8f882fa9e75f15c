//! Sums and products of integers that are at most 2^127 - 1 in absolute value.
ghost use Rattle.std.specs.Prelude.{◌≡◌, IfSome, IsTrue, Some};
ghost use Rattle.coordinate_model.specs.Limited.{is_limited, limited_product, limited_sum, signed_number};

/// The sum, or `None` where it passes 2^127 - 1 in absolute value.
pub fn limited_sum(a: i128, b: i128) -> Option<i128>
    ensures sum { result ≡ limited_sum (Some a) (Some b) }
    ensures limited { IfSome result (λ sum. IsTrue (is_limited sum)) }
{
    a.checked_add(b).filter(|sum| *sum != i128::MIN)
}

/// The product, or `None` where it passes 2^127 - 1 in absolute value.
pub fn limited_product(a: i128, b: i128) -> Option<i128>
    ensures product { result ≡ limited_product (Some a) (Some b) }
    ensures limited { IfSome result (λ product. IsTrue (is_limited product)) }
{
    a.checked_mul(b).filter(|product| *product != i128::MIN)
}

/// The number, negated or as it is.
pub fn signed(is_odd: bool, number: i128) -> i128
    requires { IsTrue (is_limited number) }
    ensures { result ≡ signed_number is_odd number }
{
    if is_odd { -number } else { number }
}
