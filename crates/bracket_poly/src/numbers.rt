//! Sums and products of integers that are at most 2^127 - 1 in absolute value.
ghost use Rattle.std.specs.Prelude.{◌≡◌, ◌+ℤ◌, ◌*ℤ◌, MatchOption, T, true, false};
ghost use Rattle.coordinate_model.specs.Sums.{is_zero};
ghost use Rattle.bracket_poly.specs.Tracked.{fits};
ghost use Rattle.bracket_poly.specs.Products.{IsSign, signed_by};

/// The sum, where it fits.
pub(crate) fn sum_within(a: i128, b: i128) -> Option<i128>
    ensures { MatchOption result (fits (a +ℤ b) ≡ false) (λ sum. (sum ≡ a +ℤ b) × (fits sum ≡ true)) }
{
    a.checked_add(b).filter(|sum| *sum != i128::MIN)
}

/// Whether the integer is 0.
pub(crate) fn is_zero(c: i128) -> bool
    ensures { result ≡ is_zero c }
{
    c == 0
}

/// The product and the sign, where the product fits.
pub(crate) fn product_within(a: i128, b: i128, sign: i8) -> Option<i128>
    requires { IsSign sign }
    ensures { MatchOption result (fits (sign *ℤ (a *ℤ b)) ≡ false) (λ product. (product ≡ sign *ℤ (a *ℤ b)) × (fits product ≡ true)) }
{
    let product = a.checked_mul(b)?;
    if product == i128::MIN {
        None
    } else if sign < 0 {
        Some(-product)
    } else {
        Some(product)
    }
}

/// The integer, negated or as it is.
pub(crate) fn signed_by(negative: bool, c: i128) -> i128
    requires { T (fits c) }
    ensures { result ≡ signed_by negative c }
{
    if negative { -c } else { c }
}
