//! Adding products to a polynomial, within its limits.
ghost use Rattle.std.specs.Prelude.{◌≡◌, ◌≤◌, [], ◌∷◌, option_copied, false};
ghost use Rattle.std.specs.List.{AllByRecursion};
ghost use Rattle.coordinate_model.specs.Sums.{is_zero};
ghost use Rattle.coordinate_model.specs.Key.{add_exponents};
ghost use Rattle.coordinate_model.specs.Starts.{product_terms};
ghost use Rattle.bracket_poly.specs.Answers.{AddsTerms};
ghost use Rattle.bracket_poly.specs.Products.{IsSign, ExponentsFit, product_term, multiple_terms};

use crate::error::PolyError;
use crate::key::Key;
use crate::numbers::product_within;
use crate::poly::Poly;
use bracket_terms::Bracket;

impl<const D: usize> Poly<D> {
    /// Adds `sign * a * b * row`, where no row stands for 1: for each term of `a` in order, each of `b` in order, as `add`
    /// does. `Coefficient` comes also exactly where a product of two coefficients passes 2^127 - 1 in absolute value, which
    /// is looked at before the sum. After a refusal the products before the refused one have been added.
    pub fn mul_add(
        &mut self,
        a: &Poly<D>,
        b: &Poly<D>,
        row: Option<Bracket<D>>,
        sign: i8,
    ) -> Result<(), PolyError>
        requires sign { IsSign sign }
        requires exponents { ExponentsFit a.now.tracked.sum b.now.tracked.sum }
        ensures { AddsTerms self.old.tracked (product_terms a.now.tracked.sum b.now.tracked.sum row.entry sign) result self.new.tracked }
    {
        for (left, first) in a.terms() {
            self.add_multiple(left, first, b, row.as_ref(), sign)?;
        }
        Ok(())
    }

    /// Adds one term times all terms of `b` and the row.
    fn add_multiple(
        &mut self,
        left: &Key<D>,
        first: i128,
        b: &Poly<D>,
        row: Option<&Bracket<D>>,
        sign: i8,
    ) -> Result<(), PolyError>
        requires sign { IsSign sign }
        requires not_zero { is_zero first ≡ false }
        requires exponents { AllByRecursion (λ u. AllByRecursion (λ e. e ≤ 65535) (add_exponents left.now.exponents u.0.exponents)) b.now.tracked.sum.terms }
        ensures { AddsTerms self.old.tracked (multiple_terms (option_copied row.entry) sign b.now.tracked.sum.terms (left.now, first)) result self.new.tracked }
    {
        for (right, second) in b.terms() {
            self.add_product((left, first), (right, second), row, sign)?;
        }
        Ok(())
    }

    /// Adds one term times another and the row.
    fn add_product(
        &mut self,
        left: (&Key<D>, i128),
        right: (&Key<D>, i128),
        row: Option<&Bracket<D>>,
        sign: i8,
    ) -> Result<(), PolyError>
        requires sign { IsSign sign }
        requires first { is_zero left.1 ≡ false }
        requires second { is_zero right.1 ≡ false }
        requires exponents { AllByRecursion (λ e. e ≤ 65535) (add_exponents left.0.now.exponents right.0.now.exponents) }
        ensures { AddsTerms self.old.tracked (product_term (option_copied row.entry) sign (left.entry.0.now, left.entry.1) (right.entry.0.now, right.entry.1) ∷ []) result self.new.tracked }
    {
        let Some(product) = product_within(left.1, right.1, sign) else {
            return Err(PolyError::Coefficient);
        };
        let Ok(key) = left.0.times(self.alloc, right.0, row) else {
            return Err(PolyError::Memory);
        };
        self.add(key, product)
    }
}
