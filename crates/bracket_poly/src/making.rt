//! Polynomials made of others, within their limits.
ghost use Rattle.std.specs.Prelude.{◌≡◌, ◌≢◌, pos, [], ◌∷◌, T};
ghost use Rattle.coordinate_model.specs.Sums.{negated};
ghost use Rattle.bracket_poly.specs.Answers.{AddsTerms, Answers};
ghost use Rattle.bracket_poly.specs.Makings.{made_product};
ghost use Rattle.bracket_poly.specs.Products.{ExponentsFit, signed_terms};
ghost use Rattle.bracket_poly.specs.Tracked.{fits};

use crate::error::PolyError;
use crate::key::Key;
use crate::numbers::signed_by;
use crate::poly::Poly;

impl<const D: usize> Poly<D> {
    /// The product of both, in a new polynomial, as `mul_add` makes it.
    pub fn times(&self, other: &Poly<D>) -> Result<Poly<D>, PolyError>
        requires { ExponentsFit self.now.tracked.sum other.now.tracked.sum }
        ensures { Answers (λ poly. poly.tracked) result (made_product self.now.tracked.sum other.now.tracked.sum) }
    {
        let mut product = Poly::new(self.alloc);
        product.mul_add(self, other, None, 1)?;
        Ok(product)
    }

    /// Adds the terms of the other in ascending order, as `add` does. After a refusal those before the refused one have been
    /// added.
    pub fn add_terms(&mut self, other: &Poly<D>) -> Result<(), PolyError>
        ensures { AddsTerms self.old.tracked other.now.tracked.sum.terms result self.new.tracked }
    {
        self.add_signed(other, false)
    }

    /// So with the negated terms.
    pub fn subtract_terms(&mut self, other: &Poly<D>) -> Result<(), PolyError>
        ensures { AddsTerms self.old.tracked (negated other.now.tracked.sum.terms) result self.new.tracked }
    {
        self.add_signed(other, true)
    }

    fn add_signed(&mut self, other: &Poly<D>, negative: bool) -> Result<(), PolyError>
        ensures { AddsTerms self.old.tracked (signed_terms negative other.now.tracked.sum.terms) result self.new.tracked }
    {
        for (key, c) in other.terms() {
            self.add_copy(key, signed_by(negative, c))?;
        }
        Ok(())
    }

    /// Adds a copy of the key, times `c`.
    fn add_copy(&mut self, key: &Key<D>, c: i128) -> Result<(), PolyError>
        requires not_zero { c ≢ pos 0 }
        requires small { T (fits c) }
        ensures { AddsTerms self.old.tracked ((key.now, c) ∷ []) result self.new.tracked }
    {
        let Ok(copy) = key.copy(self.alloc) else {
            return Err(PolyError::Memory);
        };
        self.add(copy, c)
    }
}
