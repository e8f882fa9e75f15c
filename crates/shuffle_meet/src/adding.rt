//! Adding products to starts.
ghost use Rattle.std.specs.Prelude.{◌≡◌, [], ◌∷◌};
ghost use Rattle.bracket_poly.specs.Products.{IsSign, ExponentsFit};
ghost use Rattle.bracket_poly.specs.Values.{extensor_size};
ghost use Rattle.shuffle_meet.specs.Adding.{Adds, product_of};

use crate::starts::Starts;
use bracket_poly::{Poly, PolyError};
use bracket_terms::{Bracket, Extensor};

impl<const D: usize> Starts<D> {
    /// Adds `sign * left * right * row` to the sum of the extensor.
    pub(crate) fn add(
        &mut self,
        extensor: Extensor,
        left: &Poly<D>,
        right: &Poly<D>,
        row: Option<Bracket<D>>,
        sign: i8,
    ) -> Result<(), PolyError>
        requires size { extensor.size ≡ extensor_size D self.old.step }
        requires sign { IsSign sign }
        requires exponents { ExponentsFit left.now.tracked.sum right.now.tracked.sum }
        ensures step { self.new.step ≡ self.old.step }
        ensures added { Adds self.old (product_of extensor left.now right.now row.entry sign ∷ []) result self.new }
    {
        let mut sum = match self.polys.remove(&extensor) {
            Some(sum) => sum,
            None => Poly::new(self.alloc),
        };
        sum.mul_add(left, right, row, sign)?;
        self.polys.insert(extensor, sum)?;
        Ok(())
    }
}
