//! Adding to a polynomial, within its limits.
ghost use Rattle.std.specs.Prelude.{◌≡◌, ◌≢◌, pos, T, OnOk, OnErr};
ghost use Rattle.coordinate_model.specs.Sums.{coefficient};
ghost use Rattle.bracket_poly.specs.Answers.{AnswersLimit};
ghost use Rattle.bracket_poly.specs.Entries.{with_coefficient};
ghost use Rattle.bracket_poly.specs.Tracked.{fits, limit_at, plus_term, has_met};

use crate::error::PolyError;
use crate::key::Key;
use crate::laws;
use crate::numbers::sum_within;
use crate::poly::Poly;
use std::collections::BTreeMap;

/// How many keys a polynomial may meet.
const MET_LIMIT: usize = 2_097_152;

impl<const D: usize> Poly<D> {
    /// Adds `c` to the coefficient of the key, which is met then. A refused call leaves the polynomial as it was.
    ///
    /// `Coefficient` comes exactly where the sum would pass 2^127 - 1 in absolute value, and `Keys` exactly where 2,097,152
    /// keys are met and this one is new.
    pub fn add(&mut self, key: Key<D>, c: i128) -> Result<(), PolyError>
        requires not_zero { c ≢ pos 0 }
        requires small { T (fits c) }
        ensures answer { AnswersLimit result (limit_at self.old.tracked (key.entry, c)) }
        ensures added { OnOk result (self.new.tracked ≡ plus_term self.old.tracked (key.entry, c)) }
        ensures unchanged { OnErr result (self.new ≡ self.old) }
    {
        laws::keys(&key);
        let is_met = self.has_met(&key);
        let Some(sum) = sum_within(self.known_coefficient(&key, is_met), c) else {
            return Err(PolyError::Coefficient);
        };
        if is_met {
            let Ok(()) = write_term(&mut self.terms, key, sum) else {
                return Err(PolyError::Memory);
            };
            return Ok(());
        }
        if self.met.len() >= MET_LIMIT {
            return Err(PolyError::Keys);
        }
        let Ok(copy) = key.copy(self.alloc) else {
            return Err(PolyError::Memory);
        };
        let Ok(()) = self.met.reserve(1) else {
            return Err(PolyError::Memory);
        };
        let Ok(()) = write_term(&mut self.terms, copy, sum) else {
            return Err(PolyError::Memory);
        };
        let _ = self.met.insert(key);
        Ok(())
    }

    fn has_met(&self, key: &Key<D>) -> bool
        ensures { result ≡ has_met self.now.tracked.met key.now }
    {
        self.met.contains(key)
    }

    /// The coefficient of the key. A key that is not met has none, so the map is not searched for it.
    fn known_coefficient(&self, key: &Key<D>, met: bool) -> i128
        requires { met ≡ has_met self.now.tracked.met key.now }
        ensures { result ≡ coefficient self.now.tracked.sum key.now }
    {
        if met { self.coefficient(key) } else { 0 }
    }
}

/// Puts the coefficient at the key, or takes the key out where it is 0. A refused call changes nothing.
fn write_term<const D: usize>(
    terms: &mut BTreeMap<Key<D>, i128>,
    key: Key<D>,
    c: i128,
) -> Result<(), PolyError>
    ensures written { OnOk result (terms.new.entries ≡ with_coefficient key.entry c terms.old.entries) }
    ensures unchanged { OnErr result (terms.new.entries ≡ terms.old.entries) }
{
    if c == 0 {
        terms.remove(&key);
        return Ok(());
    }
    match terms.insert(key, c) {
        Ok(_) => Ok(()),
        Err(_) => Err(PolyError::Memory),
    }
}
