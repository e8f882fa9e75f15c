//! Products of parameters, by their exponents.
ghost use Rattle.std.specs.Prelude.{◌≡◌, ◌<◌, ◌≤◌, Some, length, slice_index, slice_set, replicate, refl};
ghost use Rattle.std.specs.Cmp.{partial_equiv_from_equiv, eq_by_cmp_equiv, partial_order_from_agreeing_total};
ghost use Rattle.std.specs.Cmp.Lexicographic.{slice_cmp, nat_list_cmp_total};
ghost use Rattle.std.specs.Hash as fed;
ghost use Rattle.std.specs.List.{AllByRecursion};
ghost use Rattle.std.specs.Ordering.{eq_by_cmp, nat_cmp};
ghost use Rattle.coordinate_model.specs.Key.{add_exponents};
ghost use Rattle.bracket_terms.specs.Exponents.{in_use, same_exponents};

use std::cmp::Ordering;
use std::hash::{Hash, Hasher};
use std::marker::Model;

/// A product of parameters: contracts see the list of its 64 exponents, from parameter 0 on.
#[derive(Clone, Copy, Debug)]
pub struct Params {
    exponents: [u16; 64],
    /// How many exponents there are up to the last that is not 0: only these are compared and hashed.
    used: u8,
}

impl Model for Params {
    ghost use Rattle.std.specs.Prelude.{List, ℕ, ◌≡◌, length};
    ghost use Rattle.std.proofs.Common.{sym};
    ghost use Rattle.bracket_terms.specs.Exponents.{in_use};

    ghost Value = { List ℕ };

    ghost view = { λ params. params.exponents };

    ghost invariant = { λ params. (length params.exponents ≡ 64) × (params.used ≡ length (in_use params.exponents)) };

    ghost inverse = { λ exponents. record { exponents = exponents; used = length (in_use exponents) } };

    ghost inverse_ok = { λ params formed. λ j. record { exponents = params.exponents; used = sym formed.1 j } };
}

impl Params {
    /// The product of no parameter.
    pub fn one() -> Self
        ensures { result ≡ replicate 64 0 }
    {
        Params::of([0; 64])
    }

    /// The parameter `i` alone.
    pub fn single(i: u8) -> Self
        requires { i < 64 }
        ensures { result ≡ slice_set (replicate 64 0) i 1 }
    {
        let mut exponents = [0; 64];
        exponents[i as usize] = 1;
        Params::of(exponents)
    }

    /// The same product, but for the exponent of the parameter `i`.
    pub fn with(&self, i: u8, exponent: u16) -> Params
        requires { i < 64 }
        ensures exponents { result ≡ slice_set self.now i exponent }
        ensures count { length result ≡ 64 }
    {
        let mut exponents = self.exponents;
        exponents[i as usize] = exponent;
        Params::of(exponents)
    }

    /// The product of both.
    pub fn times(&self, other: &Params) -> Params
        requires { AllByRecursion (λ exponent. exponent ≤ 65535) (add_exponents self.now other.now) }
        ensures sums { result ≡ add_exponents self.now other.now }
        ensures count { length result ≡ 64 }
    {
        let mut exponents = self.exponents;
        for (i, more) in other.exponents.iter().enumerate() {
            exponents[i] += *more;
        }
        Params::of(exponents)
    }

    /// The exponent of the parameter `i`.
    pub fn exponent(&self, i: u8) -> u16
        requires { i < 64 }
        ensures exponent { result ≡ slice_index self.now i }
        ensures count { length self.now ≡ 64 }
    {
        self.exponents[i as usize]
    }

    /// The product with these exponents.
    fn of(exponents: [u16; 64]) -> Params
        ensures { result ≡ exponents }
    {
        Params {
            exponents,
            used: used_of(&exponents),
        }
    }

    /// The exponents up to the last that is not 0.
    fn in_use(&self) -> &[u16]
        ensures used { result.now ≡ in_use self.now }
        ensures count { length self.now ≡ 64 }
    {
        &self.exponents[..self.used as usize]
    }
}

/// How many exponents there are up to the last that is not 0.
fn used_of(exponents: &[u16; 64]) -> u8
    ensures { result ≡ length (in_use exponents.now) }
{
    let mut used: u8 = 64;
    while used > 0 && exponents[used as usize - 1] == 0 {
        used -= 1;
    }
    used
}

impl PartialEq for Params {
    ghost eq = { eq_by_cmp (slice_cmp nat_cmp) };

    ghost laws = { partial_equiv_from_equiv (eq_by_cmp_equiv nat_list_cmp_total) };

    fn eq(&self, other: &Self) -> bool {
        self.cmp(other) == Ordering::Equal
    }
}

impl Eq for Params {
    ghost laws = { eq_by_cmp_equiv nat_list_cmp_total };
}

impl PartialOrd for Params {
    ghost partial_cmp = { λ x y. Some (slice_cmp nat_cmp x y) };

    ghost laws = { partial_order_from_agreeing_total (slice_cmp nat_cmp) nat_list_cmp_total (λ x y. refl) (λ x y. refl) };

    fn partial_cmp(&self, other: &Self) -> Option<Ordering> {
        Some(self.cmp(other))
    }
}

impl Ord for Params {
    ghost cmp = { slice_cmp nat_cmp };

    ghost total = { nat_list_cmp_total };

    ghost matches_partial_cmp = { λ x y. refl };

    ghost matches_eq = { λ x y. refl };

    /// Lexicographic, from the exponent of parameter 0 on.
    fn cmp(&self, other: &Self) -> Ordering {
        self.in_use().cmp(other.in_use())
    }
}

impl Hash for Params {
    ghost hash_input = { λ params. fed.slice fed.u16 (in_use params) };

    ghost respects_eq = { same_exponents (λ params. fed.slice fed.u16 (in_use params)) };

    fn hash<H: Hasher>(&self, state: &mut H) {
        self.in_use().hash(state);
    }
}
