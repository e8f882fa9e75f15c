//! Bracket polynomials.
ghost use Rattle.bracket_poly.specs.Kept.{IsKept, kept-prop};

use crate::key::Key;
use indexmap::IndexSet;
use std::alloc::Global;
use std::collections::BTreeMap;
use std::marker::Model;

/// A bracket polynomial with the keys that it has met: contracts see its terms in ascending key order and these keys in the
/// order in which they were first met (Sturmfels, Algorithms in Invariant Theory, section 3.1). A key of which the
/// coefficient has come back to 0 stays met.
#[derive(Drop)]
pub struct Poly<const D: usize> {
    pub(crate) alloc: Global,
    pub(crate) terms: BTreeMap<Key<D>, i128>,
    pub(crate) met: IndexSet<Key<D>>,
    ghost kept: { IsKept D terms.entries met.keys } by { kept-prop D terms.entries met.keys },
}

impl<const D: usize> Model for Poly<D> {
    ghost use Rattle.bracket_poly.specs.Kept.{TrackedOf, tracked_code, tracked_of};

    ghost Value = { TrackedOf D };

    ghost coded = { tracked_code D };

    ghost view = { λ poly. tracked_of D poly.terms.entries poly.met.keys poly.kept };
}
