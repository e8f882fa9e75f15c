//! Bracket polynomials over a store of row lists, with no order of their keys.
ghost use Rattle.bracket_poly.specs.Kept.{IsTracked, tracked-prop};
ghost use Rattle.bracket_poly.specs.Arena.{seen};

use crate::view_key::ViewKey;
use bracket_terms::Bracket;
use indexmap::IndexMap;
use std::alloc::Global;
use std::marker::Model;
use term_arena::Store;

/// A bracket polynomial whose keys lie in an arena, in no order: contracts see what they see of a `Poly`. The store's list is
/// the tableaux of the met keys, in the order in which they were first met.
#[derive(Drop)]
pub struct ArenaTable<'a, const D: usize, V = &'a [Bracket<D>]> {
    pub(crate) alloc: Global,
    pub(crate) store: Store<'a, D, V>,
    /// The met keys with their coefficients, 0 where a key has no term.
    pub(crate) met: IndexMap<ViewKey<'a, D>, i128>,
    ghost formed: { IsTracked D (seen met.entries) } by { tracked-prop D (seen met.entries) },
}

impl<'a, const D: usize, V> Model for ArenaTable<'a, D, V> {
    ghost use Rattle.std.specs.Prelude.{◌≡◌, map};
    ghost use Rattle.bracket_poly.specs.Kept.{TrackedOf, tracked_code};
    ghost use Rattle.bracket_poly.specs.Arena.{seen_as, tableaux_of};

    ghost Value = { TrackedOf D };

    ghost coded = { tracked_code D };

    ghost view = { λ poly. seen_as D poly.met.entries poly.formed };

    ghost invariant = { λ poly. poly.store ≡ tableaux_of (map (λ e. e.0) poly.met.entries) };
}
