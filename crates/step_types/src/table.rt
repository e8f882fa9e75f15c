//! The objects made so far, found by their names.

ghost use Rattle.std.specs.Prelude.{◌≡◌, ◌++◌, ◌∷◌, [], ℕ, List, None, OnOk, IfSome};
ghost use Rattle.step_types.specs.Known.{found, IsWithin};

use crate::measure::Measure;
use cay_base::NoMemory;
use indexmap::IndexMap;
use std::alloc::Global;
use std::marker::Model;

/// Objects in the order in which they were made: contracts see each name with its measure.
#[derive(Drop)]
pub struct Table {
    objects: IndexMap<Vec<u8>, Measure>,
}

impl Model for Table {
    ghost use Rattle.std.specs.Prelude.{ℕ, List};
    ghost use Rattle.step_types.specs.Known.{AreWithin};
    ghost use Rattle.step_types.specs.Listed.{listed};
    ghost use Rattle.step_types.specs.declared.measure.Measure.{Measure};

    ghost Value = { List (List ℕ × Measure) };

    ghost view = { λ t. listed t.objects };

    ghost invariant = { λ t. AreWithin (listed t.objects) };
}

impl Table {
    pub fn new(alloc: Global) -> Self
        ensures { result ≡ [] }
    {
        Table {
            objects: IndexMap::new(alloc),
        }
    }

    /// The measure of the object of this name.
    pub fn get(&self, name: &[u8]) -> Option<Measure>
        ensures value { result ≡ found name.now self.now }
        ensures within { IfSome result IsWithin }
    {
        self.objects.get(name).copied()
    }

    /// Adds an object of a new name.
    pub fn add(&mut self, alloc: Global, name: &[u8], measure: Measure) -> Result<(), NoMemory>
        requires new_name { found name.now self.old ≡ None }
        requires within { IsWithin measure }
        ensures { OnOk result (self.new ≡ self.old ++ (name.now, measure) ∷ []) }
    {
        let key = Vec::from_slice(alloc, name)?;
        self.objects.insert(key, measure)?;
        Ok(())
    }
}
