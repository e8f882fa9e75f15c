//! The instructions that ended the named objects, found by the names.

ghost use Rattle.std.specs.Prelude.{◌≡◌, ◌++◌, ◌∷◌, [], ℕ, List, OnOk, IsFalse};
ghost use Rattle.cayley_terms.specs.Named.{named, has_name};

use cay_base::NoMemory;
use indexmap::IndexMap;
use std::alloc::Global;
use std::marker::Model;

/// Names with numbers, in the order in which they were added: contracts see them as a list.
#[derive(Drop)]
pub struct Numbers {
    map: IndexMap<Vec<u8>, u32>,
}

impl Model for Numbers {
    ghost use Rattle.std.specs.Prelude.{ℕ, List};
    ghost use Rattle.cayley_terms.specs.Listed.{listed};

    ghost Value = { List (List ℕ × ℕ) };

    ghost view = { λ n. listed n.map };
}

impl Numbers {
    pub fn new(alloc: Global) -> Self
        ensures { result ≡ [] }
    {
        Numbers {
            map: IndexMap::new(alloc),
        }
    }

    /// The number of the name, or 0 for a name that was not added.
    pub fn get(&self, name: &[u8]) -> u32
        ensures { result ≡ named 0 self.now name.now }
    {
        self.map.get(name).copied().unwrap_or(0)
    }

    /// Adds a new name.
    pub fn add(&mut self, alloc: Global, name: &[u8], number: u32) -> Result<(), NoMemory>
        requires { IsFalse (has_name name.now self.old) }
        ensures { OnOk result (self.new ≡ self.old ++ (name.now, number) ∷ []) }
    {
        let key = Vec::from_slice(alloc, name)?;
        self.map.insert(key, number)?;
        Ok(())
    }
}
