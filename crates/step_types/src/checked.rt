//! A construction that keeps the step rules.

ghost use Rattle.std.specs.Prelude.{◌≡◌, ◌↔◌, Contains, IsSome};
ghost use Rattle.construction_reader.specs.Seen.{account};
ghost use Rattle.step_types.specs.Checks.{IsGood, Holds, names_of, step_in};
ghost use Rattle.step_types.specs.Good.{all_made};

use crate::names::Names;
use crate::table::Table;
use construction_reader::{Construction, Name};
use std::marker::Model;

/// A construction in which no statement has a fault: contracts see it alone.
#[derive(Drop)]
pub struct Checked {
    construction: Construction,
    names: Names,
    made: Table,
}

impl Model for Checked {
    ghost use Rattle.construction_reader.specs.declared.construction.Construction.{Construction};
    ghost use Rattle.construction_reader.specs.contracts.construction.Construction as whole;
    ghost use Rattle.construction_reader.specs.Seen.{account};
    ghost use Rattle.step_types.specs.Checks.{Holds};

    ghost Value = { Construction };

    ghost coded = { whole.the_row.coded };

    ghost view = { λ c. c.construction };

    ghost invariant = { λ c. Holds (account c.construction) c.names c.made };
}

impl Checked {
    pub(crate) fn of(construction: Construction, names: Names, made: Table) -> Self
        requires { Holds (account construction) names made }
        ensures { result ≡ construction }
    {
        Checked {
            construction,
            names,
            made,
        }
    }

    pub fn construction(&self) -> &Construction
        ensures same { result.now ≡ self.now }
        ensures good { IsGood (account self.now) }
    {
        &self.construction
    }

    pub fn names(&self) -> &Names
        ensures { result.now ≡ names_of (account self.now) }
    {
        &self.names
    }

    fn step_found(&self, name: &Name) -> Option<u8>
        ensures step { result ≡ step_in (account self.now) name.now }
        ensures good { IsGood (account self.now) }
    {
        let m = self.made.get(name.bytes())?;
        Some(m.step as u8)
    }

    /// The step of the object of this name.
    pub fn step_of(&self, name: &Name) -> Option<u8>
        ensures step { result ≡ step_in (account self.now) name.now }
        ensures made { IsSome result ↔ Contains (all_made (account self.now).rows) name.now }
    {
        self.step_found(name)
    }
}
