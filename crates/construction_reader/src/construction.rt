//! A construction, as a text gives it.

ghost use Rattle.construction_reader.specs.Said.{account_of};
ghost use Rattle.construction_reader.specs.Rules.{version_1};
ghost use Rattle.construction_reader.specs.Grammar.{IsGiven};
ghost use Rattle.construction_reader.specs.Given.{IsGivenBy-prop};

use crate::items::Items;
use crate::types::Statement;

/// What a text says: the rank, and its statements with the lines on which they stand.
#[derive(Debug, Drop)]
pub struct Construction {
    pub rank: u8,
    pub statements: Items<Statement>,
    ghost given: { IsGiven (account_of rank statements) } by { IsGivenBy-prop version_1 (account_of rank statements) },
}
