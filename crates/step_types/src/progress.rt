//! What is known at a place of a construction.

ghost use Rattle.std.specs.Prelude.{◌≡◌, ◌++◌, ◌<◌, ◌≤◌, OnOk, IfOk, false};
ghost use Rattle.std.specs.List.{list_any};
ghost use Rattle.construction_reader.specs.Words.{◌is◌};
ghost use Rattle.construction_reader.specs.Said.{recipe, sentence, row};
ghost use Rattle.construction_reader.specs.Params.{with_param};
ghost use Rattle.construction_reader.specs.Grammar.{params_with, IsSentence};
ghost use Rattle.step_types.specs.Outcome.{Gives};
ghost use Rattle.step_types.specs.Known.{nothing, IsWithin, AreNew, entries_of, names_made, known_with};
ghost use Rattle.step_types.specs.Rules.{is_twice, measured};
ghost use Rattle.step_types.specs.Checks.{taken};
ghost use Rattle.step_types.specs.Seen.{known};

use crate::fault::{CheckError, StepFault, StepKind};
use crate::measure::Measure;
use crate::rules::{fits_rank, stands_in, within};
use crate::table::Table;
use cay_base::NoMemory;
use construction_reader::{Body, Expr, Name, Statement};
use std::alloc::Global;

/// The objects made so far, and the parameters used so far.
#[derive(Drop)]
pub struct Progress {
    pub made: Table,
    pub params: Vec<Name>,
}

fn add_param(alloc: Global, params: &mut Vec<Name>, name: &Name) -> Result<(), NoMemory>
    ensures { OnOk result (params.new.items ≡ with_param params.old.items name.now) }
{
    if !stands_in(params, name) {
        params.push(Name::new(alloc, name.bytes())?)?;
    }
    Ok(())
}

fn add_params(alloc: Global, params: &mut Vec<Name>, body: &Body) -> Result<(), NoMemory>
    ensures { OnOk result (params.new.items ≡ params_with params.old.items (sentence body.now)) }
{
    if let Body::Define {
        expr: Expr::On { s, t, .. },
        ..
    } = body
    {
        add_param(alloc, params, s)?;
        add_param(alloc, params, t)?;
    }
    Ok(())
}

/// Adds objects of new names, all of this measure.
fn add_points(alloc: Global, made: &mut Table, names: &[Name], m: Measure) -> Result<(), NoMemory>
    requires new_names { AreNew made.old names.now }
    requires within { IsWithin m }
    ensures { OnOk result (made.new ≡ made.old ++ entries_of m names.now) }
{
    for name in names {
        made.add(alloc, name.bytes(), m)?;
    }
    Ok(())
}

fn add_objects(alloc: Global, made: &mut Table, body: &Body, m: Measure) -> Result<(), NoMemory>
    requires new_names { AreNew made.old (names_made (sentence body.now)) }
    requires within { IsWithin m }
    ensures { OnOk result (made.new ≡ made.old ++ entries_of m (names_made (sentence body.now))) }
{
    match body {
        Body::Free(names) => add_points(alloc, made, names.items(), m),
        Body::Define { name, .. } => made.add(alloc, name.bytes(), m),
        Body::Conclude(_) => Ok(()),
    }
}

impl Progress {
    pub fn new(alloc: Global) -> Self
        ensures { known result ≡ nothing }
    {
        Progress {
            made: Table::new(alloc),
            params: Vec::new(alloc),
        }
    }

    /// The measure of what a statement makes or concludes, or the first kind of fault that it has.
    #[tactic(auto, unfolding(crate::specs::Rules::measured))]
    fn measured(&self, rank: u64, body: &Body) -> Result<Measure, StepKind>
        requires body { IsSentence (sentence body.now) }
        requires rank { (0 < rank) × (rank ≤ 4) }
        ensures value { result ≡ measured rank (known self.now) (sentence body.now) }
        ensures within { IfOk result IsWithin }
        ensures once { OnOk result (is_twice (known self.now) (sentence body.now) ≡ false) }
    {
        if !fits_rank(rank, body) {
            return Err(StepKind::Rank);
        }
        if self.is_twice(body) {
            return Err(StepKind::Twice);
        }
        if !self.knows_args(body) {
            return Err(StepKind::Unknown);
        }
        within(self.made.body_measure(rank, body))
    }

    fn add(&mut self, alloc: Global, body: &Body, m: Measure) -> Result<(), NoMemory>
        requires once { is_twice (known self.old) (sentence body.now) ≡ false }
        requires within { IsWithin m }
        ensures { OnOk result (known self.new ≡ known_with (known self.old) (sentence body.now) m) }
    {
        add_objects(alloc, &mut self.made, body, m)?;
        add_params(alloc, &mut self.params, body)
    }

    /// Takes a statement in, where it has no fault.
    pub fn take(
        &mut self,
        alloc: Global,
        rank: u64,
        statement: &Statement,
    ) -> Result<(), CheckError>
        requires body { IsSentence (sentence statement.now.body) }
        requires rank { (0 < rank) × (rank ≤ 4) }
        ensures { Gives (λ _. known self.new) result (taken rank (known self.old) (row statement.now)) }
    {
        match self.measured(rank, &statement.body) {
            Ok(m) => Ok(self.add(alloc, &statement.body, m)?),
            Err(kind) => Err(CheckError::Fault(StepFault {
                line: statement.line,
                kind,
            })),
        }
    }
}
