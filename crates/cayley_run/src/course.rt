//! How far a run has come that is written as it goes.

ghost use Rattle.std.specs.Prelude.{◌≡◌, ◌≤◌, ◌+◌, ◌-◌, ◌^◌, ◌<◌, [], ◌∷◌, ◌++◌, List, OnOk, IfOk, flat_map};
ghost use Rattle.std.specs.List.{AllByRecursion};
ghost use Rattle.coordinate_model.specs.Sequences.{IsRank};
ghost use Rattle.bracket_poly.specs.Sections.{Worked};
ghost use Rattle.bracket_poly.specs.Values.{IsValue};
ghost use Rattle.conic_points.specs.Points.{values_of};
ghost use Rattle.proof_text.specs.Proofs.{IsSectionNamed, object_line, object_lines};
ghost use Rattle.proof_text.specs.Writes.{Writes};
ghost use Rattle.cayley_run.specs.Courses.{AddsPoint, AreNextNamed, Finishes, IsCourseOf, last_polynomial};
ghost use Rattle.cayley_run.specs.Making.{AreStarts};
ghost use Rattle.cayley_run.specs.Ready.{IsReady};
ghost use Rattle.cayley_run.specs.Results.{stop_of};
ghost use Rattle.cayley_run.specs.Runs.{Log, at_start, with_instr, with_starts, with_stop};
ghost use Rattle.cayley_run.specs.Sections.{run_starts};
ghost use Rattle.cayley_run.specs.Seen.{starts_of, steps_in};

use crate::answer::{Options, StopKind, Summary};
use crate::making::{Made, make};
use crate::writing::{Ending, write_starts};
use bracket_poly::{Items, Poly, Value};
use bracket_terms::Extensor;
use cay_base::{NoMemory, Sink};
use cayley_terms::Instr;
use proof_text::{WriteError, write_object};
use std::alloc::Global;
use step_types::Names;

/// What is kept of a run that is written as it goes: how it is run, the value of each instruction, how many objects
/// were written, the turns that are left, and what stopped it, if anything did.
#[derive(Drop)]
pub(crate) struct Course<const D: usize> {
    alloc: Global,
    pub options: Options,
    pub values: Vec<Value<D>>,
    pub objects: u32,
    pub left: u64,
    pub stop: Option<StopKind>,
}

impl<const D: usize> Course<D> {
    pub fn new(alloc: Global, options: Options) -> Self
        ensures course { IsCourseOf result (at_start options) }
        ensures steps { steps_in result.values.items ≡ [] }
    {
        Course {
            alloc,
            options,
            values: Vec::new(alloc),
            objects: 0,
            left: options.budget,
            stop: None,
        }
    }

    /// Runs one instruction of this step, and writes its object.
    pub fn run<K: Sink>(
        &mut self,
        names: &Names,
        instr: Instr,
        step: u8,
        sink: &mut K,
    ) -> Result<(), WriteError>
        requires rank { IsRank D }
        requires ready { IsReady D (steps_in self.old.values.items) (values_of self.old.values.items) instr step }
        requires few { self.old.objects + 1 < 2 ^ 32 }
        requires named { AreNextNamed names.now self.old instr step }
        ensures course { (log : Log) → IsCourseOf self.old log
            → OnOk result (IsCourseOf self.new (with_instr D log (instr, step))) }
        ensures steps { OnOk result (steps_in self.new.values.items ≡ steps_in self.old.values.items ++ step ∷ []) }
        ensures writes { (log : Log) (more : List Worked) → IsCourseOf self.old log
            → (with_instr D log (instr, step)).objects ≡ log.objects ++ more
            → Writes (K.held sink.old) (K.held sink.new) (K.faults sink.old) (K.faults sink.new) result
            (flat_map (object_lines names.now) more) }
    {
        match make(self.alloc, &self.values, instr, step)? {
            Made::Point(value) => Ok(self.add_value(value)?),
            Made::Starts(starts) => self.write(names, step, starts.items(), sink),
            Made::Stop(kind) => self.write_stopped(step, kind, sink),
        }
    }

    /// Writes an object with these starts.
    fn write<K: Sink>(
        &mut self,
        names: &Names,
        step: u8,
        starts: &[(Extensor, Poly<D>)],
        sink: &mut K,
    ) -> Result<(), WriteError>
        requires rank { IsRank D }
        requires within { step ≤ D }
        requires starts { AreStarts D step starts.now }
        requires few { self.old.objects + 1 < 2 ^ 32 }
        requires named { AllByRecursion (IsSectionNamed names.now)
            (run_starts self.old.options.contract self.old.left (starts_of starts.now)).sections }
        ensures course { (log : Log) → IsCourseOf self.old log
            → OnOk result (IsCourseOf self.new (with_starts step (starts_of starts.now) log)) }
        ensures steps { OnOk result (steps_in self.new.values.items ≡ steps_in self.old.values.items ++ step ∷ []) }
        ensures writes { Writes (K.held sink.old) (K.held sink.new) (K.faults sink.old) (K.faults sink.new) result
            (object_lines names.now (record {
              number = self.old.objects + 1;
              step = step;
              sections = (run_starts self.old.options.contract self.old.left (starts_of starts.now)).sections;
            })) }
    {
        write_object(self.alloc, self.objects + 1, step, sink)?;
        let contract = self.options.contract;
        let ending = write_starts(self.alloc, names, contract, self.left, starts, sink)?;
        Ok(self.finish(step, ending)?)
    }

    /// Writes an object before whose sections the run stopped.
    fn write_stopped<K: Sink>(
        &mut self,
        step: u8,
        kind: StopKind,
        sink: &mut K,
    ) -> Result<(), WriteError>
        requires rank { IsRank D }
        requires within { step ≤ D }
        requires few { self.old.objects + 1 < 2 ^ 32 }
        ensures course { (log : Log) → IsCourseOf self.old log
            → OnOk result (IsCourseOf self.new (with_stop step (stop_of kind) log)) }
        ensures steps { OnOk result (steps_in self.new.values.items ≡ steps_in self.old.values.items ++ step ∷ []) }
        ensures writes { Writes (K.held sink.old) (K.held sink.new) (K.faults sink.old) (K.faults sink.new) result
            (object_line (self.old.objects + 1) step ∷ []) }
    {
        write_object(self.alloc, self.objects + 1, step, sink)?;
        let ending = Ending {
            entries: Vec::new(self.alloc),
            left: self.left,
            stop: Some(kind),
        };
        Ok(self.finish(step, ending)?)
    }

    /// Adds the value of an object that was written.
    fn finish(&mut self, step: u8, ending: Ending<D>) -> Result<(), NoMemory>
        requires few { self.old.objects + 1 < 2 ^ 32 }
        requires formed { IsValue D step ending.entries.items }
        ensures finishes { OnOk result (Finishes self.old self.new step ending.entry) }
    {
        let value = Value {
            step,
            entries: Items::of(ending.entries),
        };
        self.values.push(value)?;
        self.objects += 1;
        self.left = ending.left;
        self.stop = ending.stop;
        Ok(())
    }

    /// Adds the value of a free point.
    fn add_value(&mut self, value: Value<D>) -> Result<(), NoMemory>
        ensures { OnOk result (AddsPoint self.old self.new value.entry) }
    {
        Ok(self.values.push(value)?)
    }

    /// How many turns were made, and the polynomial of the last value.
    pub fn summary(&self) -> Result<Summary<D>, NoMemory>
        requires { IsRank D }
        ensures turns { IfOk result (λ summary. summary.turns ≡ self.now.options.budget - self.now.left) }
        ensures end { IfOk result (λ summary.
            summary.end.tracked.sum ≡ last_polynomial (values_of self.now.values.items)) }
    {
        Ok(Summary {
            turns: self.options.budget.saturating_sub(self.left),
            end: last_polynomial(self.alloc, &self.values)?,
        })
    }
}

/// The polynomial of the last value, which is 0 where that has no entry.
fn last_polynomial<const D: usize>(alloc: Global, values: &[Value<D>]) -> Result<Poly<D>, NoMemory>
    requires { IsRank D }
    ensures { IfOk result (λ polynomial. polynomial.tracked.sum ≡ last_polynomial (values_of values.now)) }
{
    let Some(value) = values.last() else {
        return Ok(Poly::new(alloc));
    };
    match value.entries.items().first() {
        Some((_, polynomial)) => polynomial.copy(),
        None => Ok(Poly::new(alloc)),
    }
}
