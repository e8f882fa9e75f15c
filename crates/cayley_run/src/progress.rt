//! How far a run has come.

ghost use Rattle.std.specs.Prelude.{◌≡◌, ◌≤◌, ◌+◌, ◌^◌, ◌<◌, List, [], ◌∷◌, ◌++◌, length, OnOk};
ghost use Rattle.coordinate_model.specs.Sequences.{IsRank};
ghost use Rattle.shuffle_meet.specs.Stops.{Start};
ghost use Rattle.cayley_run.specs.MetKeys.{HaveMet, instr_starts};
ghost use Rattle.cayley_run.specs.Ready.{IsReady, AreSections};
ghost use Rattle.cayley_run.specs.Results.{stop_of};
ghost use Rattle.cayley_run.specs.Runs.{at_start, with_instr, with_stop, with_sections};
ghost use Rattle.cayley_run.specs.Seen.{log_of, steps_of, sections_of, MeetsMore};

use crate::answer::{Options, StopKind};
use crate::making::{Made, make};
use crate::sections::{Sections, run_starts};
use crate::values::value_from;
use bracket_poly::{Items, ObjectLog, Value};
use cay_base::NoMemory;
use cayley_terms::Instr;
use std::alloc::Global;

/// What a run has done: how it is run, the value of each instruction, the objects that were worked out, the turns that
/// are left, and what stopped it, if anything did.
#[derive(Drop)]
pub(crate) struct Progress<const D: usize> {
    alloc: Global,
    pub options: Options,
    pub values: Vec<Value<D>>,
    pub objects: Vec<ObjectLog<D>>,
    pub left: u64,
    pub stop: Option<StopKind>,
}

impl<const D: usize> Progress<D> {
    pub fn new(alloc: Global, options: Options) -> Self
        ensures log { log_of result ≡ at_start options }
        ensures steps { steps_of result ≡ [] }
    {
        Progress {
            alloc,
            options,
            values: Vec::new(alloc),
            objects: Vec::new(alloc),
            left: options.budget,
            stop: None,
        }
    }

    /// Runs one instruction of this step.
    pub fn run(&mut self, instr: Instr, step: u8) -> Result<(), NoMemory>
        requires rank { IsRank D }
        requires ready { IsReady D (steps_of self.old) (log_of self.old).values instr step }
        requires few { length (log_of self.old).objects + 1 < 2 ^ 32 }
        ensures log { OnOk result (log_of self.new ≡ with_instr D (log_of self.old) (instr, step)) }
        ensures steps { OnOk result (steps_of self.new ≡ steps_of self.old ++ step ∷ []) }
        ensures met { OnOk result (MeetsMore self.old self.new
            (instr_starts D (log_of self.old).values (instr, step))) }
    {
        match make(self.alloc, &self.values, instr, step)? {
            Made::Point(value) => Ok(self.values.push(value)?),
            Made::Starts(starts) => {
                let contract = self.options.contract;
                let sections = run_starts(self.alloc, contract, self.left, starts.items())?;
                self.finish(step, sections)
            }
            Made::Stop(kind) => self.stop(step, kind),
        }
    }

    /// The object stops before its sections.
    fn stop(&mut self, step: u8, kind: StopKind) -> Result<(), NoMemory>
        requires rank { IsRank D }
        requires within { step ≤ D }
        requires few { length (log_of self.old).objects + 1 < 2 ^ 32 }
        ensures log { OnOk result (log_of self.new ≡ with_stop step (stop_of kind) (log_of self.old)) }
        ensures steps { OnOk result (steps_of self.new ≡ steps_of self.old ++ step ∷ []) }
        ensures met { OnOk result (MeetsMore self.old self.new ([] ∷ [])) }
    {
        let sections = Sections {
            sections: Vec::new(self.alloc),
            left: self.left,
            stop: Some(kind),
        };
        self.finish(step, sections)
    }

    /// Adds the object of these sections.
    fn finish(&mut self, step: u8, done: Sections<D>) -> Result<(), NoMemory>
        requires rank { IsRank D }
        requires within { step ≤ D }
        requires few { length (log_of self.old).objects + 1 < 2 ^ 32 }
        requires sections { AreSections D step (sections_of done).sections }
        ensures log { OnOk result (log_of self.new ≡ with_sections step (log_of self.old) (sections_of done.entry)) }
        ensures steps { OnOk result (steps_of self.new ≡ steps_of self.old ++ step ∷ []) }
        ensures met { (starts : List Start) → HaveMet done.entry.sections.items starts
            → OnOk result (MeetsMore self.old self.new (starts ∷ [])) }
    {
        let Sections {
            sections,
            left,
            stop,
        } = done;
        let value = value_from(self.alloc, step, &sections)?;
        let number = self.objects.len() as u32 + 1;
        self.objects.push(ObjectLog {
            number,
            step,
            sections: Items::of(sections),
        })?;
        self.values.push(value)?;
        self.left = left;
        self.stop = stop;
        Ok(())
    }
}
