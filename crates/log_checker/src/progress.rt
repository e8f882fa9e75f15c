//! How far the check of a proof has come.

ghost use Rattle.std.specs.Prelude.{◌≡◌, ◌+◌, ◌^◌, ◌<◌, [], ◌∷◌, ◌++◌, None, Ok, OnOk, IfOk, IfErr};
ghost use Rattle.std.specs.Prelude.{drop, length, sum_by};
ghost use Rattle.std.specs.List.{AllByRecursion};
ghost use Rattle.coordinate_model.specs.Sequences.{IsRank};
ghost use Rattle.bracket_poly.specs.Values.{value_of};
ghost use Rattle.conic_points.specs.Points.{values_of};
ghost use Rattle.shuffle_meet.specs.Seen.{seen};
ghost use Rattle.log_checker.specs.Accepted.{AreSectionsAccepted, IsObjectAccepted};
ghost use Rattle.log_checker.specs.Checked.{UnlessMemory};
ghost use Rattle.log_checker.specs.Claims.{claims_of, ended_value};
ghost use Rattle.log_checker.specs.Objects.{point_of};
ghost use Rattle.log_checker.specs.ProofRefused.{IsObjectRefused};
ghost use Rattle.log_checker.specs.Ready.{AreStarts, IsReady, IsSmall};
ghost use Rattle.log_checker.specs.Seen.{GoesOn, IsCheckable, IsRefusedHere, error_refusal, place_of, steps_in};
ghost use Rattle.log_checker.specs.Starts.{starts_of};

use crate::object::check_object;
use crate::refusal::ProofRefusal;
use crate::starts::object_starts;
use crate::values::{ended_value, free_value};
use bracket_poly::{ObjectLog, Poly, PolyError, Section, Value};
use bracket_terms::Extensor;
use cayley_terms::Instr;
use std::alloc::Global;

/// How far the check of a proof has come: the value of each instruction, by the ends that are written, and how many
/// objects and sections were checked.
#[derive(Drop)]
pub(crate) struct Progress<const D: usize> {
    alloc: Global,
    pub values: Vec<Value<D>>,
    pub objects: u32,
    pub sections: u32,
}

impl<const D: usize> Progress<D> {
    pub fn new(alloc: Global) -> Self
        ensures values { result.values.items ≡ [] }
        ensures objects { result.objects ≡ 0 }
        ensures sections { result.sections ≡ 0 }
    {
        Progress {
            alloc,
            values: Vec::new(alloc),
            objects: 0,
            sections: 0,
        }
    }

    /// Goes on behind one more instruction of this step: a free point, or the next of the objects.
    pub fn check(
        &mut self,
        instr: Instr,
        step: u8,
        objects: &[ObjectLog<D>],
    ) -> Result<(), ProofRefusal<D>>
        requires rank { IsRank D }
        requires ready { IsReady D (steps_in self.old.values.items) (values_of self.old.values.items) instr step }
        requires there { point_of instr ≡ None → self.old.objects < length objects.now }
        requires few { length objects.now < 2 ^ 32 }
        requires room { self.old.sections
            + sum_by (λ o. length o.sections) (drop self.old.objects objects.now) < 2 ^ 32 }
        requires checkable { AllByRecursion (λ o. AllByRecursion IsCheckable o.sections) objects.now }
        ensures goes_on { OnOk result (GoesOn (place_of self.old) instr step objects.now (place_of self.new)) }
        ensures small { OnOk result (AllByRecursion IsSmall (values_of self.new.values.items)) }
        ensures steps { OnOk result (steps_in self.new.values.items ≡ steps_in self.old.values.items ++ step ∷ []) }
        ensures room { OnOk result (self.new.sections
            + sum_by (λ o. length o.sections) (drop self.new.objects objects.now) < 2 ^ 32) }
        ensures refused { IfErr result (UnlessMemory (IsRefusedHere (place_of self.old) instr step objects.now)) }
    {
        match instr {
            Instr::Free(point) => {
                let value = free_value(self.alloc, point)?;
                Ok(self.values.push(value)?)
            }
            _ => self.check_next(instr, step, &objects[self.objects as usize]),
        }
    }

    /// Goes on behind an instruction that makes an object.
    fn check_next(
        &mut self,
        instr: Instr,
        step: u8,
        object: &ObjectLog<D>,
    ) -> Result<(), ProofRefusal<D>>
        requires rank { IsRank D }
        requires ready { IsReady D (steps_in self.old.values.items) (values_of self.old.values.items) instr step }
        requires few { self.old.objects + 1 < 2 ^ 32 }
        requires room { self.old.sections + length object.now.sections < 2 ^ 32 }
        requires checkable { AllByRecursion IsCheckable object.now.sections }
        ensures accepted { OnOk result
            (IsObjectAccepted D (values_of self.old.values.items) instr step (claims_of object.now.sections)) }
        ensures values { OnOk result (values_of self.new.values.items
            ≡ values_of self.old.values.items ++ ended_value (claims_of object.now.sections) ∷ []) }
        ensures steps { OnOk result (steps_in self.new.values.items ≡ steps_in self.old.values.items ++ step ∷ []) }
        ensures objects { OnOk result (self.new.objects ≡ self.old.objects + 1) }
        ensures sections { OnOk result (self.new.sections ≡ self.old.sections + length object.now.sections) }
        ensures refused { IfErr result (UnlessMemory
            (IsObjectRefused (starts_of D (values_of self.old.values.items) instr step) (claims_of object.now.sections)
            (self.old.objects + 1) (self.old.sections + 1))) }
    {
        let sections = object.sections.items();
        let number = self.objects + 1;
        let value = checked_value(
            self.alloc,
            &self.values,
            instr,
            step,
            sections,
            number,
            self.sections,
        )?;
        self.values.push(value)?;
        self.objects = number;
        self.sections += sections.len() as u32;
        Ok(())
    }
}

/// The value of the object of an instruction, where it is accepted. It has this number, and so many sections come
/// before its own.
fn checked_value<const D: usize>(
    alloc: Global,
    values: &[Value<D>],
    instr: Instr,
    step: u8,
    sections: &[Section<D>],
    object: u32,
    before: u32,
) -> Result<Value<D>, ProofRefusal<D>>
    requires rank { IsRank D }
    requires ready { IsReady D (steps_in values.now) (values_of values.now) instr step }
    requires room { before + length sections.now < 2 ^ 32 }
    requires checkable { AllByRecursion IsCheckable sections.now }
    ensures accepted { OnOk result
        (IsObjectAccepted D (values_of values.now) instr step (claims_of sections.now)) }
    ensures value { IfOk result (λ value. value_of value.entries ≡ ended_value (claims_of sections.now)) }
    ensures step { IfOk result (λ value. value.step ≡ step) }
    ensures refused { IfErr result (UnlessMemory
        (IsObjectRefused (starts_of D (values_of values.now) instr step) (claims_of sections.now) object
        (before + 1))) }
{
    match object_starts(alloc, values, instr, step) {
        Ok(starts) => value_from(alloc, step, starts.items(), sections, object, before),
        Err(error) => Err(limit_refusal(object, error)),
    }
}

/// The value of the object of these sections, where they are accepted as those of these starts.
fn value_from<const D: usize>(
    alloc: Global,
    step: u8,
    starts: &[(Extensor, Poly<D>)],
    sections: &[Section<D>],
    object: u32,
    before: u32,
) -> Result<Value<D>, ProofRefusal<D>>
    requires rank { IsRank D }
    requires formed { AreStarts D step starts.now }
    requires room { before + length sections.now < 2 ^ 32 }
    requires checkable { AllByRecursion IsCheckable sections.now }
    ensures accepted { OnOk result (AreSectionsAccepted D (seen starts.now) (claims_of sections.now)) }
    ensures value { IfOk result (λ value. value_of value.entries ≡ ended_value (claims_of sections.now)) }
    ensures step { IfOk result (λ value. value.step ≡ step) }
    ensures refused { IfErr result (UnlessMemory
        (IsObjectRefused (Ok (seen starts.now)) (claims_of sections.now) object (before + 1))) }
{
    check_object(alloc, starts, sections, object, before)?;
    Ok(ended_value(alloc, step, sections)?)
}

/// The refusal of the object of this number for an error in making its starts.
fn limit_refusal<const D: usize>(object: u32, error: PolyError) -> ProofRefusal<D>
    ensures { result ≡ error_refusal object error }
{
    match error {
        PolyError::Coefficient => ProofRefusal::ObjectCoefficient(object),
        PolyError::Keys => ProofRefusal::ObjectKeys(object),
        PolyError::Memory => ProofRefusal::Memory,
    }
}
