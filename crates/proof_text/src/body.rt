//! How lines change what has been read, where their names and numbers are good.
ghost use Rattle.std.specs.Prelude.{◌≡◌, ◌<◌, ◌≤◌, ◌+◌, ◌^◌, ◌++◌, ◌∷◌, [], false, length, slice_index, OnOk, Ok};
ghost use Rattle.std.specs.List.{AllByRecursion};
ghost use Rattle.coordinate_model.specs.Sequences.{IsRank};
ghost use Rattle.coordinate_model.specs.Sums.{empty};
ghost use Rattle.coordinate_model.specs.Key.{key_cmp};
ghost use Rattle.bracket_terms.specs.LogUses.{use_of};
ghost use Rattle.bracket_poly.specs.Tracked.{met_limit};
ghost use Rattle.bracket_poly.specs.Values.{extensor_size};
ghost use Rattle.proof_text.specs.Forms.{Form as SaidForm, IsForm, IsRowOf};
ghost use Rattle.proof_text.specs.Kinds.{is_unnamed, is_misnumbered};
ghost use Rattle.proof_text.specs.Ordered.{takes_well};
ghost use Rattle.proof_text.specs.Outcome.{AreNames};
ghost use Rattle.proof_text.specs.Seen.{part_seen, spelt_seen};
ghost use Rattle.proof_text.specs.State.{Place as SaidPlace, begun, behind_term, with_object, zero_at};
ghost use Rattle.proof_text.specs.StateSeen.{place_seen, state_seen, IsSound};
ghost use Rattle.proof_text.specs.Taken.{Takes};

use crate::adding::{add_last, is_behind, is_behind_sections};
use crate::fault::{LineError, ProofKind};
use crate::line_words::Words;
use crate::moves::is_decided;
use crate::products::{coefficient, key};
use crate::scalars::extensor;
use crate::spelling::{Part, Spelt};
use crate::state::{Place, State};
use bracket_poly::{ObjectLog, Poly};
use bracket_terms::{Items, LogUse};
use cay_base::NoMemory;
use std::alloc::Global;
use std::mem;
use step_types::Names;

/// The place behind a term.
fn behind_term(place: Place) -> Place
    ensures { place_seen result ≡ behind_term (place_seen place) }
{
    match place {
        Place::AtTerms(part) => Place::AtMore(part),
        _ => place,
    }
}

impl<const D: usize> State<D> {
    /// Puts the object that is read behind those that are done.
    pub(crate) fn end_object(&mut self, alloc: Global) -> Result<(), NoMemory>
        requires { IsSound self.old }
        ensures ended { OnOk result (state_seen self.new ≡ record (state_seen self.old)
            { objects = begun (state_seen self.old); sections = [] }) }
        ensures sound { OnOk result (IsSound self.new) }
    {
        let sections = mem::replace(&mut self.sections, Vec::new(alloc));
        if self.number == 0 {
            self.objects.clear();
            return Ok(());
        }
        self.objects.push(ObjectLog {
            number: self.number,
            step: self.step,
            sections: Items::of(sections),
        })?;
        Ok(())
    }

    /// Begins the next object, which has its step.
    pub(crate) fn begin_object(&mut self, alloc: Global, steps: &[u8]) -> Result<(), LineError>
        requires more { length (begun (state_seen self.old)) < length steps.now }
        requires few { length steps.now < 2 ^ 32 }
        requires within { AllByRecursion (λ step. step ≤ D) steps.now }
        requires sound { IsSound self.old }
        ensures taken { Takes (λ _. state_seen self.new) result
            (Ok (with_object (length (begun (state_seen self.old)) + 1)
            (slice_index steps.now (length (begun (state_seen self.old)))) (state_seen self.old))) }
        ensures sound { OnOk result (IsSound self.new) }
    {
        let begun = self.begun();
        let step = steps[begun];
        self.end_object(alloc)?;
        self.number = begun as u32 + 1;
        self.step = step;
        self.place = Place::AtSection;
        Ok(())
    }

    /// How many points the scalars of the object have that is read.
    fn extensor_size(&self) -> usize
        ensures { result ≡ extensor_size D self.now.step }
    {
        if self.step as usize == D {
            0
        } else {
            self.step as usize
        }
    }

    /// Begins a section, whose points come behind those of the last one.
    pub(crate) fn take_scalar(
        &mut self,
        alloc: Global,
        names: &Names,
        words: &Words,
    ) -> Result<(), LineError>
        requires rank { IsRank D }
        requires names { AreNames D names.now }
        requires sound { IsSound self.old }
        ensures taken { Takes (λ _. state_seen self.new) result
            (takes_well names.now (state_seen self.old) (SaidForm.Scalar words.now)) }
        ensures sound { OnOk result (IsSound self.new) }
    {
        let Some(scalar) = extensor(alloc, names, self.extensor_size(), words)? else {
            return Err(LineError::Fault(ProofKind::Order));
        };
        if !is_behind_sections(&scalar.points[..scalar.size as usize], &self.sections) {
            return Err(LineError::Fault(ProofKind::Order));
        }
        self.scalar = scalar;
        self.place = Place::AtStart;
        Ok(())
    }

    /// Goes on at the place.
    pub(crate) fn go_on(&mut self, place: Place) -> Result<(), LineError>
        requires { IsSound self.old }
        ensures taken { Takes (λ _. state_seen self.new) result
            (Ok (record (state_seen self.old) { place = place_seen place })) }
        ensures sound { OnOk result (IsSound self.new) }
    {
        self.place = place;
        Ok(())
    }

    /// Opens a list of terms.
    pub(crate) fn open_list(&mut self, alloc: Global, part: Part) -> Result<(), LineError>
        requires rank { IsRank D }
        requires sound { IsSound self.old }
        ensures taken { Takes (λ _. state_seen self.new) result
            (Ok (record (state_seen self.old) { place = SaidPlace.AtTerms (part_seen part); terms = empty key_cmp })) }
        ensures sound { OnOk result (IsSound self.new) }
    {
        self.terms = Poly::new(alloc);
        self.go_on(Place::AtTerms(part))
    }

    /// Ends the list that is read, which is empty.
    pub(crate) fn take_zero(&mut self, alloc: Global) -> Result<(), LineError>
        requires rank { IsRank D }
        requires sound { IsSound self.old }
        ensures taken { Takes (λ _. state_seen self.new) result
            (Ok (zero_at (state_seen self.old).place (state_seen self.old))) }
        ensures sound { OnOk result (IsSound self.new) }
    {
        match self.place {
            Place::AtTerms(part) => Ok(self.end_part(alloc, part)?),
            _ => Ok(()),
        }
    }

    /// Adds the term, which comes behind those of its list.
    pub(crate) fn take_term(
        &mut self,
        alloc: Global,
        names: &Names,
        term: &Spelt,
    ) -> Result<(), LineError>
        requires rank { IsRank D }
        requires names { AreNames D names.now }
        requires formed { IsForm (IsRowOf D) D (SaidForm.Term (spelt_seen term.now)) }
        requires named { is_unnamed names.now (SaidForm.Term (spelt_seen term.now)) ≡ false }
        requires numbered { is_misnumbered (SaidForm.Term (spelt_seen term.now)) ≡ false }
        requires room { length self.old.terms.tracked.sum.terms < met_limit }
        requires sound { IsSound self.old }
        ensures taken { Takes (λ _. state_seen self.new) result
            (takes_well names.now (state_seen self.old) (SaidForm.Term (spelt_seen term.now))) }
        ensures sound { OnOk result (IsSound self.new) }
    {
        let key = key::<D>(alloc, names, term)?;
        if !is_behind(&self.terms, &key) {
            return Err(LineError::Fault(ProofKind::Order));
        }
        add_last(&mut self.terms, key, coefficient(term))?;
        self.place = behind_term(self.place);
        Ok(())
    }

    /// Puts the use behind those of the section.
    pub(crate) fn add_use(&mut self, log_use: LogUse<D>) -> Result<(), LineError>
        requires { IsSound self.old }
        ensures taken { Takes (λ _. state_seen self.new) result
            (Ok (record (state_seen self.old)
            { place = SaidPlace.AtUses; uses = (state_seen self.old).uses ++ use_of log_use.entry ∷ [] })) }
        ensures sound { OnOk result (IsSound self.new) }
    {
        self.uses.push(log_use)?;
        self.go_on(Place::AtUses)
    }

    /// Takes the verdict, where it is that of the one section of the last object.
    pub(crate) fn take_verdict(&mut self, names: &Names, is_proved: bool) -> Result<(), LineError>
        requires { IsSound self.old }
        ensures taken { Takes (λ _. state_seen self.new) result
            (takes_well names.now (state_seen self.old) (SaidForm.Verdict is_proved)) }
        ensures sound { OnOk result (IsSound self.new) }
    {
        if !is_decided(is_proved, &self.sections) {
            return Err(LineError::Fault(ProofKind::Verdict));
        }
        self.proved = is_proved;
        self.place = Place::Over;
        Ok(())
    }
}
