//! How a line changes what has been read.
ghost use Rattle.std.specs.Prelude.{◌≡◌, length, map, OnOk};
ghost use Rattle.coordinate_model.specs.Sequences.{IsRank};
ghost use Rattle.bracket_poly.specs.Sections.{rewritten_of};
ghost use Rattle.proof_text.specs.Told.{is_zero_end};
ghost use Rattle.proof_text.specs.Kinds.{is_next_object, is_other_object, is_decided};
ghost use Rattle.proof_text.specs.Seen.{part_seen, form_seen};
ghost use Rattle.proof_text.specs.State.{takes, ended_at, ready, begun, has_room, may_stand, with_part, with_end};
ghost use Rattle.proof_text.specs.Outcome.{HasMetTerms};
ghost use Rattle.proof_text.specs.StateSeen.{place_seen, state_seen, IsSound};

use crate::numbers::writes;
use crate::spelling::{Form, Part};
use crate::state::{Place, State};
use crate::word::Word;
use bracket_poly::{Poly, Section};
use bracket_terms::Items;
use cay_base::NoMemory;
use std::alloc::Global;
use std::mem;

/// Whether the form may stand at the place, where objects are still to come or not.
pub(crate) fn takes(more: bool, place: Place, form: &Form) -> bool
    ensures { result ≡ takes more (place_seen place) (form_seen form.now) }
{
    match (place, form) {
        (Place::AtProof, Form::Proof) => true,
        (Place::AtRank, Form::Rank(_)) => true,
        (Place::AtFree, Form::Free(_)) => true,
        (Place::AtParams, Form::Params(_)) => true,
        (Place::AtObject, Form::Object(..)) => more,
        (Place::AtSection, Form::Object(..)) => more,
        (Place::AtSection, Form::Scalar(_)) => true,
        (Place::AtSection, Form::Verdict(_)) => !more,
        (Place::AtStart, Form::Opens(Part::Start)) => true,
        (Place::AtTerms(_), Form::Zero | Form::Term(_)) => true,
        (Place::AtMore(_), Form::Term(_)) => true,
        (Place::AtUses, Form::Use { .. }) => true,
        (Place::AtUses, Form::Opens(Part::End)) => true,
        _ => false,
    }
}

impl<const D: usize> State<D> {
    /// Ends the list of terms.
    pub(crate) fn end_part(&mut self, alloc: Global, part: Part) -> Result<(), NoMemory>
        requires rank { IsRank D }
        requires sound { IsSound self.old }
        ensures ended { OnOk result (state_seen self.new ≡ with_part (part_seen part) (state_seen self.old)) }
        ensures sound { OnOk result (IsSound self.new) }
    {
        let terms = mem::replace(&mut self.terms, Poly::new(alloc));
        match part {
            Part::Start => {
                self.start = terms;
                self.uses = Vec::new(alloc);
                self.place = Place::AtUses;
                Ok(())
            }
            Part::End => self.end_section(alloc, terms),
        }
    }

    /// Puts the section that is read behind those that are done, with this end.
    fn end_section(&mut self, alloc: Global, end: Poly<D>) -> Result<(), NoMemory>
        requires rank { IsRank D }
        requires sound { IsSound self.old }
        requires met { HasMetTerms end }
        ensures ended { OnOk result (state_seen self.new ≡ with_end end.entry.tracked.sum (state_seen self.old)) }
        ensures sound { OnOk result (IsSound self.new) }
    {
        let start = mem::replace(&mut self.start, Poly::new(alloc));
        let uses = mem::replace(&mut self.uses, Vec::new(alloc));
        self.sections.push(Section {
            scalar: self.scalar,
            start,
            uses: Items::of(uses),
            end: Some(end),
        })?;
        self.place = Place::AtSection;
        Ok(())
    }

    /// Ends the list of terms that is read, where it has a term.
    fn end_list(&mut self, alloc: Global) -> Result<(), NoMemory>
        requires rank { IsRank D }
        requires sound { IsSound self.old }
        ensures ended { OnOk result (state_seen self.new ≡ ended_at (state_seen self.old).place (state_seen self.old)) }
        ensures sound { OnOk result (IsSound self.new) }
    {
        match self.place {
            Place::AtMore(part) => self.end_part(alloc, part),
            _ => Ok(()),
        }
    }

    /// Makes ready for a line of this form.
    pub(crate) fn make_ready(&mut self, alloc: Global, form: &Form) -> Result<(), NoMemory>
        requires rank { IsRank D }
        requires sound { IsSound self.old }
        ensures ready { OnOk result (state_seen self.new ≡ ready (form_seen form.now) (state_seen self.old)) }
        ensures sound { OnOk result (IsSound self.new) }
    {
        match form {
            Form::Term(_) | Form::Zero => Ok(()),
            _ => self.end_list(alloc),
        }
    }

    /// How many objects have been begun.
    pub(crate) fn begun(&self) -> usize
        ensures { result ≡ length (begun (state_seen self.now)) }
    {
        if self.number == 0 {
            0
        } else {
            self.objects.len() + 1
        }
    }

    /// Whether there is room for the term in its list.
    fn has_room(&self, form: &Form) -> bool
        ensures { result ≡ has_room (state_seen self.now) (form_seen form.now) }
    {
        match form {
            Form::Term(_) => self.terms.len() < 2_097_152,
            _ => true,
        }
    }

    /// Whether a line of the form may stand there, in a proof of these steps.
    pub(crate) fn may_stand(&self, steps: &[u8], form: &Form) -> bool
        ensures { result ≡ may_stand steps.now (state_seen self.now) (form_seen form.now) }
    {
        takes(self.begun() < steps.len(), self.place, form) && self.has_room(form)
    }

    /// Whether the object is another than the next one of the text.
    pub(crate) fn is_other_object(&self, steps: &[u8], form: &Form) -> bool
        ensures { result ≡ is_other_object steps.now (state_seen self.now) (form_seen form.now) }
    {
        match form {
            Form::Object(number, step) => !self.is_next(steps, number, step),
            _ => false,
        }
    }

    fn is_next(&self, steps: &[u8], number: &Word, step: &Word) -> bool
        ensures { result ≡ is_next_object steps.now (state_seen self.now) number.now step.now }
    {
        let begun = self.begun();
        let next = steps.get(begun).copied().unwrap_or(0);
        writes(number.bytes(), begun as u128 + 1) && writes(step.bytes(), u128::from(next))
    }
}

/// Whether the only one of the sections has an end that is zero or not.
pub(crate) fn is_decided<const D: usize>(is_proved: bool, sections: &[Section<D>]) -> bool
    ensures { result ≡ is_decided is_proved (map rewritten_of sections.now) }
{
    match sections {
        [section] => {
            if is_zero_end(section) {
                is_proved
            } else {
                !is_proved
            }
        }
        _ => false,
    }
}

fn is_zero_end<const D: usize>(section: &Section<D>) -> bool
    ensures { result ≡ is_zero_end (rewritten_of section.now).end }
{
    match &section.end {
        Some(end) => end.len() == 0,
        None => false,
    }
}
