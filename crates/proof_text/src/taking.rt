//! Lines of a proof text, taken one after another.
ghost use Rattle.std.specs.Prelude.{◌≡◌, ◌<◌, IfSome, IsNone};
ghost use Rattle.std.specs.Prelude.{OnOk, Err};
ghost use Rattle.coordinate_model.specs.Sequences.{IsRank};
ghost use Rattle.proof_text.specs.Forms.{IsForm, IsRowOf};
ghost use Rattle.proof_text.specs.Kinds.{is_unnamed, is_misnumbered};
ghost use Rattle.proof_text.specs.Ordered.{StandsWell, takes_well};
ghost use Rattle.proof_text.specs.Outcome.{AreNames, AreSteps};
ghost use Rattle.proof_text.specs.Readings.{takes_ready};
ghost use Rattle.proof_text.specs.Seen.{form_seen};
ghost use Rattle.proof_text.specs.StateSeen.{state_seen, IsSound};
ghost use Rattle.proof_text.specs.Taken.{Takes};

use crate::fault::{LineError, ProofKind};
use crate::kinds::{is_misnumbered, is_other_header, is_unnamed};
use crate::products::log_use;
use crate::spelling::Form;
use crate::state::{Place, State};
use std::alloc::Global;
use step_types::Names;

impl<const D: usize> State<D> {
    /// The first of the kinds of fault up to numbers that the line has, for which it is ready.
    fn early_fault(&self, names: &Names, steps: &[u8], form: &Form) -> Option<ProofKind>
        requires { IsForm (IsRowOf D) D (form_seen form.now) }
        ensures some { IfSome result (λ found. takes_ready names.now steps.now (state_seen self.now)
            (form_seen form.now) ≡ Err found) }
        ensures none { IsNone result → StandsWell D names.now steps.now (state_seen self.now) (form_seen form.now) }
    {
        if !self.may_stand(steps, form) {
            Some(ProofKind::Shape)
        } else if is_other_header(names, form) {
            Some(ProofKind::Header)
        } else if self.is_other_object(steps, form) {
            Some(ProofKind::Object)
        } else if is_unnamed(names, form) {
            Some(ProofKind::Name)
        } else if is_misnumbered(form) {
            Some(ProofKind::Number)
        } else {
            None
        }
    }

    /// Takes a line of this form, for which it is ready.
    pub(crate) fn take_ready(
        &mut self,
        alloc: Global,
        names: &Names,
        steps: &[u8],
        form: &Form,
    ) -> Result<(), LineError>
        requires rank { IsRank D }
        requires names { AreNames D names.now }
        requires steps { AreSteps D steps.now }
        requires formed { IsForm (IsRowOf D) D (form_seen form.now) }
        requires sound { IsSound self.old }
        ensures taken { Takes (λ _. state_seen self.new) result
            (takes_ready names.now steps.now (state_seen self.old) (form_seen form.now)) }
        ensures sound { OnOk result (IsSound self.new) }
    {
        match self.early_fault(names, steps, form) {
            Some(found) => Err(LineError::Fault(found)),
            None => self.take_well(alloc, names, steps, form),
        }
    }

    /// Takes a line of this form, of which the names and the numbers are good.
    fn take_well(
        &mut self,
        alloc: Global,
        names: &Names,
        steps: &[u8],
        form: &Form,
    ) -> Result<(), LineError>
        requires rank { IsRank D }
        requires names { AreNames D names.now }
        requires steps { AreSteps D steps.now }
        requires well { StandsWell D names.now steps.now (state_seen self.old) (form_seen form.now) }
        requires sound { IsSound self.old }
        ensures taken { Takes (λ _. state_seen self.new) result
            (takes_well names.now (state_seen self.old) (form_seen form.now)) }
        ensures sound { OnOk result (IsSound self.new) }
    {
        match form {
            Form::Proof => self.go_on(Place::AtRank),
            Form::Rank(_) => self.go_on(Place::AtFree),
            Form::Free(_) => self.go_on(Place::AtParams),
            Form::Params(_) => self.go_on(Place::AtObject),
            Form::Object(..) => self.begin_object(alloc, steps),
            Form::Scalar(words) => self.take_scalar(alloc, names, words),
            Form::Opens(part) => self.open_list(alloc, *part),
            Form::Zero => self.take_zero(alloc),
            Form::Term(term) => self.take_term(alloc, names, term),
            Form::Use {
                term,
                alpha,
                beta,
                gamma,
            } => self.add_use(log_use(alloc, names, term, alpha, beta, gamma)?),
            Form::Verdict(is_proved) => self.take_verdict(names, *is_proved),
        }
    }
}
