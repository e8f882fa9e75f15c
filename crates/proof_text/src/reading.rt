//! Reading a proof text, line by line.
ghost use Rattle.std.specs.Prelude.{◌≡◌, ◌≤◌, length, IfOk, IfErr, OnOk, MatchResult};
ghost use Rattle.coordinate_model.specs.Sequences.{IsRank};
ghost use Rattle.proof_text.specs.Faults.{IsCause};
ghost use Rattle.proof_text.specs.Outcome.{AreNames, AreSteps, HaveMetTerms, IsCountable, told_of};
ghost use Rattle.proof_text.specs.Readings.{takes_form, takes_line, ends, read_of};
ghost use Rattle.proof_text.specs.Shapes.{form_of};
ghost use Rattle.proof_text.specs.StateSeen.{state_seen, IsSound};
ghost use Rattle.proof_text.specs.Taken.{Takes, Reads, at_number};
ghost use Rattle.proof_text.specs.Told.{Told, TextOf};

use crate::cut::{first_line, is_stopped};
use crate::fault::{FormError, LineError, ProofError, ProofFault, ProofKind};
use crate::proof::Proof;
use crate::state::{Place, State};
use crate::whole::form_of;
use bracket_terms::Items;
use std::alloc::Global;
use step_types::Names;

/// The proof of which the bytes are the text, for the names and the steps of the objects of a text.
///
/// `Fault` tells the first faulty line, counted from 1, and the first kind of fault that it has.
pub fn read_proof<const D: usize>(
    alloc: Global,
    bytes: &[u8],
    names: &Names,
    steps: &[u8],
) -> Result<Proof<D>, ProofError>
    requires rank { IsRank D }
    requires short { length bytes.now ≤ 1073741824 }
    requires names { AreNames D names.now }
    requires steps { AreSteps D steps.now }
    // The bytes are the text of what is read.
    ensures found { IfOk result (λ p. TextOf names.now steps.now bytes.now (told_of p)) }
    // The text of a proof is read, unless memory runs out.
    ensures only { (p : Told) → TextOf names.now steps.now bytes.now p
        → MatchResult result (λ read. told_of read ≡ p) (λ error. error ≡ ProofError.Memory) }
    ensures met { IfOk result HaveMetTerms }
    ensures countable { IfOk result IsCountable }
    // What is refused for another cause has that fault.
    ensures fault { IfErr result (IsCause names.now steps.now bytes.now) }
{
    read_lines::<D>(alloc, bytes, names, steps)
}

fn read_lines<const D: usize>(
    alloc: Global,
    bytes: &[u8],
    names: &Names,
    steps: &[u8],
) -> Result<Proof<D>, ProofError>
    requires rank { IsRank D }
    requires short { length bytes.now ≤ 1073741824 }
    requires names { AreNames D names.now }
    requires steps { AreSteps D steps.now }
    ensures read { Reads told_of result (read_of names.now steps.now bytes.now) }
    ensures met { IfOk result HaveMetTerms }
{
    let mut state = State::<D>::new(alloc);
    let mut number: u32 = 1;
    let mut rest = bytes;
    while !rest.is_empty() {
        let (line, closed, after) = first_line(rest);
        if let Err(error) = state.take_line(alloc, names, steps, line, closed) {
            return Err(at(number, error));
        }
        number += 1;
        rest = after;
    }
    finish(alloc, number, state)
}

/// A line's error as the text's.
fn at(number: u32, error: LineError) -> ProofError
    ensures { result ≡ at_number number error }
{
    match error {
        LineError::Fault(kind) => ProofError::Fault(ProofFault { line: number, kind }),
        LineError::Memory => ProofError::Memory,
    }
}

/// The proof that is read, where nothing is missing before the line of this number.
fn finish<const D: usize>(
    alloc: Global,
    number: u32,
    mut state: State<D>,
) -> Result<Proof<D>, ProofError>
    requires { IsSound state }
    ensures read { Reads told_of result (ends number (state_seen state.entry)) }
    ensures met { IfOk result HaveMetTerms }
{
    if state.place != Place::Over {
        return Err(ProofError::Fault(ProofFault {
            line: number,
            kind: ProofKind::Shape,
        }));
    }
    state.end_object(alloc)?;
    Ok(Proof {
        objects: Items::of(state.objects),
        proved: state.proved,
    })
}

impl<const D: usize> State<D> {
    /// Takes a line, and whether an LF ends it.
    #[tactic(auto, unfolding(crate::specs::Readings::takes_line))]
    fn take_line(
        &mut self,
        alloc: Global,
        names: &Names,
        steps: &[u8],
        line: &[u8],
        closed: bool,
    ) -> Result<(), LineError>
        requires rank { IsRank D }
        requires names { AreNames D names.now }
        requires steps { AreSteps D steps.now }
        requires sound { IsSound self.old }
        ensures taken { Takes (λ _. state_seen self.new) result
            (takes_line names.now steps.now (record { bytes = line.now; closed = closed }) (state_seen self.old)) }
        ensures sound { OnOk result (IsSound self.new) }
    {
        if self.place == Place::Over {
            return Err(LineError::Fault(ProofKind::Ended));
        }
        if !closed {
            return Err(LineError::Fault(ProofKind::Shape));
        }
        if is_stopped(line) {
            return Err(LineError::Fault(ProofKind::Unfinished));
        }
        self.take_form(alloc, names, steps, line)
    }

    /// Takes a whole line by its form.
    fn take_form(
        &mut self,
        alloc: Global,
        names: &Names,
        steps: &[u8],
        line: &[u8],
    ) -> Result<(), LineError>
        requires rank { IsRank D }
        requires names { AreNames D names.now }
        requires steps { AreSteps D steps.now }
        requires sound { IsSound self.old }
        ensures taken { Takes (λ _. state_seen self.new) result
            (takes_form names.now steps.now (state_seen self.old) (form_of names.now.rank line.now)) }
        ensures sound { OnOk result (IsSound self.new) }
    {
        match form_of(alloc, D, line) {
            Ok(form) => {
                self.make_ready(alloc, &form)?;
                self.take_ready(alloc, names, steps, &form)
            }
            Err(FormError::Shapeless) => Err(LineError::Fault(ProofKind::Shape)),
            Err(FormError::Memory) => Err(LineError::Memory),
        }
    }
}
