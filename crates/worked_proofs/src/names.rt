//! The names and the steps for which the texts are read.
ghost use Rattle.std.specs.Prelude.{◌≡◌, ◌∷◌, [], true, nat_le, map, IfOk};
ghost use Rattle.std.specs.List.{list_all};
ghost use Rattle.coordinate_model.specs.Sequences.{IsRank};
ghost use Rattle.proof_text.specs.Outcome.{AreNames, AreSteps};

use cay_base::NoMemory;
use construction_reader::{Items, Name};
use std::alloc::Global;
use step_types::Names;

/// Names of one letter each.
fn letters(alloc: Global, bytes: &[u8]) -> Result<Items<Name>, NoMemory>
    ensures { IfOk result (λ names. names ≡ map (λ byte. byte ∷ []) bytes.now) }
{
    let mut names = Vec::new(alloc);
    for byte in bytes {
        names.push(Name::new(alloc, &[*byte])?)?;
    }
    Ok(Items::of(names))
}

/// The points A to H and the parameters t and u.
pub fn given_names<const D: usize>(alloc: Global) -> Result<Names, NoMemory>
    requires { IsRank D }
    ensures { IfOk result (AreNames D) }
{
    Ok(Names {
        rank: D as u8,
        free: letters(alloc, b"ABCDEFGH")?,
        params: letters(alloc, b"tu")?,
    })
}

/// Whether none of the steps is over the most.
fn are_within(steps: &[u8], most: usize) -> bool
    ensures { result ≡ list_all (λ step. nat_le step most) steps.now }
{
    steps.iter().all(|step| *step as usize <= most)
}

/// Whether a proof of rank `D` can have these steps.
pub fn are_steps<const D: usize>(steps: &[u8]) -> bool
    requires { IsRank D }
    ensures { result ≡ true → AreSteps D steps.now }
{
    !steps.is_empty() && steps.len() < 1_000 && are_within(steps, D)
}
