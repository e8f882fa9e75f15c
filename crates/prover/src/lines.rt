//! Putting lines into a sink.

ghost use Rattle.std.specs.Prelude.{◌≡◌, ◌++◌, ◌∷◌, [], codes, IfOk};
ghost use Rattle.proof_text.specs.Writes.{Writes};

use cay_base::{NoMemory, Sink};
use proof_text::WriteError;
use std::alloc::Global;

/// Puts a line with this text, its LF included, in one piece.
pub fn put_line<K: Sink>(alloc: Global, text: &[u8], sink: &mut K) -> Result<(), WriteError>
    ensures { Writes
        (K.held sink.old) (K.held sink.new) (K.faults sink.old) (K.faults sink.new) result (text.now ∷ []) }
{
    let line = line_of(alloc, text)?;
    Ok(sink.put(&line)?)
}

/// The text and a LF.
fn line_of(alloc: Global, text: &[u8]) -> Result<Vec<u8>, NoMemory>
    ensures { IfOk result (λ line. line.items ≡ text.now ++ 10 ∷ []) }
{
    let mut line = Vec::from_slice(alloc, text)?;
    line.push(b'\n')?;
    Ok(line)
}
