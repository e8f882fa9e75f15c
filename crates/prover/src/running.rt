//! The program over any source and sink.

ghost use Rattle.std.specs.Prelude.{◌≡◌, ◌≢◌, ◌≤◌, ◌⊎◌, [], Some, None, map, string_bytes, codes, IfSome};
ghost use Rattle.cay_base.specs.Causes.{Rose};
ghost use Rattle.prover.specs.Answer.{usage, refused};
ghost use Rattle.prover.specs.Modes.{IsMode, IsUsage, IsUnread, IsReadToEnd, HasNumber, longest_input};
ghost use Rattle.prover.specs.Outcome.{Answers, ComesExactly, IsComplete, ModeAnswers, Written};

use crate::ending::status_of;
use crate::laws;
use crate::mode::Mode;
use crate::modes::tell;
use crate::parts::put_long;
use crate::status::Status;
use crate::words::mode_of;
use cay_base::{ReadError, Sink, Source, read_all};
use proof_text::WriteError;
use std::alloc::Global;

/// What is written where the words are in none of the lists.
const USAGE: &[u8] =
    b"usage: prove [--budget N] [--contract] | check | same [--budget N] [--contract] | degenerate [--budget N] | place | sample N [--budget N]\n";

/// Does all that the program does: `words` are those after its name.
pub fn run<S: Source, K: Sink>(
    alloc: Global,
    words: &[String],
    source: &mut S,
    sink: &mut K,
) -> Status
    ensures answers { Answers (map string_bytes words.now) (S.left source.old)
        (K.held sink.old) (K.held sink.new) result }

    ensures proved { ComesExactly (map string_bytes words.now) (S.left source.old) result Status.Proved }
    ensures refuted { ComesExactly (map string_bytes words.now) (S.left source.old) result Status.Refuted }
    ensures done { ComesExactly (map string_bytes words.now) (S.left source.old) result Status.Done }
    ensures text_refused { ComesExactly (map string_bytes words.now) (S.left source.old) result Status.TextRefused }
    ensures stopped { ComesExactly (map string_bytes words.now) (S.left source.old) result Status.Stopped }
    ensures proof_refused { ComesExactly (map string_bytes words.now) (S.left source.old) result Status.ProofRefused }
    ensures unlike { ComesExactly (map string_bytes words.now) (S.left source.old) result Status.Unlike }
    ensures usage_alone { ComesExactly (map string_bytes words.now) (S.left source.old) result Status.Usage }
    ensures complete { (Rose (S.faults source.old) (S.faults source.new) → ⊥)
        → (Rose (K.faults sink.old) (K.faults sink.new) → ⊥)
        → IsComplete (map string_bytes words.now) (S.left source.old) (K.held sink.old) (K.held sink.new) result }

    ensures usage { IsUsage (map string_bytes words.now) → (result ≡ Status.Usage) ⊎ (result ≡ Status.WriteFault) }
    ensures unread { IsUnread (map string_bytes words.now) → source.new ≡ source.old }
    ensures to_the_end { (m : Mode) → IsMode (map string_bytes words.now) m → IsReadToEnd m result
        → IfSome (S.left source.old) (λ _. S.left source.new ≡ Some []) }
    ensures read_fault { result ≡ Status.ReadFault
        → Rose (S.faults source.old) (S.faults source.new) × (sink.new ≡ sink.old) }
    ensures write_fault { result ≡ Status.WriteFault → Rose (K.faults sink.old) (K.faults sink.new) }
    ensures kept { (result ≢ Status.ReadFault → S.faults source.new ≡ S.faults source.old)
        × (result ≢ Status.WriteFault → K.faults sink.new ≡ K.faults sink.old) }
    ensures later { (S.faults source.old ≤ S.faults source.new) × (K.faults sink.old ≤ K.faults sink.new) }
{
    laws::causes();
    match mode_of(words) {
        Some(mode) => run_mode(alloc, mode, source, sink),
        None => write_usage(sink),
    }
}

/// Reads what the mode reads, and does what it does.
fn run_mode<S: Source, K: Sink>(alloc: Global, mode: Mode, source: &mut S, sink: &mut K) -> Status
    requires { HasNumber mode }
    ensures answers { ModeAnswers mode (S.left source.old) (K.held sink.old) (K.held sink.new) result }
    ensures unread { longest_input mode ≡ None → source.new ≡ source.old }
    ensures to_the_end { IsReadToEnd mode result → IfSome (S.left source.old) (λ _. S.left source.new ≡ Some []) }
    ensures read_fault { result ≡ Status.ReadFault
        → Rose (S.faults source.old) (S.faults source.new) × (sink.new ≡ sink.old) }
    ensures write_fault { result ≡ Status.WriteFault → Rose (K.faults sink.old) (K.faults sink.new) }
    ensures kept { (result ≢ Status.ReadFault → S.faults source.new ≡ S.faults source.old)
        × (result ≢ Status.WriteFault → K.faults sink.new ≡ K.faults sink.old) }
    ensures later { (S.faults source.old ≤ S.faults source.new) × (K.faults sink.old ≤ K.faults sink.new) }
{
    let Some(longest) = mode.longest_input() else {
        return tell(alloc, mode, &[], sink);
    };
    match read_all(alloc, source, longest) {
        Ok(input) => tell(alloc, mode, &input, sink),
        Err(ReadError::TooLong) => refuse_long(alloc, sink),
        Err(ReadError::Read) => Status::ReadFault,
        Err(ReadError::Memory) => Status::Memory,
    }
}

/// Refuses an input that is too long.
fn refuse_long<K: Sink>(alloc: Global, sink: &mut K) -> Status
    ensures written { Written (refused (codes "long")) result
        (K.held sink.old) (K.held sink.new) (K.faults sink.old) (K.faults sink.new) }
{
    status_of(put_long(alloc, sink))
}

/// Writes the usage line.
fn write_usage<K: Sink>(sink: &mut K) -> Status
    ensures written { Written usage result (K.held sink.old) (K.held sink.new) (K.faults sink.old) (K.faults sink.new) }
    ensures status { (result ≡ Status.Usage) ⊎ (result ≡ Status.WriteFault) }
{
    match sink.put(USAGE) {
        Ok(()) => Status::Usage,
        Err(_) => Status::WriteFault,
    }
}
