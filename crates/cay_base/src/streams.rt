//! The real streams as a source and a sink.

ghost use Rattle.std.specs.Prelude.{◌≡◌, None, is_err, if◌then◌else◌};
ghost use Rattle.std.specs.Io.{ReadsAtMost};
ghost use Rattle.std.specs.Io.KnownBytes.{ReadConsumes};
ghost use Rattle.cay_base.specs.Bytes.{PassesOn, Puts};
ghost use Rattle.cay_base.specs.Causes.{HasCause};
ghost use Rattle.cay_base.specs.Memory.{next_count};

use crate::failed::Failed;
use crate::sink::Sink;
use crate::source::Source;
use std::io::{Read, Write};

/// Standard input, or another reader, as a source that does not tell what is left. Each error of the reader is a fault,
/// an interrupted call too.
#[derive(Drop)]
pub struct StdSource<R: Read + Drop> {
    reader: R,
    faults: u64,
}

impl<R: Read + Drop> StdSource<R> {
    pub fn new(reader: R) -> Self
        ensures reader { result.reader ≡ reader }
        ensures faults { result.faults ≡ 0 }
    {
        StdSource { reader, faults: 0 }
    }
}

impl<R: Read + Drop> Source for StdSource<R> {
    ghost left = { λ _. None };

    ghost faults = { λ s. s.faults };

    fn take(&mut self, room: &mut [u8]) -> Result<usize, Failed>
        ensures bound { ReadsAtMost result room.new }
        ensures bytes { ReadConsumes None None result room.new }
        ensures cause { HasCause self.old.faults self.new.faults result }

        ensures reader { ReadConsumes (R.remaining self.old.reader) (R.remaining self.new.reader) result room.new }
        ensures counts { self.new.faults ≡ if is_err result then next_count self.old.faults else self.old.faults }
    {
        match self.reader.read(room) {
            Ok(count) => Ok(count),
            Err(_) => {
                self.faults = self.faults.saturating_add(1);
                Err(Failed)
            }
        }
    }
}

/// Standard output, or another writer, as a sink that does not tell what it holds. Each error of the writer is a fault,
/// an interrupted call too, and so is a write that takes nothing.
#[derive(Drop)]
pub struct StdSink<W: Write + Drop> {
    writer: W,
    faults: u64,
}

impl<W: Write + Drop> StdSink<W> {
    pub fn new(writer: W) -> Self
        ensures writer { result.writer ≡ writer }
        ensures faults { result.faults ≡ 0 }
    {
        StdSink { writer, faults: 0 }
    }
}

impl<W: Write + Drop> Sink for StdSink<W> {
    ghost held = { λ _. None };

    ghost faults = { λ s. s.faults };

    fn put(&mut self, piece: &[u8]) -> Result<(), Failed>
        ensures bytes { Puts None None result piece.now }
        ensures cause { HasCause self.old.faults self.new.faults result }

        ensures writer { PassesOn (W.contents self.old.writer) (W.contents self.new.writer) result piece.now }
        ensures counts { self.new.faults ≡ if is_err result then next_count self.old.faults else self.old.faults }
    {
        let result = write_whole(&mut self.writer, piece);
        if result.is_err() {
            self.faults = self.faults.saturating_add(1);
        }
        result
    }
}

/// Writes the whole piece, in as many writes as the writer takes for it, up to the first that fails or takes nothing.
fn write_whole<W: Write>(writer: &mut W, piece: &[u8]) -> Result<(), Failed>
    ensures { PassesOn (W.contents writer.old) (W.contents writer.new) result piece.now }
{
    let mut rest = piece;
    while !rest.is_empty() {
        match writer.write(rest) {
            Ok(0) | Err(_) => return Err(Failed),
            Ok(count) => rest = &rest[count..],
        }
    }
    Ok(())
}
