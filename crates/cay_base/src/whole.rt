//! A source and a sink in memory that never fail.

ghost use Rattle.std.specs.Prelude.{◌≡◌, ◌≤◌, ◌+◌, ◌++◌, ◌&&◌, [], true, length, min, nat_le, IfOk, IsOk, Some};
ghost use Rattle.std.specs.Io.{ReadsAtMost};
ghost use Rattle.std.specs.Io.KnownBytes.{ReadConsumes};
ghost use Rattle.cay_base.specs.Bytes.{Puts};
ghost use Rattle.cay_base.specs.Memory.{told, fitting};

use crate::failed::{Failed, NoMemory};
use crate::pieces::{append_fitting, copy_from};
use crate::sink::Sink;
use crate::source::Source;
use std::alloc::Global;
use std::marker::Model;

/// A source in memory that never fails: contracts see what is left.
#[derive(Debug, Drop)]
pub struct WholeSource {
    bytes: Vec<u8>,
    at: usize,
}

impl Model for WholeSource {
    ghost use Rattle.std.specs.Prelude.{ℕ, List, ◌≤◌, drop, length};

    ghost Value = { List ℕ };

    ghost view = { λ s. drop s.at s.bytes.items };

    ghost invariant = { λ s. s.at ≤ length s.bytes.items };
}

impl WholeSource {
    pub fn new(bytes: Vec<u8>) -> WholeSource
        ensures { result ≡ bytes.items }
    {
        WholeSource { bytes, at: 0 }
    }
}

impl Source for WholeSource {
    ghost left = { λ s. Some s };

    ghost faults = { λ _. 0 };

    fn take(&mut self, room: &mut [u8]) -> Result<usize, Failed>
        ensures bound { ReadsAtMost result room.new }
        ensures bytes { ReadConsumes (Some self.old) (Some self.new) result room.new }

        ensures never_fails { IsOk result }
        ensures most { IfOk result (λ n. n ≡ min (length room.old) (length self.old)) }
    {
        let count = copy_from(&self.bytes, self.at, room, usize::MAX);
        self.at += count;
        Ok(count)
    }
}

/// A sink in memory that never fails, and tells what it holds as long as all of it fits.
#[derive(Debug, Drop)]
pub struct WholeSink {
    bytes: Vec<u8>,
    room: usize,
    whole: bool,
}

impl Model for WholeSink {
    ghost use Rattle.std.specs.Prelude.{◌≡◌, ◌≤◌, false, length, vec_capacity};
    ghost use Rattle.cay_base.specs.Memory.{WholeState};

    ghost Value = { WholeState };

    ghost view = { λ s. record { kept = s.bytes.items; room = s.room; whole = s.whole } };

    ghost invariant = { λ s. (length s.bytes.items ≤ s.room) × (s.room ≤ vec_capacity s.bytes) × (s.whole ≡ false → length s.bytes.items ≡ s.room) };
}

impl WholeSink {
    /// An empty sink with room for n bytes.
    pub fn with_room(alloc: Global, n: usize) -> Result<WholeSink, NoMemory>
        ensures { IfOk result (λ sink. sink ≡ record { kept = []; room = n; whole = true }) }
    {
        Ok(WholeSink {
            bytes: Vec::with_capacity(alloc, n)?,
            room: n,
            whole: true,
        })
    }

    /// The bytes that the sink keeps.
    pub fn bytes(&self) -> &[u8]
        ensures { result.now ≡ self.now.kept }
    {
        &self.bytes
    }
}

impl Sink for WholeSink {
    ghost held = { told };

    ghost faults = { λ _. 0 };

    fn put(&mut self, piece: &[u8]) -> Result<(), Failed>
        ensures bytes { Puts (told self.old) (told self.new) result piece.now }

        ensures never_fails { IsOk result }
        ensures kept { self.new ≡ record self.old {
          kept = self.old.kept ++ fitting self.old.room self.old.kept piece.now;
          whole = self.old.whole && nat_le (length self.old.kept + length piece.now) self.old.room;
        } }
    {
        let fits = append_fitting(&mut self.bytes, self.room, piece);
        self.whole = self.whole && fits;
        Ok(())
    }
}
