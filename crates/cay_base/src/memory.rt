//! A source and a sink in memory that fail at stated calls.

ghost use Rattle.std.specs.Prelude.{◌≡◌, ◌<◌, ◌≤◌, ◌↔◌, ◌+◌, ◌++◌, ◌⊎◌, [], IsTrue, length, min, take, IfOk, IsOk, IsErr, is_err, Contains, if◌then◌else◌, Some};
ghost use Rattle.std.specs.Io.{ReadsAtMost};
ghost use Rattle.std.specs.Io.KnownBytes.{ReadConsumes};
ghost use Rattle.cay_base.specs.Bytes.{Puts};
ghost use Rattle.cay_base.specs.Causes.{HasCause};
ghost use Rattle.cay_base.specs.Memory.{next_count, half, fitting};

use crate::failed::{Failed, NoMemory};
use crate::pieces::{append_fitting, copy_from};
use crate::sink::Sink;
use crate::source::Source;
use std::alloc::Global;
use std::marker::Model;

/// A source in memory, which gives at most so many bytes a call and fails at the calls with these numbers, from 0.
#[derive(Debug, Drop)]
pub struct MemSource {
    bytes: Vec<u8>,
    at: usize,
    most: usize,
    fails: Vec<u32>,
    calls: u64,
    faults: u64,
}

impl Model for MemSource {
    ghost use Rattle.std.specs.Prelude.{◌≤◌, drop, length};
    ghost use Rattle.cay_base.specs.Memory.{SourceState};

    ghost Value = { SourceState };

    ghost view = { λ s. record { left = drop s.at s.bytes.items; most = s.most; fails = s.fails.items; calls = s.calls; faults = s.faults } };

    ghost invariant = { λ s. (1 ≤ s.most) × (s.at ≤ length s.bytes.items) };
}

impl MemSource {
    /// A source with these bytes left, whose count of faults is 0.
    pub fn new(bytes: Vec<u8>, most: usize, fails: Vec<u32>) -> MemSource
        requires { 1 ≤ most }
        ensures { result ≡ record { left = bytes.items; most = most; fails = fails.items; calls = 0; faults = 0 } }
    {
        MemSource {
            bytes,
            at: 0,
            most,
            fails,
            calls: 0,
            faults: 0,
        }
    }
}

impl Source for MemSource {
    ghost left = { λ s. Some s.left };

    ghost faults = { λ s. s.faults };

    fn take(&mut self, room: &mut [u8]) -> Result<usize, Failed>
        ensures bound { ReadsAtMost result room.new }
        ensures bytes { ReadConsumes (Some self.old.left) (Some self.new.left) result room.new }
        ensures cause { HasCause self.old.faults self.new.faults result }

        ensures fails { IsErr result ↔ Contains self.old.fails self.old.calls }
        ensures most { IfOk result (λ n. n ≡ min self.old.most (min (length room.old) (length self.old.left))) }
        ensures counts { self.new ≡ record self.old {
          left = self.new.left;
          calls = next_count self.old.calls;
          faults = if is_err result then next_count self.old.faults else self.old.faults;
        } }
    {
        let fails = fails_at(&self.fails, self.calls);
        self.calls = self.calls.saturating_add(1);
        if fails {
            self.faults = self.faults.saturating_add(1);
            return Err(Failed);
        }
        let count = copy_from(&self.bytes, self.at, room, self.most);
        self.at += count;
        Ok(count)
    }
}

/// Whether the call with this number is one of those that fail.
fn fails_at(fails: &[u32], call: u64) -> bool
    ensures { IsTrue result ↔ Contains fails.now call }
{
    fails.iter().any(|number| u64::from(*number) == call)
}

/// A sink in memory, which has room for so many bytes and fails at the calls with these numbers, from 0, and at a piece
/// that does not fit.
#[derive(Debug, Drop)]
pub struct MemSink {
    bytes: Vec<u8>,
    room: usize,
    fails: Vec<u32>,
    calls: u64,
    faults: u64,
}

impl Model for MemSink {
    ghost use Rattle.std.specs.Prelude.{◌≤◌, length, vec_capacity};
    ghost use Rattle.cay_base.specs.Memory.{SinkState};

    ghost Value = { SinkState };

    ghost view = { λ s. record { held = s.bytes.items; room = s.room; fails = s.fails.items; calls = s.calls; faults = s.faults } };

    ghost invariant = { λ s. (length s.bytes.items ≤ s.room) × (s.room ≤ vec_capacity s.bytes) };
}

impl MemSink {
    /// An empty sink with room for n bytes, whose count of faults is 0.
    pub fn with_room(alloc: Global, n: usize, fails: Vec<u32>) -> Result<MemSink, NoMemory>
        ensures { IfOk result (λ sink. sink ≡ record { held = []; room = n; fails = fails.items; calls = 0; faults = 0 }) }
    {
        Ok(MemSink {
            bytes: Vec::with_capacity(alloc, n)?,
            room: n,
            fails,
            calls: 0,
            faults: 0,
        })
    }

    /// What the sink holds.
    pub fn bytes(&self) -> &[u8]
        ensures { result.now ≡ self.now.held }
    {
        &self.bytes
    }
}

impl Sink for MemSink {
    ghost held = { λ s. Some s.held };

    ghost faults = { λ s. s.faults };

    /// At a call that is to fail the first half of the piece goes in, and of a piece that does not fit what fits.
    fn put(&mut self, piece: &[u8]) -> Result<(), Failed>
        ensures bytes { Puts (Some self.old.held) (Some self.new.held) result piece.now }
        ensures cause { HasCause self.old.faults self.new.faults result }

        ensures fails { IsErr result ↔ (Contains self.old.fails self.old.calls ⊎ (self.old.room < length self.old.held + length piece.now)) }
        ensures planned { Contains self.old.fails self.old.calls
            → self.new.held ≡ self.old.held ++ fitting self.old.room self.old.held (half piece.now) }
        ensures others { ¬ Contains self.old.fails self.old.calls
            → self.new.held ≡ self.old.held ++ fitting self.old.room self.old.held piece.now }
        ensures counts { self.new ≡ record self.old {
          held = self.new.held;
          calls = next_count self.old.calls;
          faults = if is_err result then next_count self.old.faults else self.old.faults;
        } }
    {
        let fails = fails_at(&self.fails, self.calls);
        self.calls = self.calls.saturating_add(1);
        if fails {
            let _ = append_fitting(&mut self.bytes, self.room, &piece[..piece.len() / 2]);
            self.faults = self.faults.saturating_add(1);
            return Err(Failed);
        }
        if !append_fitting(&mut self.bytes, self.room, piece) {
            self.faults = self.faults.saturating_add(1);
            return Err(Failed);
        }
        Ok(())
    }
}
