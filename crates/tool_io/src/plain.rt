ghost use Rattle.std.specs.Prelude.{◌≡◌, ◌<◌, ◌≤◌, ◌+◌, ◌-◌, ◌++◌, [], ℕ, List, Some, length, take, drop, min, IfOk, OnErr, IsOk, IsErr, ◌↔◌};
ghost use Rattle.tool_io.specs.Ends.{Fills, next_count};

use crate::memory::append_reserved;
use crate::traits::{Failed, Sink, Source};
use lang_base::NoMemory;
use std::alloc::Global;
use std::marker::Model;

/// Bytes in memory. It never fails, so its count of faults is always 0. A contract sees what is left.
#[derive(Debug, Drop)]
pub struct PlainSource {
    bytes: Vec<u8>,
    at: usize,
}

impl Model for PlainSource {
    ghost use Rattle.std.specs.Prelude.{◌≤◌, ℕ, List, drop, vec_len};

    ghost Value = { List ℕ };

    ghost view = { λ s. drop s.at s.bytes.items };

    ghost invariant = { λ s. s.at ≤ vec_len s.bytes };
}

impl PlainSource {
    /// A source of these bytes.
    pub fn new(bytes: Vec<u8>) -> PlainSource
        ensures bytes { result ≡ bytes.items }
        ensures count { ⟦<PlainSource as Source>⟧.faults result ≡ 0 }
    {
        PlainSource { bytes, at: 0 }
    }
}

impl Source for PlainSource {
    ghost left = { λ s. Some s };

    ghost faults = { λ _. 0 };

    fn fill(&mut self, buf: &mut [u8]) -> Result<usize, Failed>
        requires { 0 < length buf.old }
        ensures never_fails { IsOk result }
        ensures count { ⟦<PlainSource as Source>⟧.faults self.new ≡ 0 }
        ensures gives { IfOk result (λ n. n ≡ min (length buf.old) (length self.old)) }
        ensures filled { IfOk result (λ n. Fills self.old buf.new n) }
        ensures behind { IfOk result (λ n. buf.new ≡ take n self.old ++ drop n buf.old) }
        ensures taken { IfOk result (λ n. self.new ≡ drop n self.old) }
    {
        let count = buf.len().min(self.bytes.len() - self.at);
        let end = self.at + count;
        buf[..count].copy_from_slice(&self.bytes[self.at..end]);
        self.at = end;
        Ok(count)
    }
}

/// Memory of a fixed size, which fails exactly where it is full. It tells its room.
#[derive(Debug, Drop)]
pub struct PlainSink {
    bytes: Vec<u8>,
    room: usize,
    faults: u64,
}

impl Model for PlainSink {
    ghost use Rattle.std.specs.Prelude.{◌≤◌, ◌+◌, vec_len, vec_capacity};
    ghost use Rattle.tool_io.specs.Memory.{PlainStorage};

    ghost Value = { PlainStorage };

    ghost view = { λ s. record { held = s.bytes.items; room = s.room; faults = s.faults } };

    ghost invariant = { λ s. vec_len s.bytes + s.room ≤ vec_capacity s.bytes };
}

impl PlainSink {
    /// An empty sink of `room` bytes, which are taken at once.
    pub fn new(alloc: Global, room: usize) -> Result<PlainSink, NoMemory>
        ensures { IfOk result (λ s. s ≡ record { held = []; room = room; faults = 0 }) }
    {
        Ok(PlainSink {
            bytes: Vec::with_capacity(alloc, room)?,
            room,
            faults: 0,
        })
    }

    /// What it holds.
    pub fn held(&self) -> &[u8]
        ensures { result.now ≡ self.now.held }
    {
        self.bytes.as_slice()
    }
}

impl Sink for PlainSink {
    ghost use Rattle.tool_io.specs.Memory.{after_storing};

    ghost held = { λ s. Some s.held };

    ghost room = { λ s. Some s.room };

    ghost faults = { λ s. s.faults };

    fn put(&mut self, bytes: &[u8]) -> Result<usize, Failed>
        requires { 0 < length bytes.now }
        ensures fails { IsErr result ↔ (self.old.room ≡ 0) }
        ensures takes { IfOk result (λ n. n ≡ min (length bytes.now) self.old.room) }
        ensures ok { IfOk result (λ n. self.new ≡ after_storing (take n bytes.now) self.old) }
        ensures err { OnErr result (self.new ≡ record self.old { faults = next_count self.old.faults }) }
        ensures never_falls { self.old.faults ≤ self.new.faults }
    {
        if self.room == 0 {
            self.faults = self.faults.saturating_add(1);
            return Err(Failed);
        }
        let count = bytes.len().min(self.room);
        append_reserved(&mut self.bytes, &bytes[..count]);
        self.room -= count;
        Ok(count)
    }
}
