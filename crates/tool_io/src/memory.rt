ghost use Rattle.std.specs.Prelude.{◌≡◌, ◌<◌, ◌≤◌, ◌+◌, ◌-◌, ◌++◌, ◌⊎◌, [], None, Some, length, take, drop, min, max, vec_len, vec_capacity, IfOk, OnErr, IsErr, ◌↔◌};
ghost use Rattle.tool_io.specs.Ends.{Fills};
ghost use Rattle.tool_io.specs.Plan.{FailsNext, opening_plan};

use crate::plan::Plan;
use crate::traits::{Failed, Sink, Source};
use lang_base::NoMemory;
use std::alloc::Global;
use std::marker::Model;

/// Bytes in memory that come in pieces, with calls that fail.
#[derive(Debug, Drop)]
pub struct MemSource {
    bytes: Vec<u8>,
    at: usize,
    piece: usize,
    plan: Plan,
}

impl Model for MemSource {
    ghost use Rattle.std.specs.Prelude.{◌≤◌, drop, vec_len};
    ghost use Rattle.tool_io.specs.Memory.{Supply};

    ghost Value = { Supply };

    ghost view = { λ s. record { left = drop s.at s.bytes.items; piece = s.piece; plan = s.plan } };

    ghost invariant = { λ s. s.at ≤ vec_len s.bytes };
}

impl MemSource {
    /// A source of these bytes, which fails at the calls numbered in `fails`, counted from 1. Every other
    /// call gives `piece` bytes, or one where `piece` is 0, or fewer where the buffer or what is left has
    /// fewer.
    pub fn new(bytes: Vec<u8>, piece: usize, fails: Vec<u64>) -> MemSource
        ensures { result ≡ record { left = bytes.items; piece = piece; plan = opening_plan fails.items } }
    {
        MemSource {
            bytes,
            at: 0,
            piece,
            plan: Plan::new(fails),
        }
    }
}

impl Source for MemSource {
    ghost use Rattle.tool_io.specs.Memory.{given_next, after_gift, after_fault};

    ghost left = { λ s. Some s.left };

    ghost faults = { λ s. s.plan.faults };

    fn fill(&mut self, buf: &mut [u8]) -> Result<usize, Failed>
        requires { 0 < length buf.old }
        ensures fails { IsErr result ↔ FailsNext self.old.plan }
        ensures gives { IfOk result (λ n. n ≡ given_next (length buf.old) self.old) }
        ensures filled { IfOk result (λ n. Fills self.old.left buf.new n) }
        ensures behind { IfOk result (λ n. buf.new ≡ take n self.old.left ++ drop n buf.old) }
        ensures ok { IfOk result (λ n. self.new ≡ after_gift n self.old) }
        ensures err { OnErr result (self.new ≡ after_fault self.old) }
        ensures untouched { OnErr result (buf.new ≡ buf.old) }
        ensures never_falls { self.old.plan.faults ≤ self.new.plan.faults }
    {
        if self.plan.next_fails() {
            self.plan.count_fault();
            return Err(Failed);
        }
        let left = self.bytes.len() - self.at;
        let count = self.piece.max(1).min(buf.len()).min(left);
        let end = self.at + count;
        buf[..count].copy_from_slice(&self.bytes[self.at..end]);
        self.at = end;
        Ok(count)
    }
}

/// Memory of a fixed size that takes bytes in pieces, with calls that fail. It tells no room.
#[derive(Debug, Drop)]
pub struct MemSink {
    bytes: Vec<u8>,
    limit: usize,
    piece: usize,
    plan: Plan,
}

impl Model for MemSink {
    ghost use Rattle.std.specs.Prelude.{◌≤◌, vec_len, vec_capacity};
    ghost use Rattle.tool_io.specs.Memory.{Storage};

    ghost Value = { Storage };

    ghost view = { λ s. record { held = s.bytes.items; limit = s.limit; piece = s.piece; plan = s.plan } };

    ghost invariant = { λ s. (vec_len s.bytes ≤ s.limit) × (s.limit ≤ vec_capacity s.bytes) };
}

impl MemSink {
    /// An empty sink of `room` bytes, which are taken at once. It fails at the calls numbered in `fails`,
    /// counted from 1, and where it is full. Every other call takes `piece` bytes, or one where `piece`
    /// is 0, or fewer where the given piece or the room left has fewer.
    pub fn new(
        alloc: Global,
        room: usize,
        piece: usize,
        fails: Vec<u64>,
    ) -> Result<MemSink, NoMemory>
        ensures { IfOk result (λ s. s ≡ record { held = []; limit = room; piece = piece; plan = opening_plan fails.items }) }
    {
        Ok(MemSink {
            bytes: Vec::with_capacity(alloc, room)?,
            limit: room,
            piece,
            plan: Plan::new(fails),
        })
    }

    /// What it holds.
    pub fn held(&self) -> &[u8]
        ensures { result.now ≡ self.now.held }
    {
        self.bytes.as_slice()
    }
}

impl Sink for MemSink {
    ghost use Rattle.tool_io.specs.Memory.{taken_next, after_taking, after_refusal, IsFull};

    ghost held = { λ s. Some s.held };

    ghost room = { λ _. None };

    ghost faults = { λ s. s.plan.faults };

    fn put(&mut self, bytes: &[u8]) -> Result<usize, Failed>
        requires { 0 < length bytes.now }
        ensures fails { IsErr result ↔ (FailsNext self.old.plan ⊎ IsFull self.old) }
        ensures takes { IfOk result (λ n. n ≡ taken_next (length bytes.now) self.old) }
        ensures ok { IfOk result (λ n. self.new ≡ after_taking (take n bytes.now) self.old) }
        ensures err { OnErr result (self.new ≡ after_refusal self.old) }
        ensures bound { IfOk result (λ n. (1 ≤ n) × (n ≤ length bytes.now)) }
        ensures never_falls { self.old.plan.faults ≤ self.new.plan.faults }
    {
        let room = self.limit - self.bytes.len();
        if self.plan.next_fails() || room == 0 {
            self.plan.count_fault();
            return Err(Failed);
        }
        let count = self.piece.max(1).min(bytes.len()).min(room);
        append_reserved(&mut self.bytes, &bytes[..count]);
        Ok(count)
    }
}

/// Puts bytes after the last, into memory that was taken before.
pub(crate) fn append_reserved(held: &mut Vec<u8>, bytes: &[u8])
    requires { vec_len held.old + length bytes.now ≤ vec_capacity held.old }
    ensures items { held.new.items ≡ held.old.items ++ bytes.now }
    ensures capacity { vec_capacity held.new ≡ vec_capacity held.old }
{
    for byte in bytes {
        held.push_reserved(*byte);
    }
}
