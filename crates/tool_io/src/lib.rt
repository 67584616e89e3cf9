//! The two ends of dpj, where a program's text comes in and its report goes out.
//!
//! `Source` gives bytes and `Sink` takes them. Each tells, for contracts alone, what it knows of itself:
//! what a source has left, what a sink holds and how much room it has, and a count of faults that never
//! falls. An end over the standard library tells what its reader or writer tells: a slice what is left, a
//! `Vec` what it holds, the standard streams nothing.
//!
//! What it promises: a call fails only where the count of faults rose in it, or where the counter stands
//! at its last value. `read_all` gives exactly the bytes that were left, or says why it doesn't.
//! `write_all` writes all bytes or a first part of them, and writes all of them where the room suffices.
//! No `fill` and no `put` takes memory.
//!
//! `MemSource` and `MemSink` work in memory, in pieces, and fail at calls that are chosen. `PlainSource`
//! never fails, and `PlainSink` fails only where it is full. `StdSource` and `StdSink` stand over any
//! reader and writer of the standard library. What a real file, pipe or terminal gives and takes is
//! trusted: no contract speaks of it.
#![tactic(auto)]

mod memory;
mod plain;
mod plan;
mod read;
mod standard;
mod traits;
mod write;

pub use memory::{MemSink, MemSource};
pub use plain::{PlainSink, PlainSource};
pub use read::{ReadEnd, read_all};
pub use standard::{StdSink, StdSource};
pub use traits::{Failed, Sink, Source};
pub use write::{WriteFault, write_all};
