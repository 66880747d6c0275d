//! Bytes that are read and written: a source, a sink, and both in memory.
ghost use Rattle.std.specs.Prelude.{◌≡◌, ℕ, ◌+◌, ◌<◌, ◌≤◌, List, [], length, take, min, Some, Option, ◌↔◌, IsSome, IsErr, IfOk, OnOk, OnErr, IsErrOf};
ghost use Rattle.std.specs.Io.{ReadsAtMost, WritesAtMost};
ghost use Rattle.std.specs.Io.KnownBytes.{ReadConsumes, WriteAppends, Appends};
ghost use Rattle.ts_store.specs.declared.streams.InputFault.TheVariants.{OutOfMemory};
ghost use Rattle.ts_store.specs.Counts.{Rose, one_more};
ghost use Rattle.ts_store.specs.Faults.{fault_at};
ghost use Rattle.ts_store.specs.Streams.{StreamCause, TakesInput, AppendsFront, read_limit};

use crate::fate::{FaultList, planned};
use std::alloc::{AllocError, Global};
use std::marker::Model;
use thiserror::Error;
use ts_base::{ByteList, OutOfMemory};

/// A stream did not give or take what it was asked for.
#[derive(Clone, Copy, Debug, PartialEq, Eq, Error)]
#[error("the stream failed")]
pub struct Failed;

/// Bytes that are read from their front to their end.
pub trait Source {
    /// The bytes that are left, where the source tells them.
    ghost left: { Self → Option (List ℕ) };

    /// How often the source has failed.
    ghost faults: { Self → ℕ };

    /// Reads bytes to the front of a buffer and gives their number. It gives 0 at the end alone.
    ///
    /// It is Failed only where the count of faults went up, and no byte is lost then.
    fn read(&mut self, buf: &mut [u8]) -> Result<usize, Failed>
        requires { 0 < length buf.old }
        ensures bound { ReadsAtMost result buf.new }
        ensures bytes { ReadConsumes (left self.old) (left self.new) result buf.new }
        ensures cause { StreamCause (faults self.old) (faults self.new) result };
}

/// A stream that bytes are appended to.
pub trait Sink {
    /// The bytes that it holds, where the sink tells them.
    ghost contents: { Self → Option (List ℕ) };

    /// How often the sink has failed.
    ghost faults: { Self → ℕ };

    /// Appends bytes from the front of a piece and gives their number.
    ///
    /// It is Failed only where the count of faults went up, and nothing is appended then. A sink
    /// that has no memory for the bytes fails, too.
    fn write(&mut self, piece: &[u8]) -> Result<usize, Failed>
        ensures bound { WritesAtMost result piece.now }
        ensures progress { IfOk result (λ count. 0 < length piece.now → 0 < count) }
        ensures bytes { WriteAppends (contents self.old) (contents self.new) result piece.now }
        ensures cause { StreamCause (faults self.old) (faults self.new) result };
}

/// Why an input was not read.
#[derive(Clone, Copy, Debug, PartialEq, Eq, Error)]
pub enum InputFault {
    /// The source failed.
    #[error("the input could not be read")]
    Failed,
    /// There was no memory for the bytes.
    #[error("out of memory")]
    OutOfMemory,
}

impl From<AllocError> for InputFault {
    ghost from_gives = { λ _ fault. fault ≡ OutOfMemory };

    fn from(_error: AllocError) -> InputFault {
        InputFault::OutOfMemory
    }
}

/// The most bytes that `read_input` takes: one more than an input may have.
pub const READ_LIMIT: usize = (1 << 26) + 1;

/// How many bytes are read at once.
const PIECE: usize = 4096;

/// Reads a source to its end, or up to one byte more than an input may have, so that the caller
/// can tell that it is too long.
pub fn read_input<S: Source>(alloc: Global, source: &mut S) -> Result<ByteList, InputFault>
    ensures input { IfOk result (TakesInput (S.left source.old) (S.left source.new)) }
    ensures within { IfOk result (λ bytes. length bytes ≤ read_limit) }
    ensures later { S.faults source.old ≤ S.faults source.new }
    ensures unhurt { OnOk result (S.faults source.new ≡ S.faults source.old) }
    ensures failed { IsErrOf result InputFault.Failed → Rose (S.faults source.old) (S.faults source.new) }
{
    let mut bytes = Vec::new(alloc);
    let mut piece = [0; PIECE];
    while bytes.len() < READ_LIMIT {
        let room = PIECE.min(READ_LIMIT - bytes.len());
        let Ok(count) = source.read(&mut piece[..room]) else {
            return Err(InputFault::Failed);
        };
        if count == 0 {
            break;
        }
        bytes.extend_from_slice(&piece[..count])?;
    }
    Ok(ByteList::from_vec(bytes))
}

/// Appends all of a text to a sink. Where the sink fails, a front of the text was appended.
pub fn write_all<K: Sink>(sink: &mut K, text: &[u8]) -> Result<(), Failed>
    ensures whole { OnOk result (Appends (K.contents sink.old) (K.contents sink.new) text.now) }
    ensures front { OnErr result (AppendsFront (K.contents sink.old) (K.contents sink.new) text.now) }
    ensures cause { StreamCause (K.faults sink.old) (K.faults sink.new) result }
{
    let mut rest = text;
    while !rest.is_empty() {
        let count = sink.write(rest)?;
        rest = &rest[count..];
    }
    Ok(())
}

/// A source of bytes in memory that fails as planned, for tests.
#[derive(Debug, Drop)]
pub struct MemSource {
    bytes: Vec<u8>,
    at: usize,
    plan: FaultList,
    calls: u64,
    faults: u64,
}

impl Model for MemSource {
    ghost use Rattle.std.specs.Prelude.{◌≤◌, length, drop};
    ghost use Rattle.ts_store.specs.MemoryStreams.{SourceState};

    ghost Value = { SourceState };

    ghost view = { λ source. record { left = drop source.at source.bytes.items; plan = source.plan; calls = source.calls; faults = source.faults } };

    ghost invariant = { λ source. source.at ≤ length source.bytes.items };
}

impl MemSource {
    /// A source of these bytes, whose reads with the planned numbers fail. A failed read gives
    /// nothing, whether or not its fault is whole.
    pub fn new(bytes: ByteList, faults: FaultList) -> MemSource
        ensures { result ≡ record { left = bytes; plan = faults; calls = 0; faults = 0 } }
    {
        MemSource {
            bytes: bytes.into_vec(),
            at: 0,
            plan: faults,
            calls: 0,
            faults: 0,
        }
    }

    /// How often the source has failed. The count stays at 2^64 - 1 once it is there.
    pub fn faults(&self) -> u64
        ensures { result ≡ self.now.faults }
    {
        self.faults
    }

    // The bytes that are left.
    fn rest(&self) -> &[u8]
        ensures { result.now ≡ self.now.left }
    {
        &self.bytes[self.at..]
    }
}

impl Source for MemSource {
    ghost left = { λ source. Some source.left };

    ghost faults = { λ source. source.faults };

    fn read(&mut self, buf: &mut [u8]) -> Result<usize, Failed>
        requires { 0 < length buf.old }
        ensures bound { ReadsAtMost result buf.new }
        ensures bytes { ReadConsumes (Some self.old.left) (Some self.new.left) result buf.new }
        ensures cause { StreamCause self.old.faults self.new.faults result }

        // It fails exactly as planned, and counts one fault each time.
        ensures planned { IsErr result ↔ IsSome (fault_at self.old.plan self.old.calls) }
        ensures failed { OnErr result (self.new.faults ≡ one_more self.old.faults) }
        ensures counted { (self.new.plan ≡ self.old.plan) × (self.new.calls ≡ one_more self.old.calls) }
    {
        let call = self.calls;
        self.calls = call.saturating_add(1);
        if planned(&self.plan, call).is_some() {
            self.faults = self.faults.saturating_add(1);
            return Err(Failed);
        }
        let count = fill(buf, self.rest());
        self.at += count;
        Ok(count)
    }
}

// Copies bytes to the front of a buffer, as many as there are and as it has room for.
fn fill(buf: &mut [u8], bytes: &[u8]) -> usize
    ensures count { result ≡ min (length buf.old) (length bytes.now) }
    ensures bytes { take result buf.new ≡ take result bytes.now }
{
    let count = buf.len().min(bytes.len());
    buf[..count].copy_from_slice(&bytes[..count]);
    count
}

/// A sink in memory that fails as planned, for tests.
#[derive(Debug, Drop)]
pub struct MemSink {
    bytes: ByteList,
    plan: FaultList,
    calls: u64,
    faults: u64,
}

impl Model for MemSink {
    ghost use Rattle.ts_store.specs.MemoryStreams.{SinkState};

    ghost Value = { SinkState };

    ghost view = { λ sink. record { bytes = sink.bytes; plan = sink.plan; calls = sink.calls; faults = sink.faults } };
}

impl MemSink {
    /// A sink that holds nothing, whose writes with the planned numbers fail. A failed write
    /// appends nothing, whether or not its fault is whole.
    pub fn new(alloc: Global, faults: FaultList) -> MemSink
        ensures { result ≡ record { bytes = []; plan = faults; calls = 0; faults = 0 } }
    {
        MemSink {
            bytes: ByteList::new(alloc),
            plan: faults,
            calls: 0,
            faults: 0,
        }
    }

    /// The bytes that were appended.
    pub fn bytes(&self) -> &[u8]
        ensures { result.now ≡ self.now.bytes }
    {
        self.bytes.as_slice()
    }

    /// How often the sink has failed. The count stays at 2^64 - 1 once it is there.
    pub fn faults(&self) -> u64
        ensures { result ≡ self.now.faults }
    {
        self.faults
    }
}

impl Sink for MemSink {
    ghost contents = { λ sink. Some sink.bytes };

    ghost faults = { λ sink. sink.faults };

    fn write(&mut self, piece: &[u8]) -> Result<usize, Failed>
        ensures bound { WritesAtMost result piece.now }
        ensures progress { IfOk result (λ count. 0 < length piece.now → 0 < count) }
        ensures bytes { WriteAppends (Some self.old.bytes) (Some self.new.bytes) result piece.now }
        ensures cause { StreamCause self.old.faults self.new.faults result }

        // It fails where that is planned, and else only for want of memory, and counts one fault each
        // time. It never takes a part.
        ensures planned { IsSome (fault_at self.old.plan self.old.calls) → IsErr result }
        ensures failed { OnErr result (self.new.faults ≡ one_more self.old.faults) }
        ensures whole { IfOk result (λ count. count ≡ length piece.now) }
        ensures counted { (self.new.plan ≡ self.old.plan) × (self.new.calls ≡ one_more self.old.calls) }
    {
        let call = self.calls;
        self.calls = call.saturating_add(1);
        if planned(&self.plan, call).is_some() || self.bytes.append(piece).is_err() {
            self.faults = self.faults.saturating_add(1);
            return Err(Failed);
        }
        Ok(piece.len())
    }
}
