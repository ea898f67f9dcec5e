// A sink in memory.
ghost use Rattle.std.specs.Prelude.{◌≡◌, ◌<◌, ◌≤◌, ◌+◌, ◌-◌, ◌^◌, ◌==◌, ◌||◌, [], ◌∷◌, ◌++◌, Some, length, min, is_err, IfOk, OnOk, OnErr};
ghost use Rattle.std.specs.Io.KnownBytes.{WriteAppends};
ghost use Rattle.file_io.specs.Faults.{HasCause, ChangedOnlyIfFailed, one_more, count_after, is_to_fail};
ghost use Rattle.file_io.specs.Sink.{TakesSome};

use crate::{Failed, NoMemory, Sink};
use std::alloc::Global;
use std::marker::Model;

/// A sink in memory, which takes as many bytes as room was reserved for, and whose writes fail where that is asked for.
///
/// Contracts see it as the bytes written, the room that is left, the greatest number of bytes a write, the numbers
/// of the writes that are to fail, and the counts of writes and of faults. The writes are numbered from 1; their
/// count stands still at 2^64 - 1.
#[derive(Drop)]
pub struct MemSink {
    bytes: Vec<u8>,
    room: usize,
    piece: usize,
    failing: Vec<u64>,
    calls: u64,
    faults: u64,
}

impl Model for MemSink {
    ghost use Rattle.pq_io.specs.MemSink.{Written};

    ghost Value = { Written };

    ghost view = { λ sink. record { bytes = sink.bytes.items; room = sink.room; piece = sink.piece; failing = sink.failing.items; calls = sink.calls; faults = sink.faults } };

    ghost use Rattle.std.specs.Prelude.{◌<◌, ◌≤◌, ◌+◌, vec_len, vec_capacity};

    ghost invariant = { λ sink. (0 < sink.piece) × (vec_len sink.bytes + sink.room ≤ vec_capacity sink.bytes) };
}

impl MemSink {
    /// A sink with no bytes, no room and no faults. A write takes as many bytes as there is room for.
    pub fn new(alloc: Global) -> Self
        ensures { result ≡ record { bytes = []; room = 0; piece = 2 ^ 64 - 1; failing = []; calls = 0; faults = 0 } }
    {
        MemSink {
            bytes: Vec::new(alloc),
            room: 0,
            piece: usize::MAX,
            failing: Vec::new(alloc),
            calls: 0,
            faults: 0,
        }
    }

    /// Adds room for `n` further bytes.
    ///
    /// # Errors
    ///
    /// `NoMemory`, and the sink is as before.
    pub fn reserve(&mut self, n: usize) -> Result<(), NoMemory>
        ensures ok { OnOk result (self.new ≡ record self.old { room = self.old.room + n }) }
        ensures err { OnErr result (self.new ≡ self.old) }
    {
        let room = self.room.checked_add(n).ok_or(NoMemory)?;
        self.bytes.reserve(room)?;
        self.room = room;
        Ok(())
    }

    /// Has the write with this number fail.
    ///
    /// # Errors
    ///
    /// `NoMemory`, and the sink is as before.
    pub fn fail_at(&mut self, call: u64) -> Result<(), NoMemory>
        ensures ok { OnOk result (self.new ≡ record self.old { failing = self.old.failing ++ call ∷ [] }) }
        ensures err { OnErr result (self.new ≡ self.old) }
    {
        self.failing.push(call)?;
        Ok(())
    }

    /// Has each write take at most `n` bytes.
    pub fn piece(&mut self, n: usize)
        requires { 1 ≤ n }
        ensures { self.new ≡ record self.old { piece = n } }
    {
        self.piece = n;
    }

    /// The bytes written.
    pub fn bytes(&self) -> &[u8]
        ensures { result.now ≡ self.now.bytes }
    {
        &self.bytes
    }

    /// How many writes have failed.
    pub fn faults(&self) -> u64
        ensures { result ≡ self.now.faults }
    {
        self.faults
    }
}

impl Sink for MemSink {
    ghost written = { λ sink. Some sink.bytes };

    ghost faults = { λ sink. sink.faults };

    /// Takes as many bytes as there is room for, and no more than a piece. It fails exactly where no room is left and
    /// where the write is one of those that are to fail, and then only the counts change.
    fn write(&mut self, piece: &[u8]) -> Result<usize, Failed>
        requires { 0 < length piece.now }
        ensures bound { IfOk result (TakesSome piece.now) }
        ensures bytes { WriteAppends (Some self.old.bytes) (Some self.new.bytes) result piece.now }
        ensures cause { HasCause self.old.faults self.new.faults result }
        ensures told { ChangedOnlyIfFailed self.old.faults self.new.faults result }

        ensures fails { is_err result ≡ (is_to_fail self.old.failing (one_more self.old.calls) || self.old.room == 0) }
        ensures calls { self.new.calls ≡ one_more self.old.calls }
        ensures taken { IfOk result (λ n. n ≡ min (length piece.now) (min self.old.room self.old.piece)) }
        ensures room { IfOk result (λ n. self.new.room ≡ self.old.room - n) }
        ensures kept { OnErr result (self.new ≡ record self.old { calls = self.new.calls; faults = self.new.faults }) }
        ensures same { (self.new.piece ≡ self.old.piece) × (self.new.failing ≡ self.old.failing) }
        ensures count { self.new.faults ≡ count_after self.old.faults result }
    {
        self.calls = self.calls.saturating_add(1);
        let n = piece.len().min(self.room.min(self.piece));
        if n == 0 || self.failing.contains(&self.calls) {
            self.faults = self.faults.saturating_add(1);
            return Err(Failed);
        }
        self.bytes.extend_from_slice(&piece[..n]).unwrap();
        self.room -= n;
        Ok(n)
    }
}
