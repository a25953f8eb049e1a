// A sink in memory, for tests of what writes.
ghost use Rattle.std.specs.Prelude.{◌≡◌, ◌≤◌, ◌+◌, ◌-◌, [], ◌++◌, ℕ, length, Some, IfOk, OnOk, OnErr, is_ok, vec_len, vec_capacity};
ghost use Rattle.visa_io.specs.Faults.{risen};

use crate::put_share::{append, is_taken_whole, kept_bytes, part_put};
use crate::{List, Sink, SinkFailed};
use std::alloc::{AllocError, Global};

/// A put that is made to fail: the number of the call, counted from 1, and how many bytes it keeps at most.
#[derive(Clone, Copy, Debug, PartialEq, Eq)]
pub struct PutFail {
    pub call: u64,
    pub kept: u64,
}

/// A sink in memory, which tells its bytes. Its room is taken beforehand.
#[derive(Debug, Drop)]
pub struct MemSink {
    bytes: Vec<u8>,
    room: usize,
    fails: List<PutFail>,
    calls: u64,
    faults: u64,
    ghost fits: { vec_len bytes ≤ room },
    ghost reserved: { vec_capacity bytes ≡ room },
}

impl MemSink {
    /// An empty sink for so many bytes. Of two entries of `fails` for one call the first counts.
    pub fn new(alloc: Global, room: usize, fails: List<PutFail>) -> Result<MemSink, AllocError>
        ensures bytes { IfOk result (λ sink. sink.bytes.items ≡ []) }
        ensures room { IfOk result (λ sink. sink.room ≡ room) }
        ensures fails { IfOk result (λ sink. sink.fails ≡ fails) }
        ensures calls { IfOk result (λ sink. sink.calls ≡ 0) }
        ensures faults { IfOk result (λ sink. sink.faults ≡ 0) }
    {
        Ok(MemSink {
            bytes: Vec::with_capacity(alloc, room)?,
            room,
            fails,
            calls: 0,
            faults: 0,
        })
    }

    /// The bytes taken so far. Takes no memory.
    pub fn bytes(&self) -> &[u8]
        ensures { result.now ≡ self.now.bytes.items }
    {
        self.bytes.as_slice()
    }
}

impl Sink for MemSink {
    ghost use Rattle.std.specs.Prelude.{OnErr, OnOk, ◌≡◌, ◌-◌, ◌++◌, length, Some, is_ok};
    ghost use Rattle.visa_io.specs.Faults.{risen};
    ghost use Rattle.visa_io.specs.Puts.{Put, PutFailed};
    ghost use Rattle.visa_io.specs.MemorySinks.{kept_at, takes_whole, put_bytes};
    ghost use Rattle.visa_io.specs.SinkBytes.{taken_of};

    ghost taken = { taken_of };

    /// Takes no memory.
    fn put(&mut self, piece: &[u8]) -> Result<(), SinkFailed>
        ensures ok { OnOk result (Put (taken_of self.old) (taken_of self.new) piece.now) }
        ensures failed { OnErr result (PutFailed (taken_of self.old) (taken_of self.new) piece.now) }

        // It fails exactly where the call is made to fail, or the piece doesn't fit.
        ensures answer { is_ok result ≡ takes_whole (kept_at self.old.fails (risen self.old.calls))
            (self.old.room - length self.old.bytes.items) piece.now }
        ensures bytes { self.new.bytes.items ≡ self.old.bytes.items ++ put_bytes (kept_at self.old.fails (risen self.old.calls))
            (self.old.room - length self.old.bytes.items) piece.now }
        ensures room { self.new.room ≡ self.old.room }
        ensures fails { self.new.fails ≡ self.old.fails }
        ensures calls { self.new.calls ≡ risen self.old.calls }
    {
        self.calls = self.calls.saturating_add(1);
        let kept = kept_bytes(self.fails.as_slice(), self.calls);
        let left = self.room - self.bytes.len();
        append(&mut self.bytes, part_put(kept, left, piece));
        if is_taken_whole(kept, left, piece) {
            return Ok(());
        }
        self.faults = self.faults.saturating_add(1);
        Err(SinkFailed)
    }
}
