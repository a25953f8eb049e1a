// A writer of the system, such as the standard output.
ghost use Rattle.std.specs.Prelude.{◌≡◌, ◌<◌, ℕ, length, take, OnOk, OnErr};
ghost use Rattle.std.specs.Io.KnownBytes.{Appends};
ghost use Rattle.visa_io.specs.Puts.{Put, PutFailed, untold};

use crate::transfers::write_whole;
use crate::{Sink, SinkFailed};
use std::io::Write;

/// A sink that writes to a writer, as `std::io::writer(&rt)` is one. It tells no bytes.
#[derive(Drop)]
pub struct HostSink<W> {
    to: W,
    faults: u64,
    puts: u64,
}

impl<W: Write> HostSink<W> {
    /// A sink over this writer, with no fault and no put yet. Takes no memory.
    pub fn new(to: W) -> HostSink<W>
        ensures to { result.to ≡ to }
        ensures faults { result.faults ≡ 0 }
        ensures puts { result.puts ≡ 0 }
    {
        HostSink {
            to,
            faults: 0,
            puts: 0,
        }
    }
}

impl<W: Write + Drop> Sink for HostSink<W> {
    ghost taken = { λ host. untold host.faults host.puts };

    /// Writes the piece, by as many writes as it takes. Takes no memory.
    fn put(&mut self, piece: &[u8]) -> Result<(), SinkFailed>
        ensures ok { OnOk result (Put (untold self.old.faults self.old.puts) (untold self.new.faults self.new.puts) piece.now) }
        ensures failed { OnErr result (PutFailed (untold self.old.faults self.old.puts) (untold self.new.faults self.new.puts) piece.now) }

        // Where the writer tells its bytes, it has the piece, or after a fault a part of it.
        ensures written { OnOk result (Appends (W.contents self.old.to) (W.contents self.new.to) piece.now) }
        ensures part { OnErr result ((n : ℕ) × (n < length piece.now) × Appends (W.contents self.old.to) (W.contents self.new.to) (take n piece.now)) }
    {
        self.puts = self.puts.saturating_add(1);
        let written = write_whole(&mut self.to, piece);
        if written.is_err() {
            self.faults = self.faults.saturating_add(1);
        }
        written
    }
}
