// A sink for bytes, as the program writes its log.
ghost use Rattle.std.specs.Prelude.{OnOk, OnErr};
ghost use Rattle.visa_io.specs.Puts.{Taken, Put, PutFailed};

/// A piece was not taken whole.
#[derive(Clone, Copy, Debug, PartialEq, Eq)]
pub struct SinkFailed;

/// What takes bytes, one piece after the other.
pub trait Sink {
    /// What a call sees of it: the bytes taken so far, where they are told, a count of faults, and a count of puts. The
    /// counts stop at 2^64 - 1.
    ghost taken: { Self → Taken };

    /// Appends a piece. `SinkFailed` comes only with a fault; some prefix of the piece was appended then.
    fn put(&mut self, piece: &[u8]) -> Result<(), SinkFailed>
        ensures ok { OnOk result (Put (taken self.old) (taken self.new) piece.now) }
        ensures failed { OnErr result (PutFailed (taken self.old) (taken self.new) piece.now) };
}
