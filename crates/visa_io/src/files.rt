// Files by name, as the program reads them.
ghost use Rattle.std.specs.Prelude.{◌≡◌, ◌≤◌, length, IfSome, IfOk};
ghost use Rattle.visa_io.specs.Faults.{risen};
ghost use Rattle.visa_io.specs.Reads.{Seen, IsAnswerOf, faults_after, last_name, has_failed, TookFor};

use crate::List;
use std::alloc::Global;

/// Why a read gave no bytes.
#[derive(Clone, Copy, Debug, PartialEq, Eq)]
pub enum FileFault {
    /// The file couldn't be read.
    Failed,
    /// It has more bytes than were asked for.
    Long,
    /// No memory for its bytes.
    Memory,
}

/// Files that are read by name.
pub trait Files {
    /// What a call sees of them: the contents by name where these are told, a count of faults, a count of reads, and what
    /// the last read was. The counts stop at 2^64 - 1. Before the first read its name is none.
    ghost seen: { Self → Seen };

    /// The bytes of a file, of which there are at most `max`.
    ///
    /// `Failed` comes only with a fault, and `Long` only where more than `max` bytes came.
    /// Where the contents are told, a name that has none is answered by `Failed` (or `Memory`) alone.
    fn read(&mut self, alloc: Global, name: &str, max: u64) -> Result<List<u8>, FileFault>
        ensures contents { (seen self.new).contents ≡ (seen self.old).contents }
        ensures faults { (seen self.new).faults ≡ faults_after result (seen self.old).faults }
        ensures reads { (seen self.new).reads ≡ risen (seen self.old).reads }
        ensures last_name { (seen self.new).last.name ≡ last_name name.now result }
        ensures last_failed { (seen self.new).last.failed ≡ has_failed result }
        ensures last_taken { TookFor result max (seen self.new).last.taken }
        ensures fits { IfOk result (λ bytes. length bytes ≤ max) }
        ensures told { IfSome (seen self.old).contents (λ map. IsAnswerOf map name.now max result) };
}
