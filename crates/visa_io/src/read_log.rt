// The counts and the last read that a source of files keeps.
ghost use Rattle.std.specs.Prelude.{◌≡◌, None};
ghost use Rattle.visa_io.specs.Faults.{risen};
ghost use Rattle.visa_io.specs.Reads.{last_name, has_failed, is_want, no_read};
ghost use Rattle.visa_io.specs.Logs.{last_noted};

use crate::{FileFault, List};

/// Counts of faults and of reads, and what the last read was.
#[derive(Debug, Drop)]
pub(crate) struct ReadLog {
    pub(crate) faults: u64,
    pub(crate) reads: u64,
    /// None before the first read, and after one that found no memory.
    pub(crate) name: Option<List<u8>>,
    /// The number of bytes that it took.
    pub(crate) taken: u64,
    pub(crate) failed: bool,
}

impl ReadLog {
    /// No read yet. Takes no memory.
    pub(crate) fn new() -> ReadLog
        ensures faults { result.faults ≡ 0 }
        ensures reads { result.reads ≡ 0 }
        ensures last { last_noted result ≡ no_read }
    {
        ReadLog {
            faults: 0,
            reads: 0,
            name: None,
            taken: 0,
            failed: false,
        }
    }

    /// Notes a read of a name that took so many bytes, and hands its answer back. A fault was counted before.
    pub(crate) fn note(
        &mut self,
        name: List<u8>,
        taken: u64,
        answer: Result<List<u8>, FileFault>,
    ) -> Result<List<u8>, FileFault>
        ensures answer { result ≡ answer }
        ensures faults { self.new.faults ≡ self.old.faults }
        ensures reads { self.new.reads ≡ risen self.old.reads }
        ensures last_name { (last_noted self.new).name ≡ last_name name answer }
        ensures last_failed { (last_noted self.new).failed ≡ has_failed answer }
        ensures last_taken { (last_noted self.new).taken ≡ taken }
    {
        self.reads = self.reads.saturating_add(1);
        self.taken = taken;
        self.failed = is_failed(&answer);
        self.name = if is_want_of_memory(&answer) {
            None
        } else {
            Some(name)
        };
        answer
    }
}

fn is_failed(answer: &Result<List<u8>, FileFault>) -> bool
    ensures { result ≡ has_failed answer.now }
{
    matches!(answer, Err(FileFault::Failed))
}

fn is_want_of_memory(answer: &Result<List<u8>, FileFault>) -> bool
    ensures { result ≡ is_want answer.now }
{
    matches!(answer, Err(FileFault::Memory))
}
