// Opening a file by its name, and reading it.
ghost use Rattle.std.specs.Prelude.{◌≡◌, ◌≤◌, length, IfOk, IfSome, Option};
ghost use Rattle.visa_io.specs.Faults.{risen};
ghost use Rattle.visa_io.specs.Logs.{last_noted};
ghost use Rattle.visa_io.specs.Reads.{Contents, IsAnswerOf, TookFor, faults_after, has_failed, last_name};
ghost use Rattle.visa_io.specs.Transfers.{Opens, faults_once};

use crate::read_log::ReadLog;
use crate::transfers::read_whole;
use crate::{FileFault, List};
use std::alloc::Global;
use std::io::Read;

/// What opens files by their names.
pub(crate) trait Opener {
    type File: Read + Drop;

    /// The contents by name, where they are known.
    ghost stored: { Self → Option Contents };

    /// The file of a name, or None where it can't be opened.
    fn open(&self, name: &str) -> Option<Self::File>
        ensures { IfSome result (λ file. Opens (stored self.now) name.now (Self.File.remaining file)) };
}

/// Opens a file. None comes where that failed, which is counted.
fn open_counted<O: Opener>(opener: &O, name: &str, faults: &mut u64) -> Option<O::File>
    ensures faults { faults.new ≡ faults_once result faults.old }
    ensures file { IfSome result (λ file. Opens (O.stored opener.now) name.now (O.File.remaining file)) }
{
    let file = opener.open(name);
    if file.is_none() {
        *faults = faults.saturating_add(1);
    }
    file
}

/// The number of bytes taken, and the answer, of a read of a file.
fn read_file<O: Opener>(
    alloc: Global,
    opener: &O,
    name: &str,
    max: u64,
    faults: &mut u64,
) -> (u64, Result<List<u8>, FileFault>)
    ensures faults { faults.new ≡ faults_after result.1 faults.old }
    ensures told { IfSome (O.stored opener.now) (λ map. IsAnswerOf map name.now max result.1) }
    ensures fits { IfOk result.1 (λ bytes. length bytes ≤ max) }
    ensures taken { TookFor result.1 max result.0 }
{
    match open_counted(opener, name, faults) {
        Some(mut file) => read_whole(alloc, &mut file, max, faults),
        None => (0, Err(FileFault::Failed)),
    }
}

/// Reads a file by its name, and notes the read.
pub(crate) fn read_noted<O: Opener>(
    alloc: Global,
    opener: &O,
    name: &str,
    max: u64,
    log: &mut ReadLog,
) -> Result<List<u8>, FileFault>
    ensures faults { log.new.faults ≡ faults_after result log.old.faults }
    ensures reads { log.new.reads ≡ risen log.old.reads }
    ensures last_name { (last_noted log.new).name ≡ last_name name.now result }
    ensures last_failed { (last_noted log.new).failed ≡ has_failed result }
    ensures last_taken { TookFor result max (last_noted log.new).taken }
    ensures fits { IfOk result (λ bytes. length bytes ≤ max) }
    ensures told { IfSome (O.stored opener.now) (λ map. IsAnswerOf map name.now max result) }
{
    let Ok(noted) = List::copy_of(alloc, name.as_bytes()) else {
        let nothing = List::new(alloc);
        return log.note(nothing, 0, Err(FileFault::Memory));
    };
    let (taken, answer) = read_file(alloc, opener, name, max, &mut log.faults);
    log.note(noted, taken, answer)
}
