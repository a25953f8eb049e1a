// Files in memory, for tests of what reads files.
ghost use Rattle.std.specs.Prelude.{◌≡◌, ◌==◌, if◌then◌else◌};
ghost use Rattle.std.specs.Option.{option_copied};
ghost use Rattle.std.specs.List.{list_any};
ghost use Rattle.visa_io.specs.Answers.{OrMemory};
ghost use Rattle.visa_io.specs.Reads.{faults_after, no_read, TookFor};
ghost use Rattle.visa_io.specs.Logs.{last_noted};
ghost use Rattle.visa_io.specs.MemoryFiles.{held, within};

use crate::read_log::ReadLog;
use crate::{FileFault, Files, List};
use std::alloc::Global;

/// A file in memory.
#[derive(Debug, Drop)]
pub struct MemFile {
    pub name: List<u8>,
    pub bytes: List<u8>,
}

/// Files in memory, which tell their contents. Of two equal names the first counts.
#[derive(Debug, Drop)]
pub struct MemFiles {
    files: List<MemFile>,
    fails: List<u64>,
    log: ReadLog,
}

impl MemFiles {
    /// Files whose reads of these numbers fail; the first read has the number 1. Takes no memory.
    pub fn new(files: List<MemFile>, fails: List<u64>) -> MemFiles
        ensures files { result.files ≡ files }
        ensures fails { result.fails ≡ fails }
        ensures faults { result.log.faults ≡ 0 }
        ensures reads { result.log.reads ≡ 0 }
        ensures last { last_noted result.log ≡ no_read }
    {
        MemFiles {
            files,
            fails,
            log: ReadLog::new(),
        }
    }
}

impl Files for MemFiles {
    ghost use Rattle.std.specs.Prelude.{◌≡◌, ◌≤◌, length, IfSome, IfOk};
    ghost use Rattle.visa_io.specs.Answers.{OrMemory};
    ghost use Rattle.visa_io.specs.Faults.{risen};
    ghost use Rattle.visa_io.specs.Reads.{IsAnswerOf, faults_after, has_failed, last_name, TookFor};
    ghost use Rattle.visa_io.specs.MemoryFiles.{mem_answer, seen_of};

    ghost seen = { seen_of };

    fn read(&mut self, alloc: Global, name: &str, max: u64) -> Result<List<u8>, FileFault>
        ensures contents { (seen_of self.new).contents ≡ (seen_of self.old).contents }
        ensures faults { (seen_of self.new).faults ≡ faults_after result (seen_of self.old).faults }
        ensures reads { (seen_of self.new).reads ≡ risen (seen_of self.old).reads }
        ensures last_name { (seen_of self.new).last.name ≡ last_name name.now result }
        ensures last_failed { (seen_of self.new).last.failed ≡ has_failed result }
        ensures last_taken { TookFor result max (seen_of self.new).last.taken }
        ensures fits { IfOk result (λ bytes. length bytes ≤ max) }
        ensures told { IfSome (seen_of self.old).contents (λ map. IsAnswerOf map name.now max result) }

        // It fails exactly where the read's number is among `fails`, or no file has the name.
        ensures exact { OrMemory (Err FileFault.Memory) (λ answer. answer ≡ mem_answer self.old name.now max) result }
        ensures fails { self.new.fails ≡ self.old.fails }
    {
        let name = name.as_bytes();
        let Ok(noted) = List::copy_of(alloc, name) else {
            let nothing = List::new(alloc);
            return self.log.note(nothing, 0, Err(FileFault::Memory));
        };
        let number = self.log.reads.saturating_add(1);
        let is_made_to_fail = is_among(self.fails.as_slice(), number);
        let (taken, answer) = answer_of(alloc, is_made_to_fail, self.files.as_slice(), name, max);
        count_fault(&mut self.log.faults, &answer);
        self.log.note(noted, taken, answer)
    }
}

/// Counts a read that failed.
fn count_fault(faults: &mut u64, answer: &Result<List<u8>, FileFault>)
    ensures { faults.new ≡ faults_after answer.now faults.old }
{
    if matches!(answer, Err(FileFault::Failed)) {
        *faults = faults.saturating_add(1);
    }
}

fn is_among(numbers: &[u64], number: u64) -> bool
    ensures { result ≡ list_any (λ n. n == number) numbers.now }
{
    numbers.iter().any(|n| *n == number)
}

/// The number of bytes taken, and the answer, of a read, which may be made to fail.
fn answer_of(
    alloc: Global,
    is_made_to_fail: bool,
    files: &[MemFile],
    name: &[u8],
    max: u64,
) -> (u64, Result<List<u8>, FileFault>)
    ensures answer { OrMemory (Err FileFault.Memory) (λ answer. answer ≡ (if is_made_to_fail then Err FileFault.Failed else within max (held files.now name.now))) result.1 }
    ensures taken { TookFor result.1 max result.0 }
{
    if is_made_to_fail {
        return (0, Err(FileFault::Failed));
    }
    look_up(alloc, files, name, max)
}

/// The number of bytes taken, and the answer, of a read that isn't made to fail.
fn look_up(
    alloc: Global,
    files: &[MemFile],
    name: &[u8],
    max: u64,
) -> (u64, Result<List<u8>, FileFault>)
    ensures answer { OrMemory (Err FileFault.Memory) (λ answer. answer ≡ within max (held files.now name.now)) result.1 }
    ensures taken { TookFor result.1 max result.0 }
{
    let Some(content) = content_of(files, name) else {
        return (0, Err(FileFault::Failed));
    };
    let taken = content.len() as u64;
    if taken > max {
        return (taken, Err(FileFault::Long));
    }
    match List::copy_of(alloc, content.as_slice()) {
        Ok(bytes) => (taken, Ok(bytes)),
        Err(_) => (taken, Err(FileFault::Memory)),
    }
}

fn content_of<'a>(files: &'a [MemFile], name: &[u8]) -> Option<&'a List<u8>>
    ensures { option_copied result ≡ held files.now name.now }
{
    files
        .iter()
        .find(|file| file.name.as_slice() == name)
        .map(|file| &file.bytes)
}
