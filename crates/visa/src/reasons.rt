// What standard error is told: why a read failed, and what a status means.
ghost use Rattle.std.specs.Prelude.{◌≡◌};

use std::alloc::Global;
use std::{fs, io};
use visa_io::{FileFault, Files, List};

/// Files, and what is known of the last read that failed: its name, and why the system doesn't open the file.
#[derive(Drop)]
pub struct Watched<'a, F, R> {
    files: F,
    rt: &'a R,
    name: Option<String>,
    reason: Option<io::Error>,
}

impl<'a, F: Files, R: std::rt::Files> Watched<'a, F, R> {
    /// Files of which no read has failed. Takes no memory.
    pub fn new(files: F, rt: &'a R) -> Watched<'a, F, R> {
        Watched {
            files,
            rt,
            name: None,
            reason: None,
        }
    }

    // Keeps the name of a read that failed, and why the file can't be opened.
    fn note(&mut self, alloc: Global, name: &str)
        ensures { self.new.files ≡ self.old.files }
    {
        self.name = String::from_str(alloc, name).ok();
        self.reason = fs::open(self.rt, name).err();
    }

    /// The name of the last read that failed, where there was memory for it.
    pub fn name(&self) -> Option<&String> {
        self.name.as_ref()
    }

    /// Why the system doesn't open that file; none where it does.
    pub fn reason(&self) -> Option<&io::Error> {
        self.reason.as_ref()
    }
}

impl<F: Files + Drop, R: std::rt::Files> Files for Watched<'_, F, R> {
    ghost seen = { λ w. F.seen w.files };

    fn read(&mut self, alloc: Global, name: &str, max: u64) -> Result<List<u8>, FileFault> {
        let read = self.files.read(alloc, name, max);
        if let Err(FileFault::Failed) = &read {
            self.note(alloc, name);
        }
        read
    }
}

/// What a status but 0 means, and where to read more.
pub fn meaning(status: u8) -> &'static str {
    match status {
        1 => "the words are no command; see `man ./docs/visa.1`",
        2 => "a file can't be read",
        3 => "the task text has a fault in the line that is named; see docs/formats.md",
        4 => "the image isn't taken, or doesn't go with the task; see docs/statuses.md",
        5 => "the task isn't admitted: a job might miss its deadline; see docs/statuses.md",
        6 => "the jobs text has a fault in the line that is named; see docs/formats.md",
        7 => "the output can't be written",
        8 => "there isn't enough memory",
        9 => "a file has more than 8388608 bytes",
        _ => "see docs/statuses.md",
    }
}
