// The files of the system.
ghost use Rattle.std.specs.Prelude.{◌≡◌, None};
ghost use Rattle.visa_io.specs.Reads.{no_read};
ghost use Rattle.visa_io.specs.Logs.{last_noted, seen_in};

use crate::opening::{Opener, read_noted};
use crate::read_log::ReadLog;
use crate::{FileFault, Files, List};
use std::alloc::Global;
use std::fs;

/// The files of a runtime. They tell no contents.
#[derive(Drop)]
pub struct HostFiles<'a, R> {
    system: System<'a, R>,
    log: ReadLog,
}

/// A runtime, which opens files.
#[derive(Drop)]
struct System<'a, R> {
    rt: &'a R,
}

impl<R: std::rt::Files> Opener for System<'_, R> {
    type File = R::File;

    ghost stored = { λ _. None };

    fn open(&self, name: &str) -> Option<R::File> {
        fs::open(self.rt, name).ok()
    }
}

impl<'a, R: std::rt::Files> HostFiles<'a, R> {
    /// The files of this runtime, none of them read yet. Takes no memory.
    pub fn new(rt: &'a R) -> HostFiles<'a, R>
        ensures faults { result.log.faults ≡ 0 }
        ensures reads { result.log.reads ≡ 0 }
        ensures last { last_noted result.log ≡ no_read }
    {
        HostFiles {
            system: System { rt },
            log: ReadLog::new(),
        }
    }
}

impl<R: std::rt::Files> Files for HostFiles<'_, R> {
    ghost seen = { λ host. seen_in None host.log };

    fn read(&mut self, alloc: Global, name: &str, max: u64) -> Result<List<u8>, FileFault> {
        read_noted(alloc, &self.system, name, max, &mut self.log)
    }
}
