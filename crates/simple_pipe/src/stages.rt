// The six stages of the pipeline: when the last instruction entered them, and what the next two wait for.
ghost use Rattle.std.specs.Prelude.{◌≡◌, ◌∷◌, List, if◌then◌else◌};
ghost use Rattle.simple_pipe.specs.declared.executed.Executed.{Executed as Item};
ghost use Rattle.simple_pipe.specs.Parts.{IsAfter, IsEarly, load_name, no_stages};
ghost use Rattle.simple_pipe.specs.Times.{is_read};

use crate::Executed;

/// The cycles at which the last instruction entered decode, register read, execute, memory and write back, and left the
/// last; 0 before the first instruction.
#[derive(Clone, Copy, Debug, PartialEq, Eq)]
pub struct Stages {
    pub decode: u64,
    pub read: u64,
    pub execute: u64,
    pub memory: u64,
    pub write: u64,
    pub left: u64,
    /// The next instruction isn't fetched before this cycle, nor the one after it before that one.
    pub redirected: u64,
    pub redirected_next: u64,
    /// The name that the last instruction loads.
    pub loaded: Option<u8>,
}

// A cycle where a test holds, else 0.
fn only_if(test: bool, cycle: u64) -> u64
    ensures { result ≡ (if test then cycle else 0) }
{
    if test { cycle } else { 0 }
}

impl Stages {
    // Before the first instruction.
    pub fn new() -> Stages
        ensures { result ≡ no_stages }
    {
        Stages {
            decode: 0,
            read: 0,
            execute: 0,
            memory: 0,
            write: 0,
            left: 0,
            redirected: 0,
            redirected_next: 0,
            loaded: None,
        }
    }

    // One instruction more: it enters each stage where it has spent its cycles in the last one, and the instruction
    // before it has left. `waits` tells whether it reads what the last one loads, `loads` the name that it loads.
    pub fn enter(&mut self, executed: Executed, waits: bool, loads: Option<u8>)
        requires early { IsEarly self.old }
        requires waits { waits ≡ is_read self.old.loaded executed.reads }
        requires loads { loads ≡ load_name executed }
        ensures { (es : List Item) → IsAfter self.old es → IsAfter self.new (executed ∷ es) }
    {
        let loaded = only_if(waits, self.write);
        let fetch = self.decode.max(self.redirected);
        let decode = (fetch + 1 + u64::from(executed.fetch_excess)).max(self.read);
        let read = (decode + 1).max(self.execute);
        let execute = (read + 1).max(self.memory).max(loaded);
        let memory = (execute + 1 + u64::from(executed.execute_excess)).max(self.write);
        let write = (memory + 1 + u64::from(executed.memory_excess)).max(self.left);
        *self = Stages {
            decode,
            read,
            execute,
            memory,
            write,
            left: write + 1,
            redirected: self.redirected_next,
            redirected_next: only_if(executed.redirects, memory),
            loaded: loads,
        };
    }
}
