// The simple mode of a machine.
ghost use Rattle.std.specs.Prelude.{◌≡◌, ◌≤◌, ◌^◌, Some, None, IsSome, IfSome, IfOk};
ghost use Rattle.std.specs.Option.{ForSome};
ghost use Rattle.cache_lru.specs.Contents.{IsBuildable};
ghost use Rattle.simple_pipe.specs.Pace.{pace_of};
ghost use Rattle.simple_pipe.specs.Pipe.{pipe_caches};
ghost use Rattle.simple_pipe.specs.Run.{StopsAs};

use crate::pace::{Pace, cycles_of};
use crate::parts::Parts;
use crate::run::run;
use crate::stages::Stages;
use crate::stop::PipeStop;
use cache_lru::Cache;
use mips_ref::State;
use std::alloc::{AllocError, Global};
use std::marker::Model;
use visa_io::Machine;

/// The pipeline of a machine, with its caches.
#[derive(Debug, Drop)]
pub struct Pipe {
    mem_ps: u64,
    store_ps: u64,
    mul: u32,
    div: u32,
    // since `start` and until a run
    pace: Option<Pace>,
    parts: Parts,
}

impl Model for Pipe {
    ghost use Rattle.std.specs.Prelude.{◌≡◌, ◌≤◌, []};
    ghost use Rattle.std.specs.Option.{ForSome};
    ghost use Rattle.cache_lru.specs.Contents.{shape_of};
    ghost use Rattle.simple_pipe.specs.Parts.{AreAfter};
    ghost use Rattle.simple_pipe.specs.Pipe.{Piped, IsSteady};

    ghost Value = { Piped };

    ghost view = { λ p. record {
      mem_ps = p.mem_ps;
      store_ps = p.store_ps;
      mul = p.mul;
      div = p.div;
      icache = shape_of p.parts.icache;
      dcache = shape_of p.parts.dcache;
      started = p.pace;
    } };

    ghost invariant = { λ p. record {
      mem_ps : p.mem_ps ≤ 10000000;
      store_ps : p.store_ps ≤ 10000000;
      mul : p.mul ≤ 32;
      div : p.div ≤ 64;
      steady : ForSome p.pace IsSteady;
      empty : ForSome p.pace (λ pace. AreAfter pace (shape_of p.parts.icache) (shape_of p.parts.dcache) p.parts []);
    } };
}

impl Pipe {
    /// The pipe of a machine, not started. Times are 1 to 10000000 ps, `mul` is 1 to 32, `div` 1 to 64; the sets and the bytes
    /// of a line of a cache are powers of two, and it has at most eight ways.
    pub fn new(alloc: Global, machine: &Machine) -> Result<Pipe, AllocError>
        requires icache { ForSome machine.now.icache IsBuildable }
        requires dcache { ForSome machine.now.dcache IsBuildable }
        requires mem { machine.now.mem_ps ≤ 10000000 }
        requires store { machine.now.store_ps ≤ 10000000 }
        requires mul { machine.now.mul ≤ 32 }
        requires div { machine.now.div ≤ 64 }
        ensures { IfOk result (λ p. p ≡ record {
          mem_ps = machine.now.mem_ps;
          store_ps = machine.now.store_ps;
          mul = machine.now.mul;
          div = machine.now.div;
          icache = machine.now.icache;
          dcache = machine.now.dcache;
          started = None;
        }) }
    {
        let icache = Cache::new(alloc, machine.icache)?;
        let dcache = Cache::new(alloc, machine.dcache)?;
        Ok(Pipe {
            mem_ps: machine.mem_ps,
            store_ps: machine.store_ps,
            mul: machine.mul,
            div: machine.div,
            pace: None,
            parts: Parts {
                stages: Stages::new(),
                icache,
                dcache,
            },
        })
    }

    /// Empties the pipe and its caches, for a run at a clock period of 100 to 1000000 ps. Takes no memory.
    pub fn start(&mut self, period_ps: u64)
        requires least { 100 ≤ period_ps }
        requires greatest { period_ps ≤ 1000000 }
        ensures { self.new ≡ record self.old {
          started = Some (pace_of self.old.mem_ps self.old.store_ps self.old.mul self.old.div period_ps);
        } }
    {
        self.parts.clear();
        self.pace = Some(Pace {
            miss: cycles_of(self.mem_ps, period_ps),
            store: cycles_of(self.store_ps, period_ps),
            mul: self.mul,
            div: self.div,
        });
    }

    /// Executes instructions until the job ends, or until `limit` steps were made and the job isn't at its exit address.
    /// The end is the cycle in which the last instruction leaves the pipeline. `limit` is at most 10^12; the pipe stands
    /// started, and has to be started again for a further run. Takes no memory.
    pub fn run_to(&mut self, state: &mut State, limit: u64) -> PipeStop
        requires started { IsSome self.old.started }
        requires limit { limit ≤ 10 ^ 12 }
        ensures stop { IfSome self.old.started (λ pace. StopsAs pace (pipe_caches self.old) state.old limit result state.new) }
        ensures pipe { self.new ≡ record self.old { started = None } }
    {
        let pace = self.pace.take().unwrap();
        run(&mut self.parts, pace, state, limit)
    }
}
