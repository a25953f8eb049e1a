// The out-of-order core with its clock.
ghost use Rattle.std.specs.Prelude.{◌≡◌, ◌≤◌, ◌<◌, ◌+◌, ◌^◌, ℕ, List, [], max, IfOk};
ghost use Rattle.std.specs.Int.{div_ceil};
ghost use Rattle.std.specs.Option.{ForSome};
ghost use Rattle.cache_lru.specs.Contents.{IsBuildable, StandsForAddresses, shape_of};
ghost use Rattle.core_window.specs.Beside.{Stands};
ghost use Rattle.core_window.specs.Core.{opened};
ghost use Rattle.mips_ref.specs.Mips.{Mips};
ghost use Rattle.ooo_clock.specs.Clock.{Clock, in_flight_of, opening, speeds_at};
ghost use Rattle.ooo_clock.specs.Cycle.{cycled_of};
ghost use Rattle.ooo_clock.specs.Fasts.{IsAt, IsReset, StandsBeside, ended_by};
ghost use Rattle.ooo_clock.specs.declared.ending.CycleEnd.TheVariants.{Went};

use crate::clock::{Pace, Parts};
use crate::ending::CycleEnd;
use cache_lru::Cache;
use core_window::Window;
use mips_ref::{State, Step};
use predictors::Predictor;
use std::alloc::{AllocError, Global};
use std::collections::VecDeque;
use std::marker::Model;
use visa_io::Machine;

/// The fast mode of a machine: an out-of-order core that performs one cycle after the other beside a committed state.
/// Contracts see its window, its clock, its caches and the commits of the last cycle; its clock, with what the caches
/// were asked for, is given by `IsAt`.
#[derive(Debug, Drop)]
pub struct Fast {
    machine: Machine,
    parts: Parts,
    commits: Vec<u32>,
}

impl Model for Fast {
    ghost use Rattle.std.specs.Prelude.{vec_capacity};
    ghost use Rattle.ooo_clock.specs.Fasts.{Clocked, Keeps, clocked};

    ghost Value = { Clocked };

    ghost view = { λ f. clocked f.machine f.parts f.commits.items };

    ghost invariant = { λ f. Keeps f.machine f.parts (vec_capacity f.commits) };
}

// A time (ps) in cycles of a period (ps), rounded up.
fn cycles_of(time_ps: u64, period_ps: u64) -> u32
    requires time { time_ps ≤ 10000000 }
    requires period { 100 ≤ period_ps }
    ensures value { result ≡ div_ceil time_ps period_ps }
    ensures small { result ≤ 100000 }
{
    time_ps.div_ceil(period_ps) as u32
}

fn end_by(ending: Option<Step>) -> CycleEnd
    ensures { ended_by result ≡ ending }
{
    match ending {
        None => CycleEnd::Went,
        Some(step) => CycleEnd::Ended(step),
    }
}

impl Parts {
    // Opens the window on a state, at these cycles of a miss and of a store, with empty caches.
    fn open(&mut self, state: &State, miss: u32, store: u32)
        ensures { IsReset self.old self.new state.now.mips miss store }
    {
        self.pace.miss = miss;
        self.pace.store = store;
        self.cycle = 0;
        self.fetch_free = 0;
        self.load_free = 0;
        self.store_free = 0;
        self.arrived = None;
        self.window.open(state);
        self.times.clear();
        self.icache.flush();
        self.dcache.flush();
    }
}

impl Fast {
    /// The fast mode of a machine, not opened: it stands beside no state until `open`. Times are 1 to 10000000 ps,
    /// `mul` is 1 to 32, `div` 1 to 64; the sets and the bytes of a line of a cache are powers of two, and it has at
    /// most eight ways. No other call takes memory.
    pub fn new(alloc: Global, machine: &Machine) -> Result<Fast, AllocError>
        requires icache { ForSome machine.now.icache IsBuildable }
        requires dcache { ForSome machine.now.dcache IsBuildable }
        requires mem { machine.now.mem_ps ≤ 10000000 }
        requires store { machine.now.store_ps ≤ 10000000 }
        requires mul { machine.now.mul ≤ 32 }
        requires div { machine.now.div ≤ 64 }
        ensures { IfOk result (λ f. f.machine ≡ machine.now) }
    {
        let window = Window::new(alloc, machine.rob)?;
        let times = VecDeque::with_capacity(alloc, machine.rob as usize)?;
        let icache = Cache::new(alloc, machine.icache)?;
        let dcache = Cache::new(alloc, machine.dcache)?;
        let commits = Vec::with_capacity(alloc, machine.width as usize)?;
        let pace = Pace {
            width: machine.width,
            rob: machine.rob,
            miss: 0,
            store: 0,
            mul: machine.mul,
            div: machine.div,
            has_icache: machine.icache.is_some(),
        };
        let parts = Parts {
            pace,
            cycle: 0,
            fetch_free: 0,
            load_free: 0,
            store_free: 0,
            arrived: None,
            window,
            times,
            icache,
            dcache,
        };
        Ok(Fast {
            machine: *machine,
            parts,
            commits,
        })
    }

    /// Opens the window on a state, at a clock period of at least 100 ps: the caches are empty, and the clock stands
    /// at its opening. The state is not to be changed but by `cycle`.
    pub fn open(&mut self, state: &State, period_ps: u64)
        requires { 100 ≤ period_ps }
        ensures clock { (numbers : List ℕ) → IsAt self.new state.now.mips numbers
            (opening self.old.machine.rob state.now.mips numbers) }
        ensures beside { StandsBeside self.new state.now.mips }
        ensures speeds { self.new.speeds ≡ speeds_at self.old.machine period_ps }
        ensures machine { self.new.machine ≡ self.old.machine }
        ensures cycle { self.new.cycle ≡ 0 }
        ensures commits { self.new.commits ≡ [] }
    {
        let miss = cycles_of(self.machine.mem_ps, period_ps);
        let store = cycles_of(self.machine.store_ps, period_ps);
        self.parts.open(state, miss, store);
        self.commits.clear();
    }

    /// Performs a cycle on the state that it was opened with or last left. The cycles since `open` are below 10^18,
    /// and none of them has answered Ended. Each commit is made by what the window holds, and isn't counted by the
    /// state.
    pub fn cycle<P: Predictor>(&mut self, state: &mut State, p: &mut P) -> CycleEnd
        requires beside { StandsBeside self.old state.old.mips }
        requires room { self.old.cycle < 10 ^ 18 }
        ensures q { (q : Clock) → IsAt self.old state.old.mips (P.data_of p.old) q
            → IsAt self.new state.new.mips (P.data_of p.new)
            (cycled_of self.old.speeds (record { guess = P.guess_of; learnt = P.learnt_of }) q).q }
        ensures pcs { (q : Clock) → IsAt self.old state.old.mips (P.data_of p.old) q
            → self.new.commits ≡ (cycled_of self.old.speeds (record { guess = P.guess_of; learnt = P.learnt_of })
            q).pcs }
        ensures ended { (q : Clock) → IsAt self.old state.old.mips (P.data_of p.old) q
            → ended_by result ≡ (cycled_of self.old.speeds (record { guess = P.guess_of; learnt = P.learnt_of })
            q).ended }
        ensures state { (q : Clock) → IsAt self.old state.old.mips (P.data_of p.old) q
            → state.new.mips ≡ (cycled_of self.old.speeds (record { guess = P.guess_of; learnt = P.learnt_of })
            q).q.state }
        ensures numbers { (q : Clock) → IsAt self.old state.old.mips (P.data_of p.old) q
            → P.data_of p.new ≡ (cycled_of self.old.speeds (record { guess = P.guess_of; learnt = P.learnt_of })
            q).q.numbers }
        ensures stands { Stands self.new.core state.new.mips }
        ensures goes_on { result ≡ Went → StandsBeside self.new state.new.mips }
        ensures cycle { self.new.cycle ≡ self.old.cycle + 1 }
        ensures machine { self.new.machine ≡ self.old.machine }
        ensures speeds { self.new.speeds ≡ self.old.speeds }
        ensures computed { state.new.computed ≡ state.old.computed }
    {
        self.parts.cycle(state, p, &mut self.commits);
        end_by(self.parts.window.ending())
    }

    /// How many cycles were performed since `open`.
    pub fn cycles(&self) -> u64
        ensures { result ≡ self.now.cycle }
    {
        self.parts.cycle
    }

    /// How many cycles accesses that have begun may still take: at most a miss or a store.
    pub fn in_flight(&self) -> u64
        ensures is { (x : Mips) (numbers : List ℕ) (q : Clock) → IsAt self.now x numbers q → result ≡ in_flight_of q }
        ensures least { result ≤ max self.now.speeds.miss self.now.speeds.store }
    {
        let cycle = self.parts.cycle;
        let fetch = self.parts.fetch_free.saturating_sub(cycle);
        let load = self.parts.load_free.saturating_sub(cycle);
        let store = self.parts.store_free.saturating_sub(cycle);
        fetch.max(load.max(store))
    }

    /// The pcs at which the state stood after each commit of the last cycle whose step went, in order; none after
    /// `open`.
    pub fn commits(&self) -> &[u32]
        ensures { result.now ≡ self.now.commits }
    {
        self.commits.as_slice()
    }

    /// The window.
    pub fn core(&self) -> &Window
        ensures { result.now ≡ self.now.core }
    {
        &self.parts.window
    }
}
