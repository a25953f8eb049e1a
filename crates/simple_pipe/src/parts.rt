// The stages and the caches of a pipe.
ghost use Rattle.std.specs.Prelude.{◌≡◌, ◌∷◌, [], ℕ, List, Option};
ghost use Rattle.mips_ref.specs.Memory.{in_port};
ghost use Rattle.mips_ref.specs.declared.records.Ran.{Ran as Item};
ghost use Rattle.visa_io.specs.declared.records.Shape.{Shape as Form};
ghost use Rattle.cache_lru.specs.Contents.{StandsForAddresses, shape_of};
ghost use Rattle.simple_pipe.specs.declared.pace.Pace.{Pace as Rate};
ghost use Rattle.simple_pipe.specs.Parts.{AreAfter, IsEarly, load_name, name_loaded, reads_in};
ghost use Rattle.simple_pipe.specs.Simple as simple;
ghost use Rattle.simple_pipe.specs.Simple.{Caches, caches_of, fetches, loads, with_load};
ghost use Rattle.simple_pipe.specs.Times.{is_among, is_read};

use crate::Executed;
use crate::pace::{Pace, is_load, memory_excess, timed, untimed};
use crate::stages::Stages;
use cache_lru::Cache;
use mips_isa::{Instr, Kind, kind, reads, writes};
use mips_ref::Ran;

/// The stages, and the caches of instructions and of data.
#[derive(Debug, Drop)]
pub struct Parts {
    pub stages: Stages,
    pub icache: Cache,
    pub dcache: Cache,
}

// Cycles of an access beyond the first.
fn excess(hit: bool, miss: u32) -> u32
    ensures { result ≡ simple.excess hit miss }
{
    if hit { 0 } else { miss }
}

// Whether an address is one of the output port's.
fn is_port(at: u32) -> bool
    ensures { result ≡ in_port at }
{
    at >= 0xffff_0000 && at < 0xffff_0004
}

// Fetches through the cache of instructions, and gives the cycles beyond the first.
fn fetch(cache: &mut Cache, pace: Pace, ran: Ran) -> u32
    ensures cost { (d : Option Form) (rs : List Item) → StandsForAddresses cache.old (fetches rs)
        → result ≡ simple.fetch_cost pace (caches_of (shape_of cache.old) d) ran rs }
    ensures stands { (rs : List Item) → StandsForAddresses cache.old (fetches rs) → StandsForAddresses cache.new (fetches (ran ∷ rs)) }
    ensures shape { shape_of cache.new ≡ shape_of cache.old }
{
    if ran.is_code {
        let hit = cache.access(ran.at);
        excess(hit, pace.miss)
    } else {
        0
    }
}

// Loads through the cache of data where there is a load, and not from the port; and tells whether that hits.
fn load(cache: &mut Cache, at: Option<u32>) -> bool
    ensures hit { (i : Option Form) (ats : List ℕ) → StandsForAddresses cache.old ats
        → result ≡ simple.load_hit (caches_of i (shape_of cache.old)) at (with_load at ats) }
    ensures stands { (ats : List ℕ) → StandsForAddresses cache.old ats → StandsForAddresses cache.new (with_load at ats) }
    ensures shape { shape_of cache.new ≡ shape_of cache.old }
{
    match at {
        Some(at) => { if is_port(at) { false } else { cache.access(at) } }
        None => false,
    }
}

// Cycles of an access to data beyond the first.
fn access(pace: Pace, ran: Ran, hit: bool, kind: Kind) -> u32
    ensures { (c : Caches) (rs : List Item) → hit ≡ simple.load_hit c ran.load (loads (ran ∷ rs))
        → result ≡ simple.unless_trapped ran.trapped (simple.access_cost pace c ran rs kind) }
{
    if ran.trapped {
        return 0;
    }
    match kind {
        Kind::Load => excess(hit, pace.miss),
        _ => memory_excess(pace, kind),
    }
}

// Whether what executed reads a name.
fn reads_name(instr: Option<Instr>, name: u8) -> bool
    ensures { result ≡ is_among name (reads_in instr) }
{
    match instr {
        Some(i) => reads(i).contains(&Some(name)),
        None => false,
    }
}

// Whether it reads the name that the last instruction loads.
fn waits(loaded: Option<u8>, instr: Option<Instr>) -> bool
    ensures { result ≡ is_read loaded (reads_in instr) }
{
    match loaded {
        Some(name) => reads_name(instr, name),
        None => false,
    }
}

// The name that it loads.
fn name_loaded(instr: Option<Instr>) -> Option<u8>
    ensures { result ≡ name_loaded instr }
{
    match instr {
        Some(i) => if is_load(kind(i)) { writes(i) } else { None },
        None => None,
    }
}

// What executed, as the pipeline sees it, by the cycles of its fetch beyond the first and whether its load hits.
#[tactic(auto, unfolding(crate::specs::Pace::timed))]
fn as_executed(pace: Pace, ran: Ran, fetch_excess: u32, hit: bool) -> Executed
    ensures is { (c : Caches) (rs : List Item) → fetch_excess ≡ simple.fetch_cost pace c ran rs
        → hit ≡ simple.load_hit c ran.load (loads (ran ∷ rs)) → result ≡ simple.as_instr pace c ran rs ran.instr }
    ensures reads { result.reads ≡ reads_in ran.instr }
    ensures loads { load_name result ≡ name_loaded ran.instr }
{
    match ran.instr {
        Some(i) => {
            let kind = kind(i);
            let memory_excess = access(pace, ran, hit, kind);
            timed(pace, i, kind, ran.taken, fetch_excess, memory_excess)
        }
        None => untimed(fetch_excess),
    }
}

impl Parts {
    // Empties stages and caches.
    pub fn clear(&mut self)
        ensures after { (p : Rate) → AreAfter p (shape_of self.new.icache) (shape_of self.new.dcache) self.new [] }
        ensures icache { shape_of self.new.icache ≡ shape_of self.old.icache }
        ensures dcache { shape_of self.new.dcache ≡ shape_of self.old.dcache }
    {
        self.stages = Stages::new();
        self.icache.flush();
        self.dcache.flush();
    }

    // What executed goes through the pipeline.
    pub fn enter(&mut self, pace: Pace, ran: Ran)
        requires { IsEarly self.old.stages }
        ensures { (i d : Option Form) (rs : List Item) → AreAfter pace i d self.old rs → AreAfter pace i d self.new (ran ∷ rs) }
    {
        let fetch_excess = fetch(&mut self.icache, pace, ran);
        let hit = load(&mut self.dcache, ran.load);
        let waits = waits(self.stages.loaded, ran.instr);
        let loads = name_loaded(ran.instr);
        self.stages
            .enter(as_executed(pace, ran, fetch_excess, hit), waits, loads);
    }
}
