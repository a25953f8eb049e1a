// What the functions that are called from a region write.
ghost use Rattle.std.specs.Prelude.{◌≡◌, ◌<◌, ◌≤◌, All, Bool, List, ℕ, length};
ghost use Rattle.flow_graph.specs.Calls.{IsLeast};
ghost use Rattle.flow_graph.specs.Flow.{IsGraph};
ghost use Rattle.loop_regions.specs.Walks.{LoopGraph};
ghost use Rattle.run_law.specs.Counts.{CalleeWrites};
ghost use Rattle.visa_io.specs.declared.records.FactLine.{FactLine as Line};
ghost use Rattle.bound_checker.specs.Callees as meaning;
ghost use Rattle.bound_checker.specs.Lines.{addresses_of, program_of};
ghost use Rattle.bound_checker.specs.Room.{Adds, IsRoom, IsSized};
ghost use Rattle.bound_checker.specs.Units.{IsSoundUnit};

use crate::passing::called_of;
use crate::room::{Room, clear, put};
use crate::search::{Scope, spread};
use crate::steps::writes_counter;
use crate::tally::{lesser, only_if};
use crate::units::{number_of, unit_at};
use flow_graph::{Graph, Unit};
use visa_io::{Code, Region};

// The function that a unit calls is found.
fn put_called(code: &Code, g: &Graph, addresses: &[u32], room: &mut Room, k: usize)
    requires graph { IsGraph code.now g.now.entry g.now }
    requires addresses { addresses.now ≡ addresses_of g.now }
    requires room { IsRoom (length g.now.units) room.old }
    requires within { k < length g.now.units }
    ensures room { IsRoom (length g.now.units) room.new }
    ensures adds { Adds (meaning.IsCalledAt code.now g.now k) room.old room.new }
{
    let _ = code;
    match called_of(unit_at(g, k)) {
        None => {}
        Some(f) => put(room, number_of(addresses, f)),
    }
}

// Those that the units of these numbers call.
fn put_all_called(code: &Code, g: &Graph, addresses: &[u32], room: &mut Room, lo: usize, hi: usize)
    requires graph { IsGraph code.now g.now.entry g.now }
    requires addresses { addresses.now ≡ addresses_of g.now }
    requires room { IsRoom (length g.now.units) room.old }
    requires order { lo ≤ hi }
    requires within { hi ≤ length g.now.units }
    ensures room { IsRoom (length g.now.units) room.new }
    ensures adds { Adds (meaning.IsCalledFrom code.now g.now lo hi) room.old room.new }
{
    for k in lo..hi {
        put_called(code, g, addresses, room, k);
    }
}

// The least address at which a unit writes a register.
fn write_of(c: u8, unit: Unit) -> Option<u32>
    requires { IsSoundUnit unit }
    ensures { result ≡ meaning.write_of c unit }
{
    match unit.slot {
        None => only_if(writes_counter(c, unit.first), unit.at),
        Some(slot) => lesser(
            only_if(writes_counter(c, unit.first), unit.at),
            only_if(writes_counter(c, slot), unit.at + 4),
        ),
    }
}

// The least address at which a unit that is found writes a register.
fn least_write(code: &Code, g: &Graph, room: &Room, c: u8) -> Option<u32>
    requires graph { IsGraph code.now g.now.entry g.now }
    requires low { All IsSoundUnit g.now.units }
    requires room { IsRoom (length g.now.units) room.now }
    ensures { IsLeast (meaning.IsWritten code.now g.now room.now c) result }
{
    let _ = code;
    let mut best = None;
    for i in 0..room.count {
        best = lesser(best, write_of(c, unit_at(g, room.found[i])));
    }
    best
}

// The least address at which a function that is called from a region, directly or through others, writes its counter.
pub(crate) fn callee_write(
    code: &Code,
    g: &Graph,
    addresses: &[u32],
    room: &mut Room,
    region: Region,
    lo: usize,
    hi: usize,
) -> Option<u32>
    requires graph { IsGraph code.now g.now.entry g.now }
    requires low { All IsSoundUnit g.now.units }
    requires addresses { addresses.now ≡ addresses_of g.now }
    requires room { IsSized (length g.now.units) room.old }
    requires order { lo ≤ hi }
    requires within { hi ≤ length g.now.units }
    requires region { meaning.AreOfRegion g.now region lo hi }
    ensures room { IsSized (length g.now.units) room.new }
    ensures least { (lines : List Line) (loops : LoopGraph) (mask : ℕ → ℕ → Bool) → IsLeast (CalleeWrites (program_of code.now g.now lines loops mask) region) result }
{
    clear(room);
    put_all_called(code, g, addresses, room, lo, hi);
    spread(code, g, addresses, room, Scope::Called);
    least_write(code, g, room, region.counter)
}
