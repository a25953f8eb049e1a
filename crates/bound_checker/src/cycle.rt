// Whether a region has a cycle without a step.
ghost use Rattle.std.specs.Prelude.{◌≡◌, ◌<◌, ◌↔◌, Bool, IsTrue, List, ℕ, length, slice_index};
ghost use Rattle.flow_graph.specs.Flow.{IsGraph};
ghost use Rattle.loop_regions.specs.Walks.{LoopGraph};
ghost use Rattle.run_law.specs.Counts.{HasNoStep};
ghost use Rattle.visa_io.specs.declared.records.FactLine.{FactLine as Line};
ghost use Rattle.bound_checker.specs.Lines.{addresses_of, program_of};
ghost use Rattle.bound_checker.specs.Room.{IsSized, seen_at};

use crate::room::{Room, clear};
use crate::search::{Scope, pass_on, spread};
use flow_graph::Graph;
use visa_io::{Code, Region};

fn is_found(room: &Room, k: usize) -> bool
    requires { k < length room.now.seen.items }
    ensures { result ≡ seen_at room.now k }
{
    room.seen[k]
}

// Whether the header of a region lies on a cycle inside it that has no step.
pub(crate) fn has_no_step(
    code: &Code,
    g: &Graph,
    addresses: &[u32],
    room: &mut Room,
    region: Region,
    header: usize,
) -> bool
    requires graph { IsGraph code.now g.now.entry g.now }
    requires addresses { addresses.now ≡ addresses_of g.now }
    requires room { IsSized (length g.now.units) room.old }
    requires within { header < length g.now.units }
    requires header { slice_index (addresses_of g.now) header ≡ region.header }
    ensures room { IsSized (length g.now.units) room.new }
    ensures is { (lines : List Line) (loops : LoopGraph) (mask : ℕ → ℕ → Bool) → IsTrue result ↔ HasNoStep (program_of code.now g.now lines loops mask) region }
{
    clear(room);
    pass_on(code, g, addresses, room, Scope::Quiet(region), header);
    spread(code, g, addresses, room, Scope::Quiet(region));
    is_found(room, header)
}
