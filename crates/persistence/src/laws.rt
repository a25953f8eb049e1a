//! The law of fetches: over lists of accesses, and along walks.
ghost use Rattle.std.specs.Prelude.{◌≡◌, ◌<◌, ◌≤◌, ◌+◌, ◌++◌, ℕ, List, Option, Some};
ghost use Rattle.std.specs.List.{Contains};
ghost use Rattle.visa_io.specs.declared.records.Shape.{Shape};
ghost use Rattle.flow_graph.specs.declared.parts.Edge.{Edge};
ghost use Rattle.flow_graph.specs.Flow.{Flow};
ghost use Rattle.loop_regions.specs.Walks.{LoopGraph, IsWalk, alone};
ghost use Rattle.loop_regions.specs.Places.{Place, places, ats};
ghost use Rattle.loop_regions.specs.Costs.{charges, late};
ghost use Rattle.persistence.specs.Charges.{Charge, IsCharge, charged_by, is_covered};
ghost use Rattle.persistence.specs.Fetches.{Charging, AllFollow, AllInside, charges_at, covers, late_at, misses, newest_hits, persistent_count};
ghost use Rattle.persistence.specs.Scopes.{AllLeadInto, FollowsBlocks, HasWays};

/// Fetches of which each is charged, or of a persistent line of the scope, or of the line of the fetch before it: whatever was
/// fetched before, the misses are at most the charged fetches, one for each persistent line, and one where the first fetch is
/// neither charged nor of a persistent line.
pub fn fetches_are_charged()
    ensures { (c : Charging) (part older : List ℕ) → 0 < c.shape.ways → AllFollow c part → AllInside c part
        → misses (newest_hits (Some c.shape)) part older ≤ charges_at c.charged part + persistent_count c + late_at (covers c) part }
{}

/// Along any part of a walk inside a scope, from any contents of the cache, the misses are at most the charged fetches, one for
/// each persistent line, and one where the first fetch of the part is neither charged nor of a persistent line.
pub fn walks_are_charged()
    ensures { (g : Flow) (scope : List ℕ) (shape : Option Shape) (charge : Charge) (edges : LoopGraph)
        → IsCharge g scope shape charge → HasWays shape → FollowsBlocks g edges → (first : ℕ) → Contains scope first
        → (by : Option Edge) (es : List Edge) → IsWalk edges (alone first) es → AllLeadInto scope es
        → (later part skipped : List Place) → places edges by first es ≡ later ++ (part ++ skipped) → (older : List ℕ)
        → misses (newest_hits shape) (ats part) older
        ≤ charges (charged_by charge) part + charge.persistent + late (is_covered g scope shape) part }
{}
