//! The laws, over the definitions alone. Each function has an empty body: its clauses are the law.
ghost use Rattle.std.specs.Prelude.{◌≡◌, ℕ, Option, true};
ghost use Rattle.std.specs.List.{Contains};
ghost use Rattle.cache_lru.specs.Recency.{is_among};
ghost use Rattle.covered_fetches.specs.Charged.{ChargesSub};
ghost use Rattle.flow_graph.specs.Flow.{Flow, IsGraph};
ghost use Rattle.persistence.specs.Charges.{Charge, has_slot};
ghost use Rattle.persistence.specs.Fetches.{newest_hits};
ghost use Rattle.persistence.specs.Scopes.{FollowsBlocks, HasWays};
ghost use Rattle.remaining_wcet.specs.SubTasks.{AreCovered, SubTasks};
ghost use Rattle.run_law.specs.Program.{IsGraphOf, Program};
ghost use Rattle.visa_io.specs.declared.records.Shape.{Shape};

/// Along any part of a walk of a sub-task, whatever was fetched before, the misses are at most the charged fetches of its scope, one
/// for each persistent line, and one where the part begins with a fetch that is neither charged nor of a persistent line.
pub fn fetches_are_covered()
    ensures { (t : SubTasks) (g : Flow) (shape : Option Shape) (k : ℕ) (charge : Charge) → ChargesSub t g shape k charge
        → HasWays shape → FollowsBlocks g t.flow → AreCovered t (newest_hits shape) k }
{}

/// A fetch of a sub-task's scope at the start of a block is charged or of a persistent line: so no sub-task begins with another one.
pub fn starts_are_covered()
    ensures { (t : SubTasks) (g : Flow) (shape : Option Shape) (k at : ℕ) (charge : Charge) → ChargesSub t g shape k charge
        → is_among at g.blocks ≡ true → t.covered k at ≡ true }
{}

/// The edges of the graph of code go into the starts of blocks, or on to the next address from a unit without a slot.
pub fn a_graph_follows_its_blocks()
    ensures { (p : Program) (g : Flow) → IsGraph p.code p.entry g → IsGraphOf p g → ((u : ℕ) → p.graph.is_long u ≡ has_slot g u)
        → FollowsBlocks g p.graph }
{}
