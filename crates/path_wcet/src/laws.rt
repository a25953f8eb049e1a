//! Laws on the costs of walks.
ghost use Rattle.flow_graph.specs.declared.parts.Edge.{Edge};
ghost use Rattle.loop_regions.specs.Walks.{LoopGraph};
ghost use Rattle.loop_regions.specs.Costs.{Prices, walk_cost, young};
ghost use Rattle.loop_regions.specs.Places.{Place, places};
ghost use Rattle.mips_isa.specs.declared.instr.Instr.{Instr};
ghost use Rattle.path_wcet.specs.Static.{static_cost};
ghost use Rattle.path_wcet.specs.declared.costs.Pen.{Pen};
ghost use Rattle.flow_graph.specs.Flow.{Flow, IsGraph};
ghost use Rattle.loop_regions.specs.Nested.{IsWhole, Numbered};
ghost use Rattle.path_wcet.specs.Longest.{AreCalls, IsLongest, IsPricedExactly};
ghost use Rattle.path_wcet.specs.declared.costs.Costs.{Costs};
ghost use Rattle.visa_io.specs.declared.records.Code.{Code};
ghost use Rattle.std.specs.Prelude.{◌≡◌, ◌≤◌, ◌++◌, Bool, List, Option, ℕ};

/// The instructions of a walk cost what its units and edges cost; a part of them costs no more than the whole, neither a suffix in
/// time nor one that stops early.
pub fn a_suffix_costs_no_more()
    ensures walk { (p : Prices) (charged : ℕ → Bool) (g : LoopGraph) (by : Option Edge) (u : ℕ) (es : List Edge) → young p charged (places g by u es) ≡ walk_cost p charged g u es }
    ensures newer { (p : Prices) (charged : ℕ → Bool) (xs ys : List Place) → young p charged xs ≤ young p charged (xs ++ ys) }
    ensures older { (p : Prices) (charged : ℕ → Bool) (xs ys : List Place) → young p charged ys ≤ young p charged (xs ++ ys) }
{}

/// At a point where memory takes no more cycles, no instruction costs more.
pub fn a_slower_point_costs_no_more()
    ensures { (i : Instr) (charged : Bool) (slow fast : Pen) → slow.m ≤ fast.m → slow.w ≤ fast.w → slow.mul ≤ fast.mul → slow.div ≤ fast.div → static_cost i charged slow ≤ static_cost i charged fast }
{}

/// The graph of code keeps what `check_regions` and `longest` ask of it.
pub fn graphs_of_code_are_whole()
    ensures whole { (code : Code) (entry : ℕ) (g : Flow) → IsGraph code entry g → IsWhole g }
    ensures calls { (code : Code) (entry : ℕ) (g : Flow) → IsGraph code entry g → AreCalls g }
{}

/// For each graph of code there are prices at which each unit and edge costs just its static cost; so there is one greatest cost of
/// the walks from a unit.
pub fn one_longest()
    ensures exact { (code : Code) (entry : ℕ) (g : Flow) (costs : Costs) → IsGraph code entry g → (p : Prices) × (charged : ℕ → Bool) × (is_long : ℕ → Bool) × IsPricedExactly g costs p charged is_long }
    ensures same { (g : Flow) (n : Numbered) (costs : Costs) (from : ℕ) (to : Option ℕ) (a b : ℕ) (p : Prices) (charged is_long : ℕ → Bool) → IsPricedExactly g costs p charged is_long → IsLongest g n costs from to a → IsLongest g n costs from to b → a ≡ b }
    ensures one { (code : Code) (entry : ℕ) (g : Flow) (n : Numbered) (costs : Costs) (from : ℕ) (to : Option ℕ) (a b : ℕ) → IsGraph code entry g → IsLongest g n costs from to a → IsLongest g n costs from to b → a ≡ b }
{}
