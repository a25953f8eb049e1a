//! Laws on walks over a graph with loop regions.
ghost use Rattle.flow_graph.specs.declared.parts.Edge.{Edge};
ghost use Rattle.loop_regions.specs.Costs.{Prices, entering, spent, walk_cost, young};
ghost use Rattle.flow_graph.specs.Flow.{Flow, IsGraph};
ghost use Rattle.loop_regions.specs.Nested.{IsNest, IsWhole, Numbered};
ghost use Rattle.loop_regions.specs.Places.{Place, places};
ghost use Rattle.loop_regions.specs.Turns.{HasRegion, IsInnerWay};
ghost use Rattle.loop_regions.specs.Walks.{Comes, LoopGraph, IsLegal, IsWalk, alone, follow, open_from};
ghost use Rattle.visa_io.specs.declared.records.Code.{Code};
ghost use Rattle.std.specs.List.{Contains};
ghost use Rattle.std.specs.Prelude.{[], ◌++◌, ◌+◌, ◌∷◌, ◌≡◌, ◌≤◌, Bool, List, Option, ℕ};

/// A list of edges is a legal walk exactly where its older part is one and its newer part goes on from where that ends.
pub fn walks_split()
    ensures older { (g : LoopGraph) (s : List (List ℕ)) (newer old : List Edge) → IsWalk g s (newer ++ old) → IsWalk g s old }
    ensures newer { (g : LoopGraph) (s : List (List ℕ)) (new old : List Edge) → IsWalk g s (new ++ old) → IsWalk g (open_from s old) new }
    ensures whole { (g : LoopGraph) (s : List (List ℕ)) (newer old : List Edge) → IsWalk g s old → IsWalk g (open_from s old) newer → IsWalk g s (newer ++ old) }
{}

/// A walk that goes on from a unit is a walk that begins there: a later start meets no header more often.
pub fn walks_begin_later()
    ensures { (g : LoopGraph) (u : ℕ) (older : List ℕ) (es : List Edge) → IsWalk g ((u ∷ older) ∷ []) es → IsWalk g (alone u) es }
{}

/// The instructions of a walk cost what its units and edges cost, and a part of them costs no more than the whole: neither a
/// suffix in time, nor one that stops early.
pub fn parts_cost_no_more()
    ensures whole { (p : Prices) (charged : ℕ → Bool) (g : LoopGraph) (by : Option Edge) (u : ℕ) (es : List Edge) → spent p charged (places g by u es) ≡ entering p by + walk_cost p charged g u es }
    ensures begins { (p : Prices) (charged : ℕ → Bool) (g : LoopGraph) (by : Option Edge) (u : ℕ) (es : List Edge) → young p charged (places g by u es) ≡ walk_cost p charged g u es }
    ensures newer { (p : Prices) (charged : ℕ → Bool) (xs ys : List Place) → young p charged xs ≤ young p charged (xs ++ ys) }
    ensures older { (p : Prices) (charged : ℕ → Bool) (xs ys : List Place) → young p charged ys ≤ young p charged (xs ++ ys) }
{}

/// Each cycle inside a function lies in a region whose header is one of its units.
pub fn cycles_have_regions()
    ensures { (g : Flow) (n : Numbered) → IsNest g n → (u last : ℕ) (before : List ℕ) → IsInnerWay g u (last ∷ before) u → HasRegion n.regions (last ∷ before) }
{}

/// The graph of code keeps what `check_regions` asks of it.
pub fn graphs_of_code_are_whole()
    ensures { (code : Code) (entry : ℕ) (g : Flow) → IsGraph code entry g → IsWhole g }
{}
