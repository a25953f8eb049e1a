//! Laws on cuts.
ghost use Rattle.flow_graph.specs.Flow.{Flow, IsGraph};
ghost use Rattle.flow_graph.specs.declared.parts.Edge.{Edge};
ghost use Rattle.loop_regions.specs.Nested.{IsNest, Numbered};
ghost use Rattle.loop_regions.specs.Walks.{IsFirst, IsWalk, LoopGraph, Meets, alone};
ghost use Rattle.std.specs.Prelude.{◌≡◌, ◌∷◌, ℕ, List, suc};
ghost use Rattle.subtask_cut.specs.Asked.{HasFunctions};
ghost use Rattle.subtask_cut.specs.Cuts.{AreSubTasks, IsFirst as IsFirstFault, SubTasks};
ghost use Rattle.subtask_cut.specs.Functions.{AreFunctions, AreOver};
ghost use Rattle.subtask_cut.specs.Ordered.{ArePassed};
ghost use Rattle.subtask_cut.specs.Ways.{units_of};
ghost use Rattle.subtask_cut.specs.declared.fault.CutFault.{CutFault as Fault};
ghost use Rattle.visa_io.specs.declared.records.Code.{Code};
ghost use Rattle.visa_io.specs.declared.records.Region.{Region};

/// Every walk from the entry comes to a cut only after the cut before it.
pub fn walks_meet_cuts_in_order()
    ensures { (g : LoopGraph) (units : ℕ → List ℕ) (firsts : List ℕ) (main : ℕ) → AreFunctions g.edges units main
        → AreOver g.edges → ArePassed g.edges units firsts main → (e : Edge) (es : List Edge)
        → IsWalk g (alone main) (e ∷ es) → (j u v : ℕ) → IsFirst firsts (suc (suc j)) u → e.to ≡ u → IsFirst firsts (suc j) v → Meets v es }
{}

/// Every walk from the entry of a graph with a nest comes to a cut without a fault at most once.
pub fn walks_meet_cuts_once()
    ensures { (g : Flow) (n : Numbered) (cuts : List ℕ) (s : SubTasks) → IsNest g n → AreSubTasks g n.regions cuts s
        → AreFunctions g.edges (units_of g) g.entry → AreOver g.edges → (l : LoopGraph) → l.edges ≡ g.edges
        → (e : Edge) (es : List Edge) → IsWalk l (alone g.entry) (e ∷ es) → (k u : ℕ) → IsFirst s.firsts (suc k) u → e.to ≡ u → Meets u es → ⊥ }
{}

/// Cuts without a fault keep the rules by which walks meet them in order.
pub fn sub_tasks_are_passed()
    ensures { (g : Flow) (rs : List Region) (cuts : List ℕ) (s : SubTasks) → AreSubTasks g rs cuts s
        → ArePassed g.edges (units_of g) s.firsts g.entry }
{}

/// One answer alone comes of a graph, its regions and the cuts: want of memory aside.
pub fn one_answer()
    ensures sub_tasks { (g : Flow) (rs : List Region) (cuts : List ℕ) (s t : SubTasks) → AreSubTasks g rs cuts s
        → AreSubTasks g rs cuts t → s ≡ t }
    ensures faults { (g : Flow) (rs : List Region) (cuts : List ℕ) (one other : Fault) → IsFirstFault g rs cuts one
        → IsFirstFault g rs cuts other → one ≡ other }
    ensures apart { (g : Flow) (rs : List Region) (cuts : List ℕ) (s : SubTasks) (fault : Fault)
        → AreSubTasks g rs cuts s → IsFirstFault g rs cuts fault → ⊥ }
{}

/// The graph of code keeps what `check_cuts` asks of its functions.
pub fn graphs_of_code_have_functions()
    ensures { (code : Code) (entry : ℕ) (g : Flow) → IsGraph code entry g → HasFunctions g }
{}
