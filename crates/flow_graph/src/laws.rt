//! Laws on graphs of code.
ghost use Rattle.flow_graph.specs.Flow.{Flow, IsFlow, IsGraph, IsWithBlocks};
ghost use Rattle.flow_graph.specs.Reached.{IsStart, Reached};
ghost use Rattle.std.specs.Prelude.{◌≡◌, ◌↔◌, ◌⊎◌, Contains, List, Ok, ℕ};
ghost use Rattle.visa_io.specs.declared.records.Code.{Code};

/// A graph of code whose blocks begin at further addresses is a graph of the code. Where its blocks began at the starts alone,
/// they now begin at these, and at those of the further addresses that are units.
pub fn further_blocks()
    ensures graph { (code : Code) (entry : ℕ) (g new : Flow) (extra : List ℕ) → IsGraph code entry g → IsWithBlocks g extra new → IsGraph code entry new }
    ensures blocks { (code : Code) (entry : ℕ) (g new : Flow) (extra : List ℕ) → IsFlow code entry (Ok g) → IsWithBlocks g extra new
        → (a : ℕ) → Contains new.blocks a ↔ (IsStart code entry a ⊎ (Contains extra a × Reached code entry a)) }
{}

/// Code has one graph, but for where its blocks begin.
pub fn one_graph()
    ensures graph { (code : Code) (entry : ℕ) (g h : Flow) → IsGraph code entry g → IsGraph code entry h
        → ((a : ℕ) → Contains g.blocks a ↔ Contains h.blocks a) → g ≡ h }
    ensures answer { (code : Code) (entry : ℕ) (g h : Flow) → IsFlow code entry (Ok g) → IsFlow code entry (Ok h) → g ≡ h }
    ensures blocks { (old g h : Flow) (extra : List ℕ) → IsWithBlocks old extra g → IsWithBlocks old extra h → g ≡ h }
{}
