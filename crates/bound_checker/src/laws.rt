//! Laws on what is checked before a task runs.
ghost use Rattle.bound_checker.specs.Answer.{IsCheck};
ghost use Rattle.bound_checker.specs.Counted.{IsCountAnswer};
ghost use Rattle.bound_checker.specs.Gone.{IsFoundAt};
ghost use Rattle.bound_checker.specs.Lines.{blocks_of, program_of};
ghost use Rattle.bound_checker.specs.declared.fault.CountFault.{CountFault};
ghost use Rattle.bound_checker.specs.declared.place.Lost.{Lost};
ghost use Rattle.flow_graph.specs.Flow.{Flow};
ghost use Rattle.loop_regions.specs.Walks.{LoopGraph};
ghost use Rattle.range_facts.specs.declared.facts.Facts.{Facts};
ghost use Rattle.run_law.specs.Certificate.{AreBlocksOf};
ghost use Rattle.run_law.specs.Masks.{AreMasks};
ghost use Rattle.run_law.specs.Program.{Program};
ghost use Rattle.std.specs.Prelude.{◌≡◌, ◌↔◌, Bool, List, Option, Result, ℕ};
ghost use Rattle.visa_io.specs.declared.records.Code.{Code};
ghost use Rattle.visa_io.specs.declared.records.FactLine.{FactLine};
ghost use Rattle.visa_io.specs.declared.records.Region.{Region};

/// The blocks of a graph with fact lines are the graph's.
pub fn blocks_are_the_graphs()
    ensures { (g : Flow) (lines : List FactLine) → AreBlocksOf g (blocks_of g lines) }
{}

/// All masks that tell what functions may write give one answer of the check of facts.
pub fn masks_agree()
    ensures { (code : Code) (g : Flow) (lines : List FactLine) (loops : LoopGraph) (mask other : ℕ → ℕ → Bool) (opening : Facts) (found : Option Lost)
        → AreMasks code g.entry mask → AreMasks code g.entry other
        → IsFoundAt (program_of code g lines loops mask) (blocks_of g lines) opening found ↔ IsFoundAt (program_of code g lines loops other) (blocks_of g lines) opening found }
{}

/// The check of facts has one answer.
pub fn one_check()
    ensures { (code : Code) (g : Flow) (lines : List FactLine) (opening : Facts) (a b : Option Lost) → IsCheck code g lines opening a → IsCheck code g lines opening b → a ≡ b }
{}

/// A region's count has one answer.
pub fn one_count()
    ensures { (p : Program) (region : Region) (r : ℕ) (a b : Result (Unit {0}) CountFault) → IsCountAnswer p region r a → IsCountAnswer p region r b → a ≡ b }
{}
