// The facts so far, by their addresses and registers.
ghost use Rattle.std.specs.Prelude.{◌≡◌, [], true, not, OnOk};
ghost use Rattle.std.specs.Ordering.{nat_cmp};
ghost use Rattle.std.specs.BTreeSet as tree;
ghost use Rattle.task_text.specs.declared.task.Task.{Task as TaskValue};
ghost use Rattle.task_text.specs.SeenFacts.{fact_key as fact_key_lem, AreKeysOf};
ghost use Rattle.task_text.specs.Table.{in_limits};
ghost use Rattle.task_text.specs.Texts.{add as add_lem};

use crate::row::Row;
use std::alloc::{AllocError, Global};
use std::collections::BTreeSet;
use visa_io::FactLine;

// An address and a register as one number.
fn fact_key(f: FactLine) -> u64
    ensures { result ≡ fact_key_lem f }
{
    u64::from(f.at) * 256 + u64::from(f.register)
}

// The keys of the facts so far.
#[derive(Drop)]
pub(crate) struct FactKeys {
    pub(crate) seen: BTreeSet<u64>,
}

// Puts a key among others.
fn insert(seen: &mut BTreeSet<u64>, key: u64) -> Result<(), AllocError>
    ensures { OnOk result (tree.Updates nat_cmp seen.old seen.new key true) }
{
    seen.insert(key)?;
    Ok(())
}

impl FactKeys {
    // Those of no fact.
    #[tactic(auto, using(crate::proofs::SeenFacts::none_seen))]
    pub(crate) fn new(alloc: Global) -> FactKeys
        ensures { AreKeysOf result [] }
    {
        FactKeys {
            seen: BTreeSet::new(alloc),
        }
    }

    // Whether no earlier fact is of the same address and register.
    pub(crate) fn lacks(&self, f: FactLine) -> bool
        ensures { result ≡ not (tree.contains nat_cmp self.now.seen (fact_key_lem f)) }
    {
        !self.seen.contains(&fact_key(f))
    }

    // Takes the fact of a row that is one.
    pub(crate) fn note(&mut self, row: &Row) -> Result<(), AllocError>
        requires { in_limits row.now ≡ true }
        ensures { (t : TaskValue) → AreKeysOf self.old t.facts → OnOk result (AreKeysOf self.new (add_lem row.now t).facts) }
    {
        match row {
            Row::Fact(f) => insert(&mut self.seen, fact_key(*f)),
            _ => Ok(()),
        }
    }
}
