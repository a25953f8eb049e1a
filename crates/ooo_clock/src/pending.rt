// What the older entries owe to the younger ones. It is asked before the operands of an entry are searched.
ghost use Rattle.std.specs.Prelude.{◌≡◌, ◌∷◌, ◌||◌, [], List, ℕ, true, false, is_some, slice_get, take, Some};
ghost use Rattle.std.specs.Option.{option_map};
ghost use Rattle.mips_isa.specs.Names.{reads_of};
ghost use Rattle.mips_ref.specs.Mips.{Mips};
ghost use Rattle.core_window.specs.Core.{Core};
ghost use Rattle.core_window.specs.Events.{attempt};
ghost use Rattle.core_window.specs.Operands as operands;
ghost use Rattle.core_window.specs.Shown.{shown_of};
ghost use Rattle.core_window.specs.declared.records.Entry.{Entry as Kept};
ghost use Rattle.core_window.specs.declared.records.Event.TheVariants.{Issue};
ghost use Rattle.ooo_clock.specs.Owing as owing;
ghost use Rattle.ooo_clock.specs.Owing.{Owes, marked, past_view};

use crate::commit::{has_parts, is_done, is_store};
use crate::issue::{is_load, is_waiting};
use core_window::EntryView;
use mips_isa::{Instr, reads, writes};

/// Up to some entry.
#[derive(Debug, Drop)]
pub struct Pending {
    /// Of each name whether its nearest writer isn't done, or has a trap.
    pub names: [bool; 33],
    /// Whether a store isn't done.
    pub stores: bool,
}

fn mark(names: &mut [bool], name: Option<u8>, owed: bool)
    ensures { names.new ≡ marked name owed names.old }
{
    match name {
        None => {}
        Some(n) => {
            let n = usize::from(n);
            if n < names.len() {
                names[n] = owed;
            }
        }
    }
}

fn mark_at(names: &[bool], n: usize) -> Option<bool>
    ensures { result ≡ slice_get names.now n }
{
    names.get(n).copied()
}

// The names that an instruction reads.
#[tactic(auto, using(core_window::proofs::Searched::three_places))]
fn names_read(i: Instr) -> (Option<u8>, Option<u8>, Option<u8>)
    ensures { result.0 ∷ result.1 ∷ result.2 ∷ [] ≡ reads_of i }
{
    let places = reads(i);
    (places[0], places[1], places[2])
}

// The name that an entry's instruction writes.
fn written(instr: Option<Instr>) -> Option<u8>
    ensures { result ≡ operands.written instr }
{
    match instr {
        None => None,
        Some(i) => writes(i),
    }
}

fn blocks(v: EntryView) -> bool
    ensures { result ≡ owing.blocks v }
{
    let done = is_done(v.status);
    match v.instr {
        None => false,
        Some(i) => is_store(i) && !done,
    }
}

fn either(a: bool, b: bool) -> bool
    ensures { result ≡ (a || b) }
{
    a || b
}

impl Pending {
    /// Before the oldest entry.
    pub fn none() -> Pending
        ensures { (x : Mips) → Owes result [] x }
    {
        Pending {
            names: [false; 33],
            stores: false,
        }
    }

    // Whether a name is owed.
    fn owes(&self, name: Option<u8>) -> bool
        ensures { (older : List Kept) (x : Mips) → Owes self.now older x → result ≡ true
            → operands.has_operand older x name ≡ false }
    {
        match name {
            None => false,
            Some(n) => match mark_at(&self.names, usize::from(n)) {
                None => false,
                Some(owed) => owed,
            },
        }
    }

    // Whether an instruction is owed an operand, or as a load an older store.
    fn holds(&self, i: Instr) -> bool
        ensures { (older : List Kept) (x : Mips) → Owes self.now older x → result ≡ true
            → operands.is_ready older x i ≡ false }
    {
        let (rs, rt, rd) = names_read(i);
        self.owes(rs) || self.owes(rt) || self.owes(rd) || (self.stores && is_load(i))
    }

    /// Whether an entry can't be issued past the older ones.
    pub fn delays(&self, v: EntryView) -> bool
        ensures { (c : Core) (x : Mips) (k : ℕ) → Owes self.now (take k c.entries) x
            → option_map shown_of (slice_get c.entries k) ≡ Some v
            → result ≡ true → is_some (attempt c x (Issue k)) ≡ false }
    {
        match v.instr {
            None => true,
            Some(i) => !is_waiting(v.status) || self.holds(i),
        }
    }

    /// Goes on past an entry.
    #[tactic(auto, unfolding(crate::specs::Owing::past_view))]
    pub fn pass(&mut self, v: EntryView)
        ensures { self.new ≡ past_view self.old v }
    {
        mark(&mut self.names, written(v.instr), !has_parts(v));
        self.stores = either(self.stores, blocks(v));
    }
}
