// The fetches of a cycle.
ghost use Rattle.std.specs.Prelude.{◌≡◌, ◌≤◌, ◌<◌, ◌+◌, ◌++◌, ◌∷◌, [], ◌^◌, ◌&&◌, nat_lt, ℕ, List, Some, true, false, length, is_some};
ghost use Rattle.std.specs.VecDeque.{deque_capacity};
ghost use Rattle.mips_isa.specs.Fits.{FieldsFit};
ghost use Rattle.mips_isa.specs.Kinds as kinds;
ghost use Rattle.mips_ref.specs.Memory.{code_word_at};
ghost use Rattle.cache_lru.specs.Contents.{shape_of};
ghost use Rattle.core_window.specs.Beside.{Stands};
ghost use Rattle.core_window.specs.Core.{paired};
ghost use Rattle.core_window.specs.Events.{attempt, happens, is_open};
ghost use Rattle.core_window.specs.declared.records.Event.TheVariants.{Fetch};
ghost use Rattle.ooo_clock.specs.Clock.{Clock};
ghost use Rattle.ooo_clock.specs.Cycle.{repeat};
ghost use Rattle.ooo_clock.specs.Moves as moves;
ghost use Rattle.ooo_clock.specs.Moves.{fetch_by, fetch_move};
ghost use Rattle.ooo_clock.specs.Shows.{AreSound, Made, Shows, Stays, speeds_of};

use crate::clock::{Parts, Times};
use core_window::Event;
use mips_isa::{Instr, Kind, branch_target, decode, jump_target, kind};
use mips_ref::State;
use predictors::Predictor;
use std::collections::VecDeque;

fn is_call(kind: Kind) -> bool
    ensures { result ≡ moves.is_call kind }
{
    matches!(kind, Kind::Call)
}

// Whether an instruction of this kind decides what follows its delay slot.
fn is_control(kind: Kind) -> bool
    ensures { result ≡ kinds.is_control kind }
{
    match kind {
        Kind::Branch | Kind::Jump | Kind::Call | Kind::Return | Kind::Indirect => true,
        Kind::Plain | Kind::Mul | Kind::Div | Kind::Load | Kind::Store | Kind::Stop => false,
    }
}

// Where a jump or call goes that has an address of its own.
fn own_address(i: Instr, pc: u32) -> Option<u32>
    requires { FieldsFit i }
    ensures { result ≡ moves.own_address i pc }
{
    match i {
        Instr::Jump { target, .. } => Some(jump_target(pc, target)),
        Instr::Branch1 { off, .. } => {
            if is_call(kind(i)) {
                Some(branch_target(pc, off))
            } else {
                None
            }
        }
        _ => None,
    }
}

fn guess_by<P: Predictor>(p: &P, pc: u32, npc: u32, i: Instr) -> u32
    requires { FieldsFit i }
    ensures { result ≡ moves.guess_instr (record { guess = P.guess_of; learnt = P.learnt_of })
        (P.data_of p.now) pc npc (Some i) }
{
    match own_address(i, pc) {
        Some(target) => target,
        None => {
            let control = is_control(kind(i));
            if control {
                p.guess(pc, npc, i)
            } else {
                npc.wrapping_add(4)
            }
        }
    }
}

// The assumed address of the instruction after the next one.
fn guess<P: Predictor>(p: &P, pc: u32, npc: u32, word: u32) -> u32
    ensures { result ≡ moves.guess_word (record { guess = P.guess_of; learnt = P.learnt_of })
        (P.data_of p.now) pc npc (Some word) }
{
    match decode(word) {
        None => npc.wrapping_add(4),
        Some(i) => guess_by(p, pc, npc, i),
    }
}

fn is_there(arrived: Option<u32>, at: u32) -> bool
    ensures { result ≡ moves.is_there arrived at }
{
    match arrived {
        None => false,
        Some(a) => a == at,
    }
}

fn add(times: &mut VecDeque<Times>, t: Times)
    requires { length times.old.items < deque_capacity times.old }
    ensures items { times.new.items ≡ times.old.items ++ t ∷ [] }
    ensures capacity { deque_capacity times.new ≡ deque_capacity times.old }
{
    times.push_back_reserved(t);
}

impl Parts {
    // Whether the window takes another instruction.
    fn has_room(&self) -> bool
        requires { self.now.window.rob ≡ self.now.pace.rob }
        ensures { result ≡ (is_open self.now.window.ending && nat_lt
            (length self.now.window.entries) self.now.window.rob) }
    {
        self.window.ending().is_none() && self.window.len() < self.pace.rob as usize
    }

    // The instruction at the fetch pair enters, fetched in this cycle.
    fn enter(&mut self, state: &mut State, guess: u32)
        requires stands { Stands self.old.window state.old.mips }
        requires room { length self.old.times.items < deque_capacity self.old.times }
        ensures parts { self.new ≡ record self.old { window = self.new.window; times = self.new.times } }
        ensures window { self.new.window ≡ (happens (paired self.old.window state.old.mips) (Fetch guess)).core }
        ensures state { state.new.mips ≡ (happens (paired self.old.window state.old.mips) (Fetch guess)).state }
        ensures stands { Stands self.new.window state.new.mips }
        ensures times { self.new.times.items ≡ self.old.times.items ++ record { fetched = self.old.cycle; ends = 0 }
            ∷ [] }
        ensures capacity { deque_capacity self.new.times ≡ deque_capacity self.old.times }
        ensures computed { state.new.computed ≡ state.old.computed }
    {
        let _ = self.window.apply(state, Event::Fetch { guess });
        let fetched = self.cycle;
        add(&mut self.times, Times { fetched, ends: 0 });
    }

    // A miss ends the fetches of this cycle.
    fn miss(&mut self)
        requires cycle { self.old.cycle ≤ 10 ^ 18 }
        ensures { self.new ≡ record self.old { fetch_free = self.old.cycle + self.old.pace.miss } }
    {
        self.fetch_free = self.cycle + u64::from(self.pace.miss);
    }

    // Fetches by the cache what the window takes.
    fn fetch_cached(&mut self, state: &mut State, pc: u32, guess: u32)
        requires sound { AreSound self.old state.old.mips }
        requires enabled { is_some (attempt self.old.window state.old.mips (Fetch guess)) ≡ true }
        requires pc { pc ≡ self.old.window.fetch_pc }
        ensures shows { (numbers : List ℕ) (q : Clock) → Shows self.old state.old.mips numbers q
            → Shows self.new state.new.mips numbers
            (fetch_by (speeds_of self.old) q guess (happens (paired self.old.window state.old.mips)
            (Fetch guess)).core true).clock }
        ensures sound { AreSound self.new state.new.mips }
        ensures stays { Stays self.old self.new }
        ensures computed { state.new.computed ≡ state.old.computed }
    {
        let hit = self.icache.access(pc);
        if hit {
            self.enter(state, guess);
        } else {
            self.miss();
        }
    }

    // Fetches without a cache what the window takes: an address arrives by a miss, and is fetched once.
    fn fetch_uncached(&mut self, state: &mut State, pc: u32, guess: u32)
        requires sound { AreSound self.old state.old.mips }
        requires enabled { is_some (attempt self.old.window state.old.mips (Fetch guess)) ≡ true }
        requires pc { pc ≡ self.old.window.fetch_pc }
        ensures shows { (numbers : List ℕ) (q : Clock) → Shows self.old state.old.mips numbers q
            → Shows self.new state.new.mips numbers
            (fetch_by (speeds_of self.old) q guess (happens (paired self.old.window state.old.mips)
            (Fetch guess)).core false).clock }
        ensures sound { AreSound self.new state.new.mips }
        ensures stays { Stays self.old self.new }
        ensures computed { state.new.computed ≡ state.old.computed }
    {
        let there = is_there(self.arrived, pc);
        if there {
            self.arrived = None;
            self.enter(state, guess);
        } else {
            self.arrived = Some(pc);
            self.miss();
        }
    }

    // Fetches what the window takes.
    fn fetch_at(&mut self, state: &mut State, pc: u32, guess: u32)
        requires sound { AreSound self.old state.old.mips }
        requires enabled { is_some (attempt self.old.window state.old.mips (Fetch guess)) ≡ true }
        requires pc { pc ≡ self.old.window.fetch_pc }
        ensures shows { (numbers : List ℕ) (q : Clock) → Shows self.old state.old.mips numbers q
            → Shows self.new state.new.mips numbers
            (fetch_by (speeds_of self.old) q guess (happens (paired self.old.window state.old.mips)
            (Fetch guess)).core (is_some (shape_of self.old.icache))).clock }
        ensures sound { AreSound self.new state.new.mips }
        ensures stays { Stays self.old self.new }
        ensures computed { state.new.computed ≡ state.old.computed }
    {
        if self.pace.has_icache {
            self.fetch_cached(state, pc, guess);
        } else {
            self.fetch_uncached(state, pc, guess);
        }
    }

    // Fetches the instruction at the fetch pair, where that is due.
    pub fn fetch_once<P: Predictor>(&mut self, state: &mut State, p: &P) -> bool
        requires { AreSound self.old state.old.mips }
        ensures made { (q : Clock) → Shows self.old state.old.mips (P.data_of p.now) q
            → Made (fetch_move (speeds_of self.old) (record { guess = P.guess_of; learnt = P.learnt_of }) q) result
            self.new state.new.mips (P.data_of p.now) q }
        ensures sound { AreSound self.new state.new.mips }
        ensures stays { Stays self.old self.new }
        ensures computed { state.new.computed ≡ state.old.computed }
    {
        if self.fetch_free > self.cycle {
            return false;
        }
        if !self.has_room() {
            return false;
        }
        let (pc, npc) = self.window.fetch_pair();
        match state.memory().code_at(pc) {
            None => false,
            Some(word) => {
                let guess = guess(p, pc, npc, word);
                self.fetch_at(state, pc, guess);
                true
            }
        }
    }

    // The fetches of a cycle.
    pub fn fetches<P: Predictor>(&mut self, state: &mut State, p: &P)
        requires { AreSound self.old state.old.mips }
        ensures shows { (q : Clock) → Shows self.old state.old.mips (P.data_of p.now) q
            → Shows self.new state.new.mips (P.data_of p.now)
            (repeat self.old.pace.width (fetch_move (speeds_of self.old)
            (record { guess = P.guess_of; learnt = P.learnt_of })) q).clock }
        ensures sound { AreSound self.new state.new.mips }
        ensures stays { Stays self.old self.new }
        ensures computed { state.new.computed ≡ state.old.computed }
    {
        for _fetch in 0..self.pace.width {
            if !self.fetch_once(state, p) {
                return;
            }
        }
    }
}
