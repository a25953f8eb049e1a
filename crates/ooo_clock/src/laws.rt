// What holds of the clock, over the definitions alone. Each function has an empty body: its clauses are the law.
ghost use Rattle.std.specs.Prelude.{◌≡◌, ◌≤◌, ℕ, None, max};
ghost use Rattle.mips_ref.specs.Job.{after};
ghost use Rattle.mips_ref.specs.Mips.{Mips};
ghost use Rattle.core_window.specs.Beside.{Stands};
ghost use Rattle.core_window.specs.Events.{all_happen};
ghost use Rattle.ooo_clock.specs.Along.{AllWent, Cycles};
ghost use Rattle.ooo_clock.specs.Clock.{Clock, Predicts, Speeds, in_flight_of, pair_of};
ghost use Rattle.ooo_clock.specs.Cycle.{cycle_of, cycled_of, cycles_of};
ghost use Rattle.ooo_clock.specs.Within.{IsWithin};

/// A cycle performs its events: they leave the window and the state of the clock that it leaves. So a window that
/// stands beside its state does so after the cycle.
pub fn events_of_a_cycle()
    ensures performs { (s : Speeds) (p : Predicts) (q : Clock)
        → all_happen (pair_of q) (cycle_of s p q).events ≡ pair_of (cycle_of s p q).clock }
    ensures stands { (s : Speeds) (p : Predicts) (q : Clock) → Stands q.core q.state
        → Stands (cycle_of s p q).clock.core (cycle_of s p q).clock.state }
{}

/// The commits of a cycle are steps of the reference: where the clock stands k steps after a state, all of which
/// went, the cycle's pcs are those after the next steps, each of which goes, and the clock then stands at the last of
/// them; what has ended the window is the answer of the reference's step there, and so its end.
pub fn cycle_along()
    ensures { (s : Speeds) (p : Predicts) (q : Clock) (x : Mips) (k : ℕ) → Stands q.core q.state → q.core.ending
        ≡ None → AllWent k x
        → q.state ≡ after k x → Cycles x k (cycled_of s p q) }
{}

/// After so many cycles the committed state is the reference's after some number of steps, and the window stands
/// beside it.
pub fn reference()
    ensures state { (n : ℕ) (s : Speeds) (p : Predicts) (q : Clock) → (k : ℕ) × ((cycles_of n s p q).state
        ≡ after k q.state) }
    ensures stands { (n : ℕ) (s : Speeds) (p : Predicts) (q : Clock) → Stands q.core q.state
        → Stands (cycles_of n s p q).core (cycles_of n s p q).state }
{}

/// What is still in flight after so many cycles takes no longer than a miss or a store.
pub fn in_flight()
    ensures within { (s : Speeds) (p : Predicts) (q : Clock) → IsWithin s q → IsWithin s (cycle_of s p q).clock }
    ensures least { (s : Speeds) (q : Clock) → IsWithin s q → in_flight_of q ≤ max s.miss s.store }
{}
