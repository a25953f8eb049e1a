// A job in fast mode, until it ends or a watchdog runs out.
ghost use Rattle.std.specs.Prelude.{◌≡◌, ◌≤◌, ◌<◌, length, vec_capacity};
ghost use Rattle.mode_states.specs.Fits.{HoldsCounts};
ghost use Rattle.ooo_clock.specs.Clock.{Predicts};
ghost use Rattle.mode_states.specs.Loop.{AreWatchdogs, IsRunning, Stops, course_from};

use crate::watch::Watch;
use mips_ref::{State, Step};
use ooo_clock::{CycleEnd, Fast};
use predictors::Predictor;

/// Runs a job in fast mode cycle by cycle. The answer is what ended it; it is none where the cycles have come to the
/// watchdog of the first sub-task that hasn't ended.
pub fn run_to_stop<P: Predictor>(
    cuts: &[u32],
    watchdogs: &[u64],
    state: &mut State,
    fast: &mut Fast,
    watch: &mut Watch,
    p: &mut P,
) -> Option<Step>
    requires watchdogs { AreWatchdogs (length cuts.now) watchdogs.now }
    requires running { let predicts : Predicts = record { guess = P.guess_of; learnt = P.learnt_of } in
        let held = P.data_of p.old in
        let course = course_from predicts fast.old state.old.mips held cuts.now watchdogs.now in
        IsRunning course state.old state.old fast.old watch.old held }
    ensures stops { let predicts : Predicts = record { guess = P.guess_of; learnt = P.learnt_of } in
        let course = course_from predicts fast.old state.old.mips (P.data_of p.old) cuts.now watchdogs.now in
        Stops course state.old state.new fast.new watch.new (P.data_of p.new) result }
    ensures machine { fast.new.machine ≡ fast.old.machine }
    ensures counts { HoldsCounts (length cuts.now) (length watch.new.counts.items) (vec_capacity watch.new.counts) }
{
    while fast.cycles() < watchdogs[watch.sub()] {
        let end = fast.cycle(state, p);
        let cycle = fast.cycles();
        watch.pass_all(cuts, cycle, fast.commits());
        if let CycleEnd::Ended(step) = end {
            watch.end_sub(cycle);
            return Some(step);
        }
    }
    None
}
