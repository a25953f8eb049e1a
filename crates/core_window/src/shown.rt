// An entry as it is shown.
ghost use Rattle.std.specs.Prelude.{◌≡◌};
ghost use Rattle.core_window.specs.Outcomes as outcomes;
ghost use Rattle.core_window.specs.Shown as meaning;

use crate::records::{Entry, EntryView, Outcome, Status, Status3};
use mips_ref::{Retired, TrapKind};

fn stage(status: Status) -> Status3
    ensures { result ≡ meaning.stage_of status }
{
    match status {
        Status::Waiting => Status3::Waiting,
        Status::Running(_) => Status3::Running,
        Status::Done(_) => Status3::Done,
    }
}

// The outcome that a status has.
fn outcome(status: Status) -> Option<Outcome>
    ensures { result ≡ outcomes.outcome_of status }
{
    match status {
        Status::Waiting => None,
        Status::Running(outcome) => Some(outcome),
        Status::Done(outcome) => Some(outcome),
    }
}

// The parts of an outcome without a trap.
fn parts(outcome: Outcome) -> Option<Retired>
    ensures { result ≡ meaning.parts_of_outcome outcome }
{
    match outcome {
        Outcome::Parts(r) => Some(r),
        Outcome::Trapped(_) => None,
    }
}

fn trap(outcome: Outcome) -> Option<TrapKind>
    ensures { result ≡ meaning.trap_of_outcome outcome }
{
    match outcome {
        Outcome::Parts(_) => None,
        Outcome::Trapped(kind) => Some(kind),
    }
}

// An entry with the parts and the trap of its outcome.
fn faced(e: Entry, parts: Option<Retired>, trap: Option<TrapKind>) -> EntryView
    ensures { result ≡ meaning.faced e parts trap }
{
    EntryView {
        pc: e.pc,
        npc: e.npc,
        guess: e.guess,
        instr: e.instr,
        status: stage(e.status),
        next: match parts {
            None => 0,
            Some(r) => r.next,
        },
        taken: match parts {
            None => false,
            Some(r) => r.taken,
        },
        at: match parts {
            None => None,
            Some(r) => r.at,
        },
        trap,
    }
}

#[tactic(auto, unfolding(crate::specs::Shown::shown_of))]
pub fn shown(e: Entry) -> EntryView
    ensures { result ≡ meaning.shown_of e }
{
    match outcome(e.status) {
        None => faced(e, None, None),
        Some(outcome) => faced(e, parts(outcome), trap(outcome)),
    }
}
