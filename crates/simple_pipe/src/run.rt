// The run of a job in simple mode.
ghost use Rattle.std.specs.Prelude.{◌≡◌, ◌≢◌, ◌≤◌, ◌^◌, [], List, Option};
ghost use Rattle.mips_ref.specs.Mips.{exit_address};
ghost use Rattle.mips_ref.specs.Ran.{ran_at};
ghost use Rattle.mips_ref.specs.declared.records.Ran.{Ran as Item};
ghost use Rattle.mips_ref.specs.declared.records.Step.TheVariants.{Went};
ghost use Rattle.visa_io.specs.declared.records.Shape.{Shape as Form};
ghost use Rattle.simple_pipe.specs.Parts.{AreAfter, IsEarly, ran_after};
ghost use Rattle.simple_pipe.specs.Pipe.{IsSteady};
ghost use Rattle.simple_pipe.specs.Run.{HasStepped, StopsAs};
ghost use Rattle.simple_pipe.specs.Simple.{caches_of};
ghost use Rattle.cache_lru.specs.Contents.{shape_of};

use crate::pace::Pace;
use crate::parts::Parts;
use crate::stop::PipeStop;
use mips_ref::{Ran, State, Step};

// The address at which a job exits.
const EXIT: u32 = 0xffff_fff0;

// What a step executed goes through the pipeline. At its exit a job executes nothing.
fn enter(parts: &mut Parts, pace: Pace, ran: Ran, step: Step)
    requires { IsEarly parts.old.stages }
    ensures { (i d : Option Form) (rs : List Item) → AreAfter pace i d parts.old rs → AreAfter pace i d parts.new (ran_after step ran rs) }
{
    match step {
        Step::Went => parts.enter(pace, ran),
        Step::Trap(_, _) => parts.enter(pace, ran),
        Step::Exit => {}
    }
}

// Executes an instruction.
fn execute(parts: &mut Parts, pace: Pace, state: &mut State) -> Step
    requires { IsEarly parts.old.stages }
    ensures stepped { HasStepped state.old result state.new }
    ensures exit { state.old.mips.pc ≡ exit_address → result ≢ Went }
    ensures after { (i d : Option Form) (rs : List Item) → AreAfter pace i d parts.old rs
        → AreAfter pace i d parts.new (ran_after result (ran_at state.old.mips) rs) }
{
    // read for the proof: only so is it known here what every state keeps of its memory
    let _ = state.memory();
    let (step, ran) = state.trace();
    enter(parts, pace, ran, step);
    step
}

/// Runs a job until it ends, or has made so many steps and isn't at its exit address.
pub fn run(parts: &mut Parts, pace: Pace, state: &mut State, limit: u64) -> PipeStop
    requires empty { AreAfter pace (shape_of parts.old.icache) (shape_of parts.old.dcache) parts.old [] }
    requires steady { IsSteady pace }
    requires limit { limit ≤ 10 ^ 12 }
    ensures stop { StopsAs pace (caches_of (shape_of parts.old.icache) (shape_of parts.old.dcache)) state.old limit result state.new }
    ensures icache { shape_of parts.new.icache ≡ shape_of parts.old.icache }
    ensures dcache { shape_of parts.new.dcache ≡ shape_of parts.old.dcache }
{
    for _made in 0..limit {
        let step = execute(parts, pace, state);
        match step {
            Step::Went => {}
            _ => {
                let cycles = parts.stages.left;
                return PipeStop::Ended { cycles, step };
            }
        }
    }
    if state.pc() != EXIT {
        return PipeStop::Limit;
    }
    let step = execute(parts, pace, state);
    let cycles = parts.stages.left;
    PipeStop::Ended { cycles, step }
}
