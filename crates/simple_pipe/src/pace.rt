// What accesses and slow instructions take at a clock period.
ghost use Rattle.std.specs.Prelude.{◌≡◌, ◌≤◌};
ghost use Rattle.std.specs.Int.{div_ceil};
ghost use Rattle.mips_isa.specs.Kinds.{kind_of};
ghost use Rattle.mips_isa.specs.Prediction.{predicted_taken_of};
ghost use Rattle.simple_pipe.specs.Pace.{pace_of, execute_excess_of, memory_excess_of, is_load_kind, redirects_by, timed, untimed, static_cost};

use crate::Executed;
use mips_isa::{Instr, Kind, is_predicted_taken, kind, reads, writes};

/// What accesses and slow instructions take at a clock period, in cycles.
#[derive(Clone, Copy, Debug, PartialEq, Eq)]
pub struct Pace {
    /// Extra cycles of an access that misses.
    pub miss: u32,
    /// Extra cycles of a store.
    pub store: u32,
    /// Cycles of a multiplication in the execute stage.
    pub mul: u32,
    /// Cycles of a division in the execute stage.
    pub div: u32,
}

/// A time (ps) in cycles of a period (ps), rounded up.
pub fn cycles_of(time_ps: u64, period_ps: u64) -> u32
    requires time { time_ps ≤ 10000000 }
    requires period { 100 ≤ period_ps }
    ensures value { result ≡ div_ceil time_ps period_ps }
    ensures small { result ≤ 100000 }
{
    time_ps.div_ceil(period_ps) as u32
}

fn execute_excess(pace: Pace, kind: Kind) -> u32
    ensures { result ≡ execute_excess_of pace kind }
{
    match kind {
        Kind::Mul => pace.mul.saturating_sub(1),
        Kind::Div => pace.div.saturating_sub(1),
        _ => 0,
    }
}

pub fn memory_excess(pace: Pace, kind: Kind) -> u32
    ensures { result ≡ memory_excess_of pace kind }
{
    match kind {
        Kind::Load => pace.miss,
        Kind::Store => pace.store,
        _ => 0,
    }
}

pub fn is_load(kind: Kind) -> bool
    ensures { result ≡ is_load_kind kind }
{
    matches!(kind, Kind::Load)
}

// Whether an instruction redirects the fetch.
fn redirects(kind: Kind, i: Instr, taken: bool) -> bool
    ensures { result ≡ redirects_by kind (predicted_taken_of i) taken }
{
    match kind {
        Kind::Return => true,
        Kind::Branch => is_predicted_taken(i) != taken,
        _ => false,
    }
}

// An instruction of a kind that executes, `taken` or not, whose fetch and access take so many cycles beyond the first.
#[tactic(auto, unfolding(crate::specs::Pace::timed))]
pub fn timed(
    pace: Pace,
    i: Instr,
    kind: Kind,
    taken: bool,
    fetch_excess: u32,
    memory_excess: u32,
) -> Executed
    requires { kind ≡ kind_of i }
    ensures { result ≡ timed pace i taken fetch_excess memory_excess }
{
    Executed {
        fetch_excess,
        execute_excess: execute_excess(pace, kind),
        memory_excess,
        is_load: is_load(kind),
        reads: reads(i),
        writes: writes(i),
        redirects: redirects(kind, i, taken),
    }
}

// What is no instruction, as the pipeline sees it.
pub fn untimed(fetch_excess: u32) -> Executed
    ensures { result ≡ untimed fetch_excess }
{
    Executed {
        fetch_excess,
        execute_excess: 0,
        memory_excess: 0,
        is_load: false,
        reads: [None, None, None],
        writes: None,
        redirects: false,
    }
}

/// What an instruction costs at most, in cycles, where its fetch misses and a redirect comes on top.
#[tactic(auto, unfolding(crate::specs::Pace::static_cost))]
pub fn static_cost(pace: Pace, i: Instr) -> u64
    ensures { result ≡ static_cost pace i }
{
    let kind = kind(i);
    let load = if is_load(kind) { 1 } else { 0 };
    let fetch = pace.miss;
    let execute = execute_excess(pace, kind);
    let memory = memory_excess(pace, kind);
    1 + u64::from(fetch) + u64::from(execute) + u64::from(memory) + load
}
