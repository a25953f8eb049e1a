// The times of a switch and of what remains.
ghost use Rattle.checkpoint_plan.specs.Limits.{AreBounds, IsPeriod};
ghost use Rattle.checkpoint_plan.specs.Plan.{lines_of, overhead_of, rem_of, wait_of};
ghost use Rattle.std.specs.Int.{div_ceil};
ghost use Rattle.std.specs.Prelude.{◌≡◌, ◌≤◌, ◌<◌, ◌-◌, ◌^◌, drop, length, sum};
ghost use Rattle.task_text.specs.Limits.{IsMachine};

use visa_io::{Machine, Shape};

// The extra cycles of an access that takes this time.
fn cycles_of(time_ps: u64, period_ps: u64) -> u128
    requires period { IsPeriod period_ps }
    requires time { time_ps ≤ 10 ^ 7 }
    ensures value { result ≡ div_ceil time_ps period_ps }
    ensures small { result ≤ 10 ^ 7 }
{
    u128::from(time_ps.div_ceil(period_ps))
}

// The lines of a cache.
fn lines(shape: Option<Shape>) -> u128
    ensures value { result ≡ lines_of shape }
    ensures small { result ≤ 2 ^ 64 }
{
    match shape {
        None => 0,
        Some(shape) => u128::from(shape.sets) * u128::from(shape.ways),
    }
}

/// The time, ps, that a switch from the point of period `pa` to that of period `pb` takes at most, a first fetch in mid-line counted:
/// `max(M_a, W_a) * pa + (34 + lines + M_b) * pb + settle_ps`, where M and W are the cycles of a missed access and of a store, and `lines`
/// is the number of lines in both caches. This project's own.
pub fn overhead(m: &Machine, pa: u64, pb: u64) -> u128
    requires machine { IsMachine m.now }
    requires pa { IsPeriod pa }
    requires pb { IsPeriod pb }
    ensures value { result ≡ overhead_of m.now pa pb }
    ensures small { result < 2 ^ 100 }
{
    let miss = cycles_of(m.mem_ps, pa);
    let store = cycles_of(m.store_ps, pa);
    let wait = miss.max(store);
    let handover = 34 + lines(m.icache) + lines(m.dcache);
    let first_fetch = cycles_of(m.mem_ps, pb);
    wait * u128::from(pa) + (handover + first_fetch) * u128::from(pb) + u128::from(m.settle_ps)
}

// The sum of bounds.
pub(crate) fn sum_of(bounds: &[u64]) -> u128
    requires { AreBounds bounds.now }
    ensures value { result ≡ sum bounds.now }
    ensures small { result < 2 ^ 70 }
{
    let mut sum: u128 = 0;
    for bound in bounds {
        sum += u128::from(*bound);
    }
    sum
}

// The time, ps, that sub-tasks with these bounds need.
pub(crate) fn left_over(bounds: &[u64], pb: u64) -> u128
    requires bounds { AreBounds bounds.now }
    requires pb { IsPeriod pb }
    ensures value { result ≡ rem_of bounds.now pb }
    ensures small { result < 2 ^ 100 }
{
    (5 + sum_of(bounds)) * u128::from(pb)
}

/// The time, ps, that sub-task number `i` (from 1) and those after it need in simple mode at the period `pb`: five cycles and their bounds,
/// in cycles. This project's own.
pub fn rem(bounds: &[u64], i: usize, pb: u64) -> u128
    requires bounds { AreBounds bounds.now }
    requires least { 1 ≤ i }
    requires most { i ≤ length bounds.now }
    requires pb { IsPeriod pb }
    ensures { result ≡ rem_of (drop (i - 1) bounds.now) pb }
{
    left_over(&bounds[i - 1..], pb)
}
