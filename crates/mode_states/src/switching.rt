// The time of a switch.
ghost use Rattle.std.specs.Prelude.{◌≡◌, ◌≤◌, ◌<◌, ◌*◌, ◌^◌};
ghost use Rattle.checkpoint_plan.specs.Plan.{handover_of, lines_of, switch_of};

use visa_io::{Machine, Shape};

fn lines(shape: Option<Shape>) -> u64
    ensures { result ≡ lines_of shape }
{
    match shape {
        None => 0,
        Some(shape) => u64::from(shape.sets) * u64::from(shape.ways),
    }
}

// The cycles that are spent at the recovery point before the simple pipeline starts: 34 registers, and each line of
// the caches.
fn handover(m: &Machine) -> u64
    requires { handover_of m.now ≤ 10 ^ 12 }
    ensures { result ≡ handover_of m.now }
{
    34 + lines(m.icache) + lines(m.dcache)
}

/// The time of a switch, ps, with accesses in flight for so many cycles of the period `pa`, to the period `pb`.
pub fn switch_time(m: &Machine, flight: u64, pa: u64, pb: u64) -> u64
    requires small { switch_of m.now flight pa pb ≤ 10 ^ 12 }
    requires pb { 0 < pb }
    ensures { result ≡ switch_of m.now flight pa pb }
{
    flight * pa + m.settle_ps + handover(m) * pb
}
