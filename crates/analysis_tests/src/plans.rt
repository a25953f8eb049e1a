//! Plans and the choice among them, worked by hand.
ghost use Rattle.std.specs.Prelude.{◌≡◌, ◌<◌, All, IfOk, length};
ghost use Rattle.frequency_pick.specs.Choice.{IsFitting};

use checkpoint_plan::{Plan, PlanFault, checkpoints};
use frequency_pick::{History, Pair, Plans, pick};
use std::alloc::{AllocError, Global};
use std::test::Fail;
use task_text::read_task;
use visa_io::List;

// What comes of a task with this deadline, ps, whose sub-tasks have the bounds 200 and 300. It has one point
// of 1 ns; a miss takes 10 ns, a store 32, the clock settles in 100, and each cache has 128 lines.
fn plan_within(alloc: Global, deadline: u32) -> Result<String, AllocError> {
    let text = format!(in alloc;
        "visa-task 1\norder big\ncore 1 8 4 16\nmemory 10000 32000 100000 0\nicache 32 4 16\ndcache 128 1 16\n\
         point 1000\ntime 1000000 {deadline}\nwords 00400000 03e00008 00000000\n\
         entry 00400000\nstack 7fff0000\ninput 00000000 0\noutput 16\n"
    )?;
    match read_task(alloc, text.as_bytes()) {
        Ok(task) => format!(in alloc; "{:?}", checkpoints(alloc, &task, &[200, 300], 0, 0)),
        Err(_) => String::from_str(alloc, "no task"),
    }
}

#[test]
fn two_sub_tasks_have_their_checkpoints(rt: HostRuntime) -> Result<(), AllocError> {
    for (deadline, want) in [
        (
            1_000_000,
            "Ok(Plan { a: 0, b: 0, period_ps: 1000, overhead_ps: 432000, rem_ps: List { items: [505000, 305000] }, \
             checkpoint_ps: List { items: [63000, 263000] }, watchdog: List { items: [63, 263] } })",
        ),
        (
            937_000,
            "Ok(Plan { a: 0, b: 0, period_ps: 1000, overhead_ps: 432000, rem_ps: List { items: [505000, 305000] }, \
             checkpoint_ps: List { items: [0, 200000] }, watchdog: List { items: [0, 200] } })",
        ),
        (936_999, "Err(Negative { short_by: 1 })"),
    ] {
        let plan = plan_within(rt.alloc(), deadline)?;
        assert_eq!(rt; plan.as_str(), want);
    }
    Ok(())
}

// A plan of one sub-task.
fn plan_of_one(
    alloc: Global,
    pair: Pair,
    period_ps: u64,
    checkpoint_ps: u64,
) -> Result<Plan, AllocError>
    requires { 0 < period_ps }
    ensures pair { IfOk result (λ p. (p.a ≡ pair.a) × (p.b ≡ pair.b)) }
    ensures fits { IfOk result (λ p. (length p.checkpoint_ps ≡ 1) × (0 < p.period_ps)) }
{
    Ok(Plan {
        a: pair.a,
        b: pair.b,
        period_ps,
        overhead_ps: 0,
        rem_ps: List::copy_of(alloc, &[0])?,
        checkpoint_ps: List::copy_of(alloc, &[checkpoint_ps])?,
        watchdog: List::copy_of(alloc, &[checkpoint_ps / period_ps])?,
    })
}

fn put(plans: &mut Plans, p: Plan)
    requires points { plans.old.points ≡ 2 }
    requires speculative { p.a < 2 }
    requires recovery { p.b < 2 }
    requires fits { (length p.checkpoint_ps ≡ 1) × (0 < p.period_ps) }
    requires before { All (IsFitting 1) plans.old.plans }
    ensures points { plans.new.points ≡ 2 }
    ensures after { All (IsFitting 1) plans.new.plans }
{
    plans.set(p);
}

// No plan of two points yet.
fn no_plans(alloc: Global) -> Result<Plans, AllocError>
    ensures points { IfOk result (λ t. t.points ≡ 2) }
    ensures fit { IfOk result (λ t. All (IsFitting 1) t.plans) }
{
    Plans::new(alloc, 2)
}

// The plans of two points with the periods 2 and 1 ns.
fn plans_of_two_points(alloc: Global) -> Result<Plans, AllocError>
    ensures { IfOk result (λ t. All (IsFitting 1) t.plans) }
{
    let mut plans = no_plans(alloc)?;
    put(
        &mut plans,
        plan_of_one(alloc, Pair { a: 0, b: 0 }, 2000, 400_000)?,
    );
    put(
        &mut plans,
        plan_of_one(alloc, Pair { a: 0, b: 1 }, 2000, 500_000)?,
    );
    put(
        &mut plans,
        plan_of_one(alloc, Pair { a: 1, b: 0 }, 1000, 600_000)?,
    );
    put(
        &mut plans,
        plan_of_one(alloc, Pair { a: 1, b: 1 }, 1000, 6_000_000)?,
    );
    Ok(plans)
}

// So many further counts of the one sub-task.
fn push_all(history: &mut History, times: usize, cycles: u64)
    requires { length history.old ≡ 1 }
    ensures { length history.new ≡ 1 }
{
    for _ in 0..times {
        history.push(1, cycles);
    }
}

// The choice after so many further counts.
fn pick_after(plans: &Plans, history: &mut History, times: usize, cycles: u64) -> Pair
    requires plans { All (IsFitting 1) plans.now.plans }
    requires one { length history.old ≡ 1 }
    ensures { length history.new ≡ 1 }
{
    push_all(history, times, cycles);
    pick(plans, history)
}

#[test]
fn a_pair_is_chosen_by_the_last_eight_counts(rt: HostRuntime) -> Result<(), Fail> {
    let alloc = rt.alloc();
    let plans = plans_of_two_points(alloc)?;
    let mut history = History::new(alloc, 1)?;
    let slow = Pair { a: 0, b: 0 };
    let fast = Pair { a: 1, b: 1 };
    assert_eq!(rt; pick_after(&plans, &mut history, 0, 0), fast);
    assert_eq!(rt; pick_after(&plans, &mut history, 8, 100), slow);
    assert_eq!(rt; pick_after(&plans, &mut history, 1, 5000), fast);
    assert_eq!(rt; pick_after(&plans, &mut history, 7, 100), fast);
    assert_eq!(rt; pick_after(&plans, &mut history, 1, 100), slow);
    Ok(())
}
