// What instructions and edges cost.
ghost use Rattle.loop_regions.specs.Nested.{IsWhole};
ghost use Rattle.path_wcet.specs.Static.{branch_price, differs, edge_price, more_of, price_of, slot_cost, static_cost, unit_price};
ghost use Rattle.mips_isa.specs.Kinds.{kind_of};
ghost use Rattle.mips_isa.specs.Prediction.{predicted_taken_of};
ghost use Rattle.std.specs.Prelude.{◌≡◌, ◌^◌, ◌-◌, Contains, min};

use flow_graph::{Edge, EdgeKind, Graph, Unit};
use mips_isa::{Instr, Kind, is_predicted_taken, kind};
use persistence::LineCharge;

/// What costs time at an operating point, cycles.
#[derive(Clone, Copy, Debug, PartialEq, Eq)]
pub struct Pen {
    /// Of an access to memory that misses.
    pub m: u64,
    /// Of a store beyond its first cycle.
    pub w: u64,
    /// Of a multiplication in the execute stage.
    pub mul: u64,
    /// Of a division in the execute stage.
    pub div: u64,
}

/// What is charged at an operating point in a scope.
#[derive(Debug, Drop)]
pub struct Costs {
    /// Which fetches are charged.
    pub charge: LineCharge,
    pub pen: Pen,
}

fn itself(n: u64) -> u64
    ensures { result ≡ min (2 ^ 64 - 1) n }
{
    n
}

fn more(k: Kind, pen: &Pen) -> u64
    ensures { result ≡ min (2 ^ 64 - 1) (more_of k pen.now) }
{
    match k {
        Kind::Mul => pen.mul.saturating_sub(1),
        Kind::Div => pen.div.saturating_sub(1),
        Kind::Load => pen.m.saturating_add(1),
        Kind::Store => itself(pen.w),
        Kind::Plain
        | Kind::Branch
        | Kind::Jump
        | Kind::Call
        | Kind::Return
        | Kind::Indirect
        | Kind::Stop => 0,
    }
}

/// The static cost of an instruction, cycles, with that of its fetch where that is charged. A sum past 2^64 - 1 stands still
/// there. This project's own.
#[tactic(auto, unfolding(crate::specs::Static::static_cost))]
pub fn cost(i: Instr, charged: bool, pen: &Pen) -> u64
    ensures { result ≡ min (2 ^ 64 - 1) (static_cost i charged pen.now) }
{
    let fetch = if charged { pen.m } else { 0 };
    1_u64
        .saturating_add(fetch)
        .saturating_add(more(kind(i), pen))
}

fn cost_of_slot(slot: Option<Instr>, charged: bool, pen: &Pen) -> u64
    ensures { result ≡ min (2 ^ 64 - 1) (slot_cost slot charged pen.now) }
{
    match slot {
        Some(i) => cost(i, charged, pen),
        None => 0,
    }
}

/// What a unit costs with the fetches that are charged, cycles.
#[tactic(auto, unfolding(crate::specs::Static::unit_price))]
pub(crate) fn unit_cost(unit: &Unit, costs: &Costs) -> u64
    ensures { result ≡ min (2 ^ 64 - 1) (unit_price unit.now costs.now) }
{
    let first = cost(unit.first, costs.charge.charged(unit.at), &costs.pen);
    let slot = cost_of_slot(
        unit.slot,
        costs.charge.charged(unit.at.wrapping_add(4)),
        &costs.pen,
    );
    first.saturating_add(slot)
}

fn goes_against(i: Instr, taken: bool) -> u64
    ensures { result ≡ branch_price (kind_of i) (differs (predicted_taken_of i) taken) }
{
    match kind(i) {
        Kind::Branch => { if is_predicted_taken(i) == taken { 0 } else { 2 } }
        _ => 0,
    }
}

/// What an edge of a kind costs from a unit that begins with this instruction.
pub(crate) fn price(k: EdgeKind, i: Instr) -> u64
    ensures { result ≡ price_of k i }
{
    match k {
        EdgeKind::Next => goes_against(i, false),
        EdgeKind::Taken => goes_against(i, true),
        EdgeKind::Return => 2,
        EdgeKind::Call | EdgeKind::Over => 0,
    }
}

/// The static cost of an edge of a graph, cycles: 2 for a return and for a branch that goes against the static prediction, else 0.
/// This project's own.
pub fn edge_cost(g: &Graph, e: Edge) -> u64
    ensures { result ≡ edge_price g.now.units e }
{
    for unit in g.units() {
        if unit.at == e.from {
            return price(e.kind, unit.first);
        }
    }
    0
}
