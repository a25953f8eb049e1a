// Why a task isn't admitted, in the line that is written.
ghost use Rattle.std.specs.Prelude.{◌≡◌, ◌++◌, OnOk};
ghost use Rattle.std.specs.Prelude.{codes};
ghost use Rattle.visa_cli.specs.Refusals.{count_text, cut_text, fact_text, flow_text, named_at, numbered, refusal_text, region_text};
ghost use Rattle.admission.specs.declared.refusal.Refusal.TheVariants.{Exceeds as ExceedsCase};
ghost use Rattle.bound_checker.specs.declared.fault.FactFault.TheVariants.{NotHeld as NotHeldCase};
ghost use Rattle.bound_checker.specs.declared.fault.CountFault.TheVariants.{TooFew as TooFewCase};
ghost use Rattle.loop_regions.specs.declared.fault.RegionFault.TheVariants.{SideEntry as SideEntryCase};

use crate::lines::{push_addressed, push_numbered};
use admission::Refusal;
use bound_checker::{CountFault, FactFault};
use flow_graph::FlowFault;
use itoa::Buffer;
use loop_regions::RegionFault;
use std::alloc::AllocError;
use subtask_cut::CutFault;

// Writes why code has no graph.
fn push_flow(line: &mut Vec<u8>, fault: FlowFault) -> Result<(), AllocError>
    ensures { OnOk result (line.new.items ≡ line.old.items ++ flow_text fault) }
{
    match fault {
        FlowFault::Reserved { at } => push_addressed(line, b"flow reserved ", at),
        FlowFault::Indirect { at } => push_addressed(line, b"flow indirect ", at),
        FlowFault::LinkBranch { at } => push_addressed(line, b"flow link-branch ", at),
        FlowFault::SlotControl { at } => push_addressed(line, b"flow slot-control ", at),
        FlowFault::SlotTarget { at } => push_addressed(line, b"flow slot-target ", at),
        FlowFault::OffCode { at } => push_addressed(line, b"flow off-code ", at),
        FlowFault::Recursion { at } => push_addressed(line, b"flow recursion ", at),
        FlowFault::Deep => line.extend_from_slice(b"flow deep"),
        FlowFault::Memory => line.extend_from_slice(b"memory"),
    }
}

// Writes a name, a number and another name.
fn push_named(line: &mut Vec<u8>, name: &[u8], n: u32, rule: &[u8]) -> Result<(), AllocError>
    ensures { OnOk result (line.new.items ≡ line.old.items ++ (numbered name.now n ++ rule.now)) }
{
    push_numbered(line, name, u64::from(n))?;
    line.extend_from_slice(rule)
}

fn push_side(line: &mut Vec<u8>, r: u32, from: u32, to: u32) -> Result<(), AllocError>
    ensures { OnOk result (line.new.items ≡ line.old.items ++ region_text (SideEntryCase r from to)) }
{
    push_numbered(line, b"region ", u64::from(r))?;
    push_addressed(line, b" side ", from)?;
    push_addressed(line, b" ", to)
}

// Writes why regions don't nest.
fn push_region(line: &mut Vec<u8>, fault: RegionFault) -> Result<(), AllocError>
    ensures { OnOk result (line.new.items ≡ line.old.items ++ region_text fault) }
{
    match fault {
        RegionFault::Crossing { r } => push_named(line, b"region ", r, b" crossing"),
        RegionFault::SideEntry { r, from, to } => push_side(line, r, from, to),
        RegionFault::FreeCycle { at } => push_addressed(line, b"region free ", at),
        RegionFault::Memory => line.extend_from_slice(b"memory"),
    }
}

fn push_not_held(line: &mut Vec<u8>, from: u32, to: u32, register: u8) -> Result<(), AllocError>
    ensures { OnOk result (line.new.items ≡ line.old.items ++ fact_text (NotHeldCase from to register)) }
{
    push_addressed(line, b"fact ", from)?;
    push_addressed(line, b" ", to)?;
    push_numbered(line, b" ", u64::from(register))
}

// Writes which fact isn't kept along which edge.
fn push_fact(line: &mut Vec<u8>, fault: FactFault) -> Result<(), AllocError>
    ensures { OnOk result (line.new.items ≡ line.old.items ++ fact_text fault) }
{
    match fault {
        FactFault::NotHeld { from, to, register } => push_not_held(line, from, to, register),
        FactFault::Memory => line.extend_from_slice(b"memory"),
    }
}

// Writes a loop's number, a name and an address.
fn push_loop_at(line: &mut Vec<u8>, r: u32, name: &[u8], at: u32) -> Result<(), AllocError>
    ensures { OnOk result (line.new.items ≡ line.old.items ++ (numbered (codes "loop ") r ++ named_at name.now at)) }
{
    push_numbered(line, b"loop ", u64::from(r))?;
    push_addressed(line, name, at)
}

fn push_too_few(line: &mut Vec<u8>, r: u32, needed: u64) -> Result<(), AllocError>
    ensures { OnOk result (line.new.items ≡ line.old.items ++ count_text (TooFewCase r needed)) }
{
    push_numbered(line, b"loop ", u64::from(r))?;
    push_numbered(line, b" too-few ", needed)
}

// Writes why the count of a region isn't proved.
fn push_count(line: &mut Vec<u8>, fault: CountFault) -> Result<(), AllocError>
    ensures { OnOk result (line.new.items ≡ line.old.items ++ count_text fault) }
{
    match fault {
        CountFault::NoStep { r } => push_named(line, b"loop ", r, b" no-step"),
        CountFault::OtherWrite { r, at } => push_loop_at(line, r, b" other-write ", at),
        CountFault::Wraps { r, at } => push_loop_at(line, r, b" wraps ", at),
        CountFault::TooFew { r, needed } => push_too_few(line, r, needed),
    }
}

// Writes which rule a cut breaks.
fn push_cut(line: &mut Vec<u8>, fault: CutFault) -> Result<(), AllocError>
    ensures { OnOk result (line.new.items ≡ line.old.items ++ cut_text fault) }
{
    match fault {
        CutFault::Slot { i } => push_named(line, b"cut ", i, b" slot"),
        CutFault::InCallee { i } => push_named(line, b"cut ", i, b" in-callee"),
        CutFault::InRegion { i } => push_named(line, b"cut ", i, b" in-region"),
        CutFault::Order { i } => push_named(line, b"cut ", i, b" order"),
        CutFault::Bypassed { i } => push_named(line, b"cut ", i, b" bypassed"),
        CutFault::Memory => line.extend_from_slice(b"memory"),
    }
}

// Writes the two times (ps) of a task that needs more than its deadline leaves.
#[tactic(auto, unfolding(crate::specs::Refusals::refusal_text))]
fn push_exceeds(line: &mut Vec<u8>, needed_ps: u128, deadline_ps: u64) -> Result<(), AllocError>
    ensures { OnOk result (line.new.items ≡ line.old.items ++ refusal_text (ExceedsCase needed_ps deadline_ps)) }
{
    let mut buffer = Buffer::new();
    line.extend_from_slice(b"exceeds ")?;
    line.extend_from_slice(buffer.format(needed_ps).as_bytes())?;
    push_numbered(line, b" ", deadline_ps)
}

/// Writes why a task isn't admitted.
#[tactic(auto, unfolding(crate::specs::Refusals::refusal_text))]
pub fn push_refusal(line: &mut Vec<u8>, refusal: Refusal) -> Result<(), AllocError>
    ensures { OnOk result (line.new.items ≡ line.old.items ++ refusal_text refusal) }
{
    match refusal {
        Refusal::Flow(fault) => push_flow(line, fault),
        Refusal::Region(fault) => push_region(line, fault),
        Refusal::Fact(fault) => push_fact(line, fault),
        Refusal::Loop(fault) => push_count(line, fault),
        Refusal::Cut(fault) => push_cut(line, fault),
        Refusal::Exceeds {
            needed_ps,
            deadline_ps,
        } => push_exceeds(line, needed_ps, deadline_ps),
        Refusal::Memory => line.extend_from_slice(b"memory"),
    }
}
