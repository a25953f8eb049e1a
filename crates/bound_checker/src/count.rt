// The counts of loop regions.
ghost use Rattle.std.specs.Prelude.{◌≡◌, ◌<◌, ◌≤◌, ◌+◌, ◌^◌, ◌-ℤ◌, Bool, List, ℕ, All, Some, length, slice_get, unsigned_abs};
ghost use Rattle.range_facts.specs.Ranges.{IsFact};
ghost use Rattle.loop_regions.specs.Nested.{IsNest};
ghost use Rattle.loop_regions.specs.Walks.{LoopGraph};
ghost use Rattle.visa_io.specs.declared.records.Region.{Region as Loop};
ghost use Rattle.bound_checker.specs.Answer.{IsProved};
ghost use Rattle.bound_checker.specs.Counted as meaning;
ghost use Rattle.bound_checker.specs.Input.{IsInput};
ghost use Rattle.bound_checker.specs.Lines.{addresses_of, program_of};

use crate::callees::callee_write;
use crate::check::Proved;
use crate::cycle::has_no_step;
use crate::fault::CountFault;
use crate::tally::{Tally, lesser};
use crate::units::number_of;
use crate::walk::{first_number, walk};
use flow_graph::Graph;
use loop_regions::Nest;
use range_facts::Strided;
use visa_io::{Code, FactLine, Region};

// The least address of a step that goes the other way than the first one.
fn turn_of(t: Tally) -> Option<u32>
    ensures { result ≡ meaning.turn_of t }
{
    match t.up {
        None => None,
        Some(up) => turn_at(up, t.down),
    }
}

fn turn_at(up: u32, down: Option<u32>) -> Option<u32>
    ensures { result ≡ meaning.turn_at up down }
{
    match down {
        None => None,
        Some(down) => Some(up.max(down)),
    }
}

fn span(fact: Strided) -> u64
    requires { IsFact fact }
    ensures { result ≡ unsigned_abs (fact.hi -ℤ fact.lo) }
{
    (fact.hi - fact.lo) as u64
}

// How many visits steps of a least size need at most.
fn needed_of(size: Option<u32>, fact: Strided) -> u64
    requires fact { IsFact fact }
    requires size { meaning.IsSize size }
    ensures { result ≡ meaning.needed_by size fact }
{
    match size {
        None => 1,
        Some(least) => span(fact) / u64::from(least) + 1,
    }
}

fn enough(region: Region, r: u32, needed: u64) -> Result<(), CountFault>
    ensures { result ≡ meaning.enough region r needed }
{
    if u64::from(region.count) < needed {
        return Err(CountFault::TooFew { r, needed });
    }
    Ok(())
}

fn wraps(region: Region, r: u32, t: Tally, needed: u64) -> Result<(), CountFault>
    ensures { result ≡ meaning.wraps region r t.wraps needed }
{
    match t.wraps {
        None => enough(region, r, needed),
        Some(at) => Err(CountFault::Wraps { r, at }),
    }
}

fn writes(
    region: Region,
    r: u32,
    other: Option<u32>,
    t: Tally,
    needed: u64,
) -> Result<(), CountFault>
    ensures { result ≡ meaning.writes region r other t.wraps needed }
{
    match other {
        None => wraps(region, r, t, needed),
        Some(at) => Err(CountFault::OtherWrite { r, at }),
    }
}

// What its instructions say of a region that has a step on each cycle.
fn verdict(
    region: Region,
    r: u32,
    t: Tally,
    callee: Option<u32>,
    fact: Strided,
) -> Result<(), CountFault>
    requires fact { IsFact fact }
    requires size { meaning.IsSize t.size }
    ensures { result ≡ meaning.verdict region r t callee fact }
{
    let other = lesser(lesser(t.other, turn_of(t)), callee);
    writes(region, r, other, t, needed_of(t.size, fact))
}

// The count of a region that has a step on each cycle.
fn counted(
    p: &mut Proved,
    g: &Graph,
    code: &Code,
    facts: &[FactLine],
    region: Region,
    r: u32,
) -> Result<(), CountFault>
    requires input { IsInput code.now g.now facts.now }
    requires proved { IsProved code.now g.now facts.now p.old }
    requires header { meaning.IsInside g.now region }
    ensures same { meaning.IsSame p.old p.new }
    ensures answer { (loops : LoopGraph) (mask : ℕ → ℕ → Bool) → meaning.IsCountAfter (program_of code.now g.now facts.now loops mask) region r result }
{
    let lo = first_number(p.addresses.as_slice(), u64::from(region.first));
    let hi = first_number(p.addresses.as_slice(), u64::from(region.last) + 1);
    let callee = callee_write(code, g, p.addresses.as_slice(), &mut p.room, region, lo, hi);
    let w = walk(code, g, facts, &p.table, region, lo, hi);
    verdict(region, r, w.tally, callee, w.fact)
}

fn checked(
    p: &mut Proved,
    g: &Graph,
    code: &Code,
    facts: &[FactLine],
    region: Region,
    r: u32,
) -> Result<(), CountFault>
    requires input { IsInput code.now g.now facts.now }
    requires proved { IsProved code.now g.now facts.now p.old }
    requires header { meaning.IsInside g.now region }
    ensures same { meaning.IsSame p.old p.new }
    ensures answer { (loops : LoopGraph) (mask : ℕ → ℕ → Bool) → meaning.IsCountAnswer (program_of code.now g.now facts.now loops mask) region r result }
{
    let header = number_of(p.addresses.as_slice(), region.header);
    if has_no_step(code, g, p.addresses.as_slice(), &mut p.room, region, header) {
        return Err(CountFault::NoStep { r });
    }
    counted(p, g, code, facts, region, r)
}

/// Checks the count of region number `r`, counted from 0; faults number it from 1. It takes no memory.
///
/// # Errors
/// The first kind of `CountFault` that the region has, at its least address.
pub fn check_count(
    p: &mut Proved,
    g: &Graph,
    n: &Nest,
    code: &Code,
    facts: &[FactLine],
    r: usize,
) -> Result<(), CountFault>
    requires input { IsInput code.now g.now facts.now }
    requires proved { IsProved code.now g.now facts.now p.old }
    requires nest { IsNest g.now n.now }
    requires region { r < length n.now.regions }
    requires few { length n.now.regions < 2 ^ 32 }
    ensures same { meaning.IsSame p.old p.new }
    ensures proved { IsProved code.now g.now facts.now p.new }
    // Masks play no part: what functions write is told by their instructions.
    ensures answer { (region : Loop) → slice_get n.now.regions r ≡ Some region → (loops : LoopGraph) (mask : ℕ → ℕ → Bool)
        → meaning.IsCountAnswer (program_of code.now g.now facts.now loops mask) region (r + 1) result }
{
    let region = n.regions()[r];
    checked(p, g, code, facts, region, r as u32 + 1)
}
