// Passes over the units of functions, which mark what they may write.
ghost use Rattle.std.specs.Prelude.{◌≡◌, ◌<◌, ◌≤◌, ◌*◌, ℕ, [], Contains, IfOk, Some, true, length, slice_index, slice_index_or};
ghost use Rattle.mips_isa.specs.Fits.{FieldsFit};
ghost use Rattle.mips_isa.specs.Names.{writes_of};
ghost use Rattle.mips_isa.specs.declared.instr.Instr.{Instr as Meant};
ghost use Rattle.flow_graph.specs.Code.{IsCode, instr_at};
ghost use Rattle.flow_graph.specs.Faults.{is_word_of};
ghost use Rattle.flow_graph.specs.Flow.{IsGraph, IsUnit};
ghost use Rattle.flow_graph.specs.Reached.{CallsAt, IsUnitOf};
ghost use Rattle.bound_checker.specs.Gone.{AreRowsOf, mask_in};
ghost use Rattle.bound_checker.specs.Lines.{addresses_of};
ghost use Rattle.run_law.specs.Masks.{AreMasks};
ghost use Rattle.bound_checker.specs.Marks as meaning;

use crate::lost::target;
use crate::marks::{join, set_written, unmarked};
use crate::masks::Masks;
use crate::units::{number_of, unit_at};
use flow_graph::{Graph, Unit};
use mips_isa::{Kind, kind};
use std::alloc::{AllocError, Global};
use visa_io::Code;

pub(crate) fn called_of(unit: Unit) -> Option<u32>
    requires { FieldsFit unit.first }
    ensures { result ≡ meaning.called_of unit }
{
    match kind(unit.first) {
        Kind::Call => target(unit.first, unit.at),
        _ => None,
    }
}

// What the instructions of a unit write.
fn mark_own(code: &Code, g: &Graph, marks: &mut [bool], row: usize, unit: Unit)
    requires due { meaning.AreDue code.now g.now marks.old }
    requires row { row < length g.now.functions }
    requires unit { IsUnit code.now g.now.entry unit }
    requires member { IsUnitOf code.now (slice_index g.now.functions row) unit.at }
    ensures due { meaning.AreDue code.now g.now marks.new }
    ensures below { meaning.IsBelow marks.old marks.new }
    ensures own { (at r : ℕ) (i : Meant) → is_word_of code.now unit.at at ≡ true → instr_at code.now at ≡ Some i → writes_of i ≡ Some r → r < 32 → meaning.mark_at marks.new row r ≡ true }
{
    set_written(code, g, marks, row, unit.first);
    if let Some(slot) = unit.slot {
        set_written(code, g, marks, row, slot);
    }
}

// What the function that a unit calls may write.
fn mark_called(code: &Code, g: &Graph, marks: &mut [bool], row: usize, unit: Unit)
    requires graph { IsGraph code.now g.now.entry g.now }
    requires due { meaning.AreDue code.now g.now marks.old }
    requires row { row < length g.now.functions }
    requires unit { IsUnit code.now g.now.entry unit }
    requires member { IsUnitOf code.now (slice_index g.now.functions row) unit.at }
    ensures due { meaning.AreDue code.now g.now marks.new }
    ensures below { meaning.IsBelow marks.old marks.new }
    ensures called { (other r : ℕ) → other < length g.now.functions → CallsAt code.now unit.at (slice_index g.now.functions other) → r < 32
        → meaning.mark_at marks.old other r ≡ true → meaning.mark_at marks.new row r ≡ true }
{
    match called_of(unit) {
        None => {}
        Some(f) => {
            let other = number_of(g.functions(), f);
            join(code, g, marks, row, other);
        }
    }
}

fn mark_unit(code: &Code, g: &Graph, marks: &mut [bool], row: usize, unit: Unit)
    requires graph { IsGraph code.now g.now.entry g.now }
    requires due { meaning.AreDue code.now g.now marks.old }
    requires row { row < length g.now.functions }
    requires unit { IsUnit code.now g.now.entry unit }
    requires member { IsUnitOf code.now (slice_index g.now.functions row) unit.at }
    ensures due { meaning.AreDue code.now g.now marks.new }
    ensures below { meaning.IsBelow marks.old marks.new }
    ensures closed { marks.new ≡ marks.old → meaning.IsClosedAt code.now g.now marks.old row unit.at }
{
    mark_own(code, g, marks, row, unit);
    mark_called(code, g, marks, row, unit);
}

fn unit_count(g: &Graph, row: usize) -> usize
    requires { row < length g.now.functions }
    ensures { result ≡ length (slice_index_or g.now.function_units row []) }
{
    g.function_units(row).len()
}

fn member_at(g: &Graph, row: usize, k: usize) -> u32
    requires row { row < length g.now.functions }
    requires unit { k < length (slice_index_or g.now.function_units row []) }
    ensures { slice_index (slice_index_or g.now.function_units row []) k ≡ result }
{
    g.function_units(row)[k]
}

// The marks that the units of a function ask for.
fn mark_function(code: &Code, g: &Graph, addresses: &[u32], marks: &mut [bool], row: usize)
    requires graph { IsGraph code.now g.now.entry g.now }
    requires addresses { addresses.now ≡ addresses_of g.now }
    requires due { meaning.AreDue code.now g.now marks.old }
    requires row { row < length g.now.functions }
    ensures { meaning.IsPassed code.now g.now row (slice_index_or g.now.function_units row []) marks.old marks.new }
{
    for k in 0..unit_count(g, row) {
        let u = member_at(g, row, k);
        let unit = unit_at(g, number_of(addresses, u));
        mark_unit(code, g, marks, row, unit);
    }
}

fn function_count(g: &Graph) -> usize
    ensures { result ≡ length g.now.functions }
{
    g.functions().len()
}

// Those of all functions.
fn mark_all(code: &Code, g: &Graph, addresses: &[u32], marks: &mut [bool])
    requires graph { IsGraph code.now g.now.entry g.now }
    requires addresses { addresses.now ≡ addresses_of g.now }
    requires due { meaning.AreDue code.now g.now marks.old }
    ensures { meaning.ArePassed code.now g.now (length g.now.functions) marks.old marks.new }
{
    for row in 0..function_count(g) {
        mark_function(code, g, addresses, marks, row);
    }
}

// Passes until none marks more. A pass for each call of the longest chain, and two more, are enough.
pub(crate) fn mark_until(code: &Code, g: &Graph, addresses: &[u32], marks: &mut [bool])
    requires graph { IsGraph code.now g.now.entry g.now }
    requires addresses { addresses.now ≡ addresses_of g.now }
    requires due { meaning.AreDue code.now g.now marks.old }
    ensures due { meaning.AreDue code.now g.now marks.new }
    ensures closed { meaning.AreRowsClosed code.now g.now marks.new }
{
    loop {
        let before = unmarked(marks);
        mark_all(code, g, addresses, marks);
        if before <= unmarked(marks) {
            return;
        }
    }
}

// What each function may write.
pub(crate) fn masks_of(
    alloc: Global,
    code: &Code,
    g: &Graph,
    addresses: &[u32],
) -> Result<Masks, AllocError>
    requires graph { IsGraph code.now g.now.entry g.now }
    requires addresses { addresses.now ≡ addresses_of g.now }
    ensures rows { IfOk result (AreRowsOf g.now) }
    ensures masks { IfOk result (λ m. AreMasks code.now g.now.entry (mask_in m)) }
{
    let functions = Vec::from_slice(alloc, g.functions())?;
    let Some(n) = functions.len().checked_mul(32) else {
        return Err(AllocError);
    };
    let mut marks = vec![in alloc; false; n]?;
    mark_until(code, g, addresses, marks.as_mut_slice());
    Ok(Masks { functions, marks })
}
