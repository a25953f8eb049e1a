// The facts at the end of an edge.
ghost use Rattle.std.specs.Prelude.{◌≡◌, ◌+◌, ◌<◌, ◌≤◌, ◌^◌, IfSome};
ghost use Rattle.mips_isa.specs.Fits.{FieldsFit};
ghost use Rattle.range_facts.specs.Transfer.{AreFacts};
ghost use Rattle.bound_checker.specs.Ends as meaning;
ghost use Rattle.bound_checker.specs.Units.{IsSoundUnit};
ghost use Rattle.run_law.specs.Certificate.{behind};

use flow_graph::{EdgeKind, Unit};
use mips_isa::{Instr, kind};
use range_facts::Along;

fn behind_slot(unit: Unit, a: Along) -> Along
    requires unit { IsSoundUnit unit }
    requires facts { AreFacts a.facts }
    ensures is { result ≡ meaning.behind_slot_of unit a }
    ensures facts { AreFacts result.facts }
{
    let mut a = a;
    if let Some(slot) = unit.slot {
        a.pass(slot, unit.at + 4);
    }
    a
}

// The facts behind a unit's first instruction.
pub(crate) fn behind_first(unit: Unit, a: Along) -> Along
    requires unit { IsSoundUnit unit }
    requires facts { AreFacts a.facts }
    ensures is { result ≡ meaning.behind_first_of unit a }
    ensures facts { AreFacts result.facts }
{
    let mut a = a;
    a.pass(unit.first, unit.at);
    a
}

fn behind_if(unit: Unit, a: Option<Along>) -> Option<Along>
    requires unit { IsSoundUnit unit }
    requires facts { IfSome a (λ b. AreFacts b.facts) }
    ensures is { result ≡ meaning.behind_if unit a }
    ensures facts { IfSome result (λ b. AreFacts b.facts) }
{
    match a {
        None => None,
        Some(a) => Some(behind_slot(unit, a)),
    }
}

fn turned(unit: Unit, taken: bool, a: Along) -> Option<Along>
    requires unit { IsSoundUnit unit }
    requires facts { AreFacts a.facts }
    ensures is { result ≡ meaning.turned unit taken a }
    ensures facts { IfSome result (λ b. AreFacts b.facts) }
{
    if kind(unit.first).is_control() {
        behind_if(unit, a.refined(unit.first, taken))
    } else {
        Some(behind_first(unit, a))
    }
}

// The facts at the end of an edge of a unit; None of a return, and where no registers go along it.
#[tactic(auto, unfolding(crate::specs::Ends::end_of))]
pub(crate) fn end_of(unit: Unit, kind: EdgeKind, a: Along) -> Option<Along>
    requires unit { IsSoundUnit unit }
    requires facts { AreFacts a.facts }
    ensures is { result ≡ meaning.end_of unit kind a }
    ensures facts { IfSome result (λ b. AreFacts b.facts) }
{
    match kind {
        EdgeKind::Next => turned(unit, false, a),
        EdgeKind::Taken => turned(unit, true, a),
        EdgeKind::Call | EdgeKind::Over => Some(behind_slot(unit, behind_first(unit, a))),
        EdgeKind::Return => None,
    }
}
