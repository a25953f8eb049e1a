// The first register whose fact isn't kept along an edge.
ghost use Rattle.std.specs.Prelude.{◌≡◌, ◌<◌, ◌≤◌, ℕ, Contains, IfSome, length};
ghost use Rattle.std.specs.List.Sorted.{IsStrictlyIncreasing};
ghost use Rattle.mips_isa.specs.Fits.{FieldsFit};
ghost use Rattle.range_facts.specs.Ranges.{IsFact, unknown};
ghost use Rattle.range_facts.specs.Transfer.{AreFacts};
ghost use Rattle.bound_checker.specs.Lost as meaning;
ghost use Rattle.flow_graph.specs.Edges.{target_of};

use crate::masks::Masks;
use flow_graph::{EdgeKind, Unit};
use mips_isa::{Instr, branch_target, jump_target};
use range_facts::{Facts, Strided, within};

#[tactic(auto, unfolding(flow_graph::specs::Edges::target_of))]
pub(crate) fn target(i: Instr, at: u32) -> Option<u32>
    requires { FieldsFit i }
    ensures { result ≡ target_of i at }
{
    match i {
        Instr::Branch2 { off, .. } | Instr::Branch1 { off, .. } => Some(branch_target(at, off)),
        Instr::Jump { target, .. } => Some(jump_target(at, target)),
        _ => None,
    }
}

// The function that an Over edge of a unit goes over.
pub(crate) fn callee_of(kind: EdgeKind, unit: Unit) -> Option<u32>
    requires { FieldsFit unit.first }
    ensures { result ≡ meaning.callee_of kind unit }
{
    match kind {
        EdgeKind::Over => target(unit.first, unit.at),
        EdgeKind::Next | EdgeKind::Taken | EdgeKind::Call | EdgeKind::Return => None,
    }
}

// A fact, unknown where the function called may write the register.
fn fact_over(masks: &Masks, callee: Option<u32>, f: &Facts, r: u8) -> Strided
    requires masks { meaning.AreRows masks.now.functions.items masks.now.marks.items }
    requires callee { IfSome callee (Contains masks.now.functions.items) }
    requires register { r < 32 }
    ensures { result ≡ meaning.fact_over (meaning.mask_of masks.now.functions.items masks.now.marks.items) callee f.now r }
{
    match callee {
        None => f.fact(r),
        Some(function) => {
            if masks.may_write(function, r) {
                any_word()
            } else {
                f.fact(r)
            }
        }
    }
}

pub(crate) fn any_word() -> Strided
    ensures { result ≡ unknown }
{
    Strided {
        lo: -0x8000_0000,
        hi: 0x7fff_ffff,
        stride: 1,
    }
}

// The least register whose fact isn't kept, if any.
pub(crate) fn least_lost(
    masks: &Masks,
    callee: Option<u32>,
    f: &Facts,
    target: &Facts,
) -> Option<u8>
    requires masks { meaning.AreRows masks.now.functions.items masks.now.marks.items }
    requires callee { IfSome callee (Contains masks.now.functions.items) }
    requires facts { AreFacts f.now }
    requires target { AreFacts target.now }
    ensures { meaning.IsLeastLost (meaning.mask_of masks.now.functions.items masks.now.marks.items) callee f.now target.now result }
{
    for r in 0..32u8 {
        if !within(fact_over(masks, callee, f, r), target.fact(r)) {
            return Some(r);
        }
    }
    None
}
