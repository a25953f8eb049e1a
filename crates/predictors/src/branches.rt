// Branches, and jumps to a register.
ghost use Rattle.std.specs.Prelude.{◌≡◌};
ghost use Rattle.predictors.specs.Predicting as predicting;

use mips_isa::{Instr, Kind, branch_target, kind};

fn is_branch_kind(kind: Kind) -> bool
    ensures { result ≡ predicting.is_branch_kind kind }
{
    matches!(kind, Kind::Branch)
}

/// A conditional branch.
pub(crate) fn is_branch(i: Instr) -> bool
    ensures { result ≡ predicting.is_branch i }
{
    is_branch_kind(kind(i))
}

/// A jump to a register.
pub(crate) fn is_register_jump(i: Instr) -> bool
    ensures { result ≡ predicting.is_register_jump i }
{
    matches!(i, Instr::Jr { .. } | Instr::Jalr { .. })
}

/// Where a branch at `pc` goes if it is taken.
pub(crate) fn target(i: Instr, pc: u32) -> u32
    ensures { result ≡ predicting.target_of i pc }
{
    match i {
        Instr::Branch2 { off, .. } => branch_target(pc, off),
        Instr::Branch1 { off, .. } => branch_target(pc, off),
        _ => 0,
    }
}
