//! The names that an instruction reads and writes: 0 to 31 are the registers, 32 is the pair HI and
//! LO, which is one name.

ghost use Rattle.std.specs.Prelude.{◌≡◌};
ghost use Rattle.mips_isa.specs.Names as names;

use crate::instr::{AccOp, Branch1Op, HiLoOp, Instr, JumpOp, LoadOp, R3Op};

/// The name of the pair HI and LO.
pub const PAIR: u8 = 32;

/// The register that a branch or jump writes its link to.
pub const LINK: u8 = 31;

/// What the instruction reads, by place: `rs` where it is read, `rt` where it is read, then `rd`
/// (by a conditional move, which may keep it) or the pair.
#[tactic(auto, unfolding(crate::specs::Names::reads_of))]
pub fn reads(i: Instr) -> [Option<u8>; 3]
    ensures { result ≡ names.reads_of i }
{
    match i {
        Instr::R3 { m, rs, rt, rd } => [Some(rs), Some(rt), name_if(may_keep(m), rd)],
        Instr::Shift { rt, .. } => [None, Some(rt), None],
        Instr::Acc { m, rs, rt } => [Some(rs), Some(rt), name_if(reads_pair(m), PAIR)],
        Instr::HiLo { m, rs, .. } => [name_if(!moves_from_pair(m), rs), None, Some(PAIR)],
        Instr::Load { m, rs, rt, .. } => [Some(rs), name_if(is_partial_load(m), rt), None],
        Instr::Count { rs, .. }
        | Instr::Imm { rs, .. }
        | Instr::Pref { rs, .. }
        | Instr::Branch1 { rs, .. }
        | Instr::Jr { rs }
        | Instr::Jalr { rs, .. } => [Some(rs), None, None],
        Instr::Store { rs, rt, .. }
        | Instr::Branch2 { rs, rt, .. }
        | Instr::TrapIf { rs, rt, .. } => [Some(rs), Some(rt), None],
        Instr::Lui { .. } | Instr::Jump { .. } | Instr::Stop { .. } | Instr::Sync { .. } => {
            [None, None, None]
        }
    }
}

/// What the instruction writes, register 0 aside, which isn't written. A branch that links writes
/// its link taken or not.
#[tactic(auto, unfolding(crate::specs::Names::writes_of))]
pub fn writes(i: Instr) -> Option<u8>
    ensures { result ≡ names.writes_of i }
{
    match i {
        Instr::R3 { rd, .. }
        | Instr::Shift { rd, .. }
        | Instr::Count { rd, .. }
        | Instr::Jalr { rd, .. } => register(rd),
        Instr::Imm { rt, .. } | Instr::Lui { rt, .. } | Instr::Load { rt, .. } => register(rt),
        Instr::Acc { .. } => Some(PAIR),
        Instr::HiLo { m, rd, .. } => {
            if moves_from_pair(m) {
                register(rd)
            } else {
                Some(PAIR)
            }
        }
        Instr::Branch1 { m, .. } => name_if(branch_links(m), LINK),
        Instr::Jump { m, .. } => name_if(jump_links(m), LINK),
        _ => None,
    }
}

fn name_if(test: bool, name: u8) -> Option<u8>
    ensures { result ≡ names.name_if test name }
{
    if test { Some(name) } else { None }
}

fn register(r: u8) -> Option<u8>
    ensures { result ≡ names.register_written r }
{
    if r == 0 { None } else { Some(r) }
}

/// Whether a conditional move, which may keep the register that it writes.
pub fn may_keep(m: R3Op) -> bool
    ensures { result ≡ names.may_keep m }
{
    matches!(m, R3Op::Movz | R3Op::Movn)
}

fn reads_pair(m: AccOp) -> bool
    ensures { result ≡ names.reads_pair m }
{
    !matches!(m, AccOp::Mult | AccOp::Multu)
}

/// Whether a move from the pair into a register.
pub fn moves_from_pair(m: HiLoOp) -> bool
    ensures { result ≡ names.moves_from_pair m }
{
    matches!(m, HiLoOp::Mfhi | HiLoOp::Mflo)
}

/// Whether a load that keeps a part of the register that it loads.
pub fn is_partial_load(m: LoadOp) -> bool
    ensures { result ≡ names.is_partial_load m }
{
    matches!(m, LoadOp::Lwl | LoadOp::Lwr)
}

/// Whether a branch that writes its link.
pub fn branch_links(m: Branch1Op) -> bool
    ensures { result ≡ names.branch_links m }
{
    matches!(m, Branch1Op::Bltzal | Branch1Op::Bgezal)
}

/// Whether a jump that writes its link.
pub fn jump_links(m: JumpOp) -> bool
    ensures { result ≡ names.jump_links m }
{
    matches!(m, JumpOp::Jal)
}
