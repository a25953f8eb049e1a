ghost use Rattle.std.specs.Prelude.{◌≡◌};
ghost use Rattle.mips_isa.specs.Kinds as kinds;

use crate::instr::{AccOp, Branch1Op, Instr, JumpOp, Kind, R3Op};

/// What the instruction is to a pipeline and to the analysis of control. `bgezal $0` is a call and
/// `jr $31` a return; a trap where a comparison holds is plain.
#[tactic(auto, unfolding(crate::specs::Kinds::kind_of))]
pub fn kind(i: Instr) -> Kind
    ensures { result ≡ kinds.kind_of i }
{
    match i {
        Instr::R3 { m, .. } => r3_kind(m),
        Instr::Acc { m, .. } => acc_kind(m),
        Instr::Load { .. } => Kind::Load,
        Instr::Store { .. } => Kind::Store,
        Instr::Branch2 { .. } => Kind::Branch,
        Instr::Branch1 { m, rs, .. } => branch_kind(m, rs),
        Instr::Jump { m, .. } => jump_kind(m),
        Instr::Jr { rs: 31 } => Kind::Return,
        Instr::Jr { .. } => Kind::Indirect,
        Instr::Jalr { .. } => Kind::Call,
        Instr::Stop { .. } => Kind::Stop,
        _ => Kind::Plain,
    }
}

fn r3_kind(m: R3Op) -> Kind
    ensures { result ≡ kinds.r3_kind m }
{
    match m {
        R3Op::Mul => Kind::Mul,
        _ => Kind::Plain,
    }
}

fn acc_kind(m: AccOp) -> Kind
    ensures { result ≡ kinds.acc_kind m }
{
    match m {
        AccOp::Div | AccOp::Divu => Kind::Div,
        _ => Kind::Mul,
    }
}

fn branch_kind(m: Branch1Op, rs: u8) -> Kind
    ensures { result ≡ kinds.branch_kind m rs }
{
    match m {
        Branch1Op::Bgezal if rs == 0 => Kind::Call,
        _ => Kind::Branch,
    }
}

fn jump_kind(m: JumpOp) -> Kind
    ensures { result ≡ kinds.jump_kind m }
{
    match m {
        JumpOp::J => Kind::Jump,
        JumpOp::Jal => Kind::Call,
    }
}

impl Kind {
    /// Whether an instruction of this kind decides what follows its delay slot.
    pub fn is_control(self) -> bool
        ensures { result ≡ kinds.is_control self }
    {
        matches!(
            self,
            Kind::Branch | Kind::Jump | Kind::Call | Kind::Return | Kind::Indirect
        )
    }
}
