// The mnemonics.
ghost use Rattle.std.specs.Prelude.{◌≡◌};
ghost use Rattle.mips_text.specs.Mnemonics as mnemonics;

use mips_isa::{
    AccOp, Branch1Op, Branch2Op, CountOp, HiLoOp, ImmOp, Instr, JumpOp, LoadOp, R3Op, ShiftOp,
    StopOp, StoreOp, TrapIfOp,
};

/// The mnemonic of an instruction.
#[tactic(auto, unfolding(crate::specs::Mnemonics::name_of))]
pub(crate) fn name(i: Instr) -> &'static [u8]
    ensures { result.now ≡ mnemonics.name_of i }
{
    match i {
        Instr::R3 { m, .. } => r3_name(m),
        Instr::Shift { m, .. } => shift_name(m),
        Instr::Acc { m, .. } => acc_name(m),
        Instr::HiLo { m, .. } => hi_lo_name(m),
        Instr::Count { m, .. } => count_name(m),
        Instr::Imm { m, .. } => imm_name(m),
        Instr::Lui { .. } => b"lui",
        Instr::Load { m, .. } => load_name(m),
        Instr::Store { m, .. } => store_name(m),
        Instr::Pref { .. } => b"pref",
        Instr::Branch2 { m, .. } => branch2_name(m),
        Instr::Branch1 { m, .. } => branch1_name(m),
        Instr::Jump { m, .. } => jump_name(m),
        Instr::Jr { .. } => b"jr",
        Instr::Jalr { .. } => b"jalr",
        Instr::TrapIf { m, .. } => trap_if_name(m),
        Instr::Stop { m, .. } => stop_name(m),
        Instr::Sync { .. } => b"sync",
    }
}

#[tactic(auto, unfolding(crate::specs::Mnemonics::r3_name))]
fn r3_name(m: R3Op) -> &'static [u8]
    ensures { result.now ≡ mnemonics.r3_name m }
{
    match m {
        R3Op::Sllv => b"sllv",
        R3Op::Srlv => b"srlv",
        R3Op::Srav => b"srav",
        R3Op::Movz => b"movz",
        R3Op::Movn => b"movn",
        R3Op::Add => b"add",
        R3Op::Addu => b"addu",
        R3Op::Sub => b"sub",
        R3Op::Subu => b"subu",
        R3Op::And => b"and",
        R3Op::Or => b"or",
        R3Op::Xor => b"xor",
        R3Op::Nor => b"nor",
        R3Op::Slt => b"slt",
        R3Op::Sltu => b"sltu",
        R3Op::Mul => b"mul",
    }
}

#[tactic(auto, unfolding(crate::specs::Mnemonics::shift_name))]
fn shift_name(m: ShiftOp) -> &'static [u8]
    ensures { result.now ≡ mnemonics.shift_name m }
{
    match m {
        ShiftOp::Sll => b"sll",
        ShiftOp::Srl => b"srl",
        ShiftOp::Sra => b"sra",
    }
}

#[tactic(auto, unfolding(crate::specs::Mnemonics::acc_name))]
fn acc_name(m: AccOp) -> &'static [u8]
    ensures { result.now ≡ mnemonics.acc_name m }
{
    match m {
        AccOp::Mult => b"mult",
        AccOp::Multu => b"multu",
        AccOp::Div => b"div",
        AccOp::Divu => b"divu",
        AccOp::Madd => b"madd",
        AccOp::Maddu => b"maddu",
        AccOp::Msub => b"msub",
        AccOp::Msubu => b"msubu",
    }
}

#[tactic(auto, unfolding(crate::specs::Mnemonics::hi_lo_name))]
fn hi_lo_name(m: HiLoOp) -> &'static [u8]
    ensures { result.now ≡ mnemonics.hi_lo_name m }
{
    match m {
        HiLoOp::Mfhi => b"mfhi",
        HiLoOp::Mflo => b"mflo",
        HiLoOp::Mthi => b"mthi",
        HiLoOp::Mtlo => b"mtlo",
    }
}

#[tactic(auto, unfolding(crate::specs::Mnemonics::count_name))]
fn count_name(m: CountOp) -> &'static [u8]
    ensures { result.now ≡ mnemonics.count_name m }
{
    match m {
        CountOp::Clz => b"clz",
        CountOp::Clo => b"clo",
    }
}

#[tactic(auto, unfolding(crate::specs::Mnemonics::imm_name))]
fn imm_name(m: ImmOp) -> &'static [u8]
    ensures { result.now ≡ mnemonics.imm_name m }
{
    match m {
        ImmOp::Addi => b"addi",
        ImmOp::Addiu => b"addiu",
        ImmOp::Slti => b"slti",
        ImmOp::Sltiu => b"sltiu",
        ImmOp::Andi => b"andi",
        ImmOp::Ori => b"ori",
        ImmOp::Xori => b"xori",
    }
}

#[tactic(auto, unfolding(crate::specs::Mnemonics::load_name))]
fn load_name(m: LoadOp) -> &'static [u8]
    ensures { result.now ≡ mnemonics.load_name m }
{
    match m {
        LoadOp::Lb => b"lb",
        LoadOp::Lh => b"lh",
        LoadOp::Lwl => b"lwl",
        LoadOp::Lw => b"lw",
        LoadOp::Lbu => b"lbu",
        LoadOp::Lhu => b"lhu",
        LoadOp::Lwr => b"lwr",
    }
}

#[tactic(auto, unfolding(crate::specs::Mnemonics::store_name))]
fn store_name(m: StoreOp) -> &'static [u8]
    ensures { result.now ≡ mnemonics.store_name m }
{
    match m {
        StoreOp::Sb => b"sb",
        StoreOp::Sh => b"sh",
        StoreOp::Swl => b"swl",
        StoreOp::Sw => b"sw",
        StoreOp::Swr => b"swr",
    }
}

#[tactic(auto, unfolding(crate::specs::Mnemonics::branch2_name))]
fn branch2_name(m: Branch2Op) -> &'static [u8]
    ensures { result.now ≡ mnemonics.branch2_name m }
{
    match m {
        Branch2Op::Beq => b"beq",
        Branch2Op::Bne => b"bne",
    }
}

#[tactic(auto, unfolding(crate::specs::Mnemonics::branch1_name))]
fn branch1_name(m: Branch1Op) -> &'static [u8]
    ensures { result.now ≡ mnemonics.branch1_name m }
{
    match m {
        Branch1Op::Blez => b"blez",
        Branch1Op::Bgtz => b"bgtz",
        Branch1Op::Bltz => b"bltz",
        Branch1Op::Bgez => b"bgez",
        Branch1Op::Bltzal => b"bltzal",
        Branch1Op::Bgezal => b"bgezal",
    }
}

#[tactic(auto, unfolding(crate::specs::Mnemonics::jump_name))]
fn jump_name(m: JumpOp) -> &'static [u8]
    ensures { result.now ≡ mnemonics.jump_name m }
{
    match m {
        JumpOp::J => b"j",
        JumpOp::Jal => b"jal",
    }
}

#[tactic(auto, unfolding(crate::specs::Mnemonics::trap_if_name))]
fn trap_if_name(m: TrapIfOp) -> &'static [u8]
    ensures { result.now ≡ mnemonics.trap_if_name m }
{
    match m {
        TrapIfOp::Tge => b"tge",
        TrapIfOp::Tgeu => b"tgeu",
        TrapIfOp::Tlt => b"tlt",
        TrapIfOp::Tltu => b"tltu",
        TrapIfOp::Teq => b"teq",
        TrapIfOp::Tne => b"tne",
    }
}

#[tactic(auto, unfolding(crate::specs::Mnemonics::stop_name))]
fn stop_name(m: StopOp) -> &'static [u8]
    ensures { result.now ≡ mnemonics.stop_name m }
{
    match m {
        StopOp::Syscall => b"syscall",
        StopOp::Break => b"break",
    }
}
