// One instruction of each mnemonic.
ghost use Rattle.mips_text.specs.Templates.{HasEachMnemonic};

use mips_isa::{
    AccOp, Branch1Op, Branch2Op, CountOp, HiLoOp, ImmOp, Instr, JumpOp, LoadOp, R3Op, ShiftOp,
    StopOp, StoreOp, TrapIfOp,
};

static TEMPLATES: [Instr; 75] = [
    Instr::R3 {
        m: R3Op::Sllv,
        rs: 0,
        rt: 0,
        rd: 0,
    },
    Instr::R3 {
        m: R3Op::Srlv,
        rs: 0,
        rt: 0,
        rd: 0,
    },
    Instr::R3 {
        m: R3Op::Srav,
        rs: 0,
        rt: 0,
        rd: 0,
    },
    Instr::R3 {
        m: R3Op::Movz,
        rs: 0,
        rt: 0,
        rd: 0,
    },
    Instr::R3 {
        m: R3Op::Movn,
        rs: 0,
        rt: 0,
        rd: 0,
    },
    Instr::R3 {
        m: R3Op::Add,
        rs: 0,
        rt: 0,
        rd: 0,
    },
    Instr::R3 {
        m: R3Op::Addu,
        rs: 0,
        rt: 0,
        rd: 0,
    },
    Instr::R3 {
        m: R3Op::Sub,
        rs: 0,
        rt: 0,
        rd: 0,
    },
    Instr::R3 {
        m: R3Op::Subu,
        rs: 0,
        rt: 0,
        rd: 0,
    },
    Instr::R3 {
        m: R3Op::And,
        rs: 0,
        rt: 0,
        rd: 0,
    },
    Instr::R3 {
        m: R3Op::Or,
        rs: 0,
        rt: 0,
        rd: 0,
    },
    Instr::R3 {
        m: R3Op::Xor,
        rs: 0,
        rt: 0,
        rd: 0,
    },
    Instr::R3 {
        m: R3Op::Nor,
        rs: 0,
        rt: 0,
        rd: 0,
    },
    Instr::R3 {
        m: R3Op::Slt,
        rs: 0,
        rt: 0,
        rd: 0,
    },
    Instr::R3 {
        m: R3Op::Sltu,
        rs: 0,
        rt: 0,
        rd: 0,
    },
    Instr::R3 {
        m: R3Op::Mul,
        rs: 0,
        rt: 0,
        rd: 0,
    },
    Instr::Shift {
        m: ShiftOp::Sll,
        rt: 0,
        rd: 0,
        sa: 0,
    },
    Instr::Shift {
        m: ShiftOp::Srl,
        rt: 0,
        rd: 0,
        sa: 0,
    },
    Instr::Shift {
        m: ShiftOp::Sra,
        rt: 0,
        rd: 0,
        sa: 0,
    },
    Instr::Acc {
        m: AccOp::Mult,
        rs: 0,
        rt: 0,
    },
    Instr::Acc {
        m: AccOp::Multu,
        rs: 0,
        rt: 0,
    },
    Instr::Acc {
        m: AccOp::Div,
        rs: 0,
        rt: 0,
    },
    Instr::Acc {
        m: AccOp::Divu,
        rs: 0,
        rt: 0,
    },
    Instr::Acc {
        m: AccOp::Madd,
        rs: 0,
        rt: 0,
    },
    Instr::Acc {
        m: AccOp::Maddu,
        rs: 0,
        rt: 0,
    },
    Instr::Acc {
        m: AccOp::Msub,
        rs: 0,
        rt: 0,
    },
    Instr::Acc {
        m: AccOp::Msubu,
        rs: 0,
        rt: 0,
    },
    Instr::HiLo {
        m: HiLoOp::Mfhi,
        rs: 0,
        rd: 0,
    },
    Instr::HiLo {
        m: HiLoOp::Mflo,
        rs: 0,
        rd: 0,
    },
    Instr::HiLo {
        m: HiLoOp::Mthi,
        rs: 0,
        rd: 0,
    },
    Instr::HiLo {
        m: HiLoOp::Mtlo,
        rs: 0,
        rd: 0,
    },
    Instr::Count {
        m: CountOp::Clz,
        rs: 0,
        rd: 0,
    },
    Instr::Count {
        m: CountOp::Clo,
        rs: 0,
        rd: 0,
    },
    Instr::Imm {
        m: ImmOp::Addi,
        rs: 0,
        rt: 0,
        imm: 0,
    },
    Instr::Imm {
        m: ImmOp::Addiu,
        rs: 0,
        rt: 0,
        imm: 0,
    },
    Instr::Imm {
        m: ImmOp::Slti,
        rs: 0,
        rt: 0,
        imm: 0,
    },
    Instr::Imm {
        m: ImmOp::Sltiu,
        rs: 0,
        rt: 0,
        imm: 0,
    },
    Instr::Imm {
        m: ImmOp::Andi,
        rs: 0,
        rt: 0,
        imm: 0,
    },
    Instr::Imm {
        m: ImmOp::Ori,
        rs: 0,
        rt: 0,
        imm: 0,
    },
    Instr::Imm {
        m: ImmOp::Xori,
        rs: 0,
        rt: 0,
        imm: 0,
    },
    Instr::Lui { rt: 0, imm: 0 },
    Instr::Load {
        m: LoadOp::Lb,
        rs: 0,
        rt: 0,
        off: 0,
    },
    Instr::Load {
        m: LoadOp::Lh,
        rs: 0,
        rt: 0,
        off: 0,
    },
    Instr::Load {
        m: LoadOp::Lwl,
        rs: 0,
        rt: 0,
        off: 0,
    },
    Instr::Load {
        m: LoadOp::Lw,
        rs: 0,
        rt: 0,
        off: 0,
    },
    Instr::Load {
        m: LoadOp::Lbu,
        rs: 0,
        rt: 0,
        off: 0,
    },
    Instr::Load {
        m: LoadOp::Lhu,
        rs: 0,
        rt: 0,
        off: 0,
    },
    Instr::Load {
        m: LoadOp::Lwr,
        rs: 0,
        rt: 0,
        off: 0,
    },
    Instr::Store {
        m: StoreOp::Sb,
        rs: 0,
        rt: 0,
        off: 0,
    },
    Instr::Store {
        m: StoreOp::Sh,
        rs: 0,
        rt: 0,
        off: 0,
    },
    Instr::Store {
        m: StoreOp::Swl,
        rs: 0,
        rt: 0,
        off: 0,
    },
    Instr::Store {
        m: StoreOp::Sw,
        rs: 0,
        rt: 0,
        off: 0,
    },
    Instr::Store {
        m: StoreOp::Swr,
        rs: 0,
        rt: 0,
        off: 0,
    },
    Instr::Pref {
        rs: 0,
        hint: 0,
        off: 0,
    },
    Instr::Branch2 {
        m: Branch2Op::Beq,
        rs: 0,
        rt: 0,
        off: 0,
    },
    Instr::Branch2 {
        m: Branch2Op::Bne,
        rs: 0,
        rt: 0,
        off: 0,
    },
    Instr::Branch1 {
        m: Branch1Op::Blez,
        rs: 0,
        off: 0,
    },
    Instr::Branch1 {
        m: Branch1Op::Bgtz,
        rs: 0,
        off: 0,
    },
    Instr::Branch1 {
        m: Branch1Op::Bltz,
        rs: 0,
        off: 0,
    },
    Instr::Branch1 {
        m: Branch1Op::Bgez,
        rs: 0,
        off: 0,
    },
    Instr::Branch1 {
        m: Branch1Op::Bltzal,
        rs: 0,
        off: 0,
    },
    Instr::Branch1 {
        m: Branch1Op::Bgezal,
        rs: 0,
        off: 0,
    },
    Instr::Jump {
        m: JumpOp::J,
        target: 0,
    },
    Instr::Jump {
        m: JumpOp::Jal,
        target: 0,
    },
    Instr::Jr { rs: 0 },
    Instr::Jalr { rs: 0, rd: 0 },
    Instr::TrapIf {
        m: TrapIfOp::Tge,
        rs: 0,
        rt: 0,
        code: 0,
    },
    Instr::TrapIf {
        m: TrapIfOp::Tgeu,
        rs: 0,
        rt: 0,
        code: 0,
    },
    Instr::TrapIf {
        m: TrapIfOp::Tlt,
        rs: 0,
        rt: 0,
        code: 0,
    },
    Instr::TrapIf {
        m: TrapIfOp::Tltu,
        rs: 0,
        rt: 0,
        code: 0,
    },
    Instr::TrapIf {
        m: TrapIfOp::Teq,
        rs: 0,
        rt: 0,
        code: 0,
    },
    Instr::TrapIf {
        m: TrapIfOp::Tne,
        rs: 0,
        rt: 0,
        code: 0,
    },
    Instr::Stop {
        m: StopOp::Syscall,
        code: 0,
    },
    Instr::Stop {
        m: StopOp::Break,
        code: 0,
    },
    Instr::Sync { stype: 0 },
];

/// One instruction of each mnemonic, with zeros in its fields.
pub(crate) fn templates() -> &'static [Instr]
    ensures { HasEachMnemonic result.now }
{
    &TEMPLATES
}
