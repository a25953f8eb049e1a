//! The codes of the instructions: of each member its op, bits 31 to 26 of the word, and the number
//! that tells it from the others of that op.

ghost use Rattle.std.specs.Prelude.{◌≡◌, ◌<◌};
ghost use Rattle.mips_isa.specs.Codes as codes;

use crate::instr::{
    AccOp, Branch1Op, Branch2Op, CountOp, HiLoOp, ImmOp, JumpOp, LoadOp, R3Op, ShiftOp, StopOp,
    StoreOp, TrapIfOp,
};

/// An op and a number within it: `funct` in SPECIAL (op 00) and SPECIAL2 (op 1c), the field `rt` in
/// REGIMM (op 01) and for blez and bgtz, else 0.
pub type Code = (u8, u8);

// the groups of one member
pub const LUI: Code = (0x0f, 0x00);

pub const PREF: Code = (0x33, 0x00);

pub const JR: Code = (0x00, 0x08);

pub const JALR: Code = (0x00, 0x09);

pub const SYNC: Code = (0x00, 0x0f);

pub fn r3_at(op: u8, part: u8) -> Option<R3Op>
    ensures { result ≡ codes.r3_at op part }
{
    match (op, part) {
        (0x00, 0x04) => Some(R3Op::Sllv),
        (0x00, 0x06) => Some(R3Op::Srlv),
        (0x00, 0x07) => Some(R3Op::Srav),
        (0x00, 0x0a) => Some(R3Op::Movz),
        (0x00, 0x0b) => Some(R3Op::Movn),
        (0x00, 0x20) => Some(R3Op::Add),
        (0x00, 0x21) => Some(R3Op::Addu),
        (0x00, 0x22) => Some(R3Op::Sub),
        (0x00, 0x23) => Some(R3Op::Subu),
        (0x00, 0x24) => Some(R3Op::And),
        (0x00, 0x25) => Some(R3Op::Or),
        (0x00, 0x26) => Some(R3Op::Xor),
        (0x00, 0x27) => Some(R3Op::Nor),
        (0x00, 0x2a) => Some(R3Op::Slt),
        (0x00, 0x2b) => Some(R3Op::Sltu),
        (0x1c, 0x02) => Some(R3Op::Mul),
        _ => None,
    }
}

pub fn r3_code(m: R3Op) -> Code
    ensures value { result ≡ codes.r3_code m }
    ensures op_fits { result.0 < 64 }
    ensures part_fits { result.1 < 64 }
{
    match m {
        R3Op::Sllv => (0x00, 0x04),
        R3Op::Srlv => (0x00, 0x06),
        R3Op::Srav => (0x00, 0x07),
        R3Op::Movz => (0x00, 0x0a),
        R3Op::Movn => (0x00, 0x0b),
        R3Op::Add => (0x00, 0x20),
        R3Op::Addu => (0x00, 0x21),
        R3Op::Sub => (0x00, 0x22),
        R3Op::Subu => (0x00, 0x23),
        R3Op::And => (0x00, 0x24),
        R3Op::Or => (0x00, 0x25),
        R3Op::Xor => (0x00, 0x26),
        R3Op::Nor => (0x00, 0x27),
        R3Op::Slt => (0x00, 0x2a),
        R3Op::Sltu => (0x00, 0x2b),
        R3Op::Mul => (0x1c, 0x02),
    }
}

pub fn shift_at(op: u8, part: u8) -> Option<ShiftOp>
    ensures { result ≡ codes.shift_at op part }
{
    match (op, part) {
        (0x00, 0x00) => Some(ShiftOp::Sll),
        (0x00, 0x02) => Some(ShiftOp::Srl),
        (0x00, 0x03) => Some(ShiftOp::Sra),
        _ => None,
    }
}

pub fn shift_code(m: ShiftOp) -> Code
    ensures value { result ≡ codes.shift_code m }
    ensures op_fits { result.0 < 64 }
    ensures part_fits { result.1 < 64 }
{
    match m {
        ShiftOp::Sll => (0x00, 0x00),
        ShiftOp::Srl => (0x00, 0x02),
        ShiftOp::Sra => (0x00, 0x03),
    }
}

pub fn acc_at(op: u8, part: u8) -> Option<AccOp>
    ensures { result ≡ codes.acc_at op part }
{
    match (op, part) {
        (0x00, 0x18) => Some(AccOp::Mult),
        (0x00, 0x19) => Some(AccOp::Multu),
        (0x00, 0x1a) => Some(AccOp::Div),
        (0x00, 0x1b) => Some(AccOp::Divu),
        (0x1c, 0x00) => Some(AccOp::Madd),
        (0x1c, 0x01) => Some(AccOp::Maddu),
        (0x1c, 0x04) => Some(AccOp::Msub),
        (0x1c, 0x05) => Some(AccOp::Msubu),
        _ => None,
    }
}

pub fn acc_code(m: AccOp) -> Code
    ensures value { result ≡ codes.acc_code m }
    ensures op_fits { result.0 < 64 }
    ensures part_fits { result.1 < 64 }
{
    match m {
        AccOp::Mult => (0x00, 0x18),
        AccOp::Multu => (0x00, 0x19),
        AccOp::Div => (0x00, 0x1a),
        AccOp::Divu => (0x00, 0x1b),
        AccOp::Madd => (0x1c, 0x00),
        AccOp::Maddu => (0x1c, 0x01),
        AccOp::Msub => (0x1c, 0x04),
        AccOp::Msubu => (0x1c, 0x05),
    }
}

pub fn hi_lo_at(op: u8, part: u8) -> Option<HiLoOp>
    ensures { result ≡ codes.hi_lo_at op part }
{
    match (op, part) {
        (0x00, 0x10) => Some(HiLoOp::Mfhi),
        (0x00, 0x12) => Some(HiLoOp::Mflo),
        (0x00, 0x11) => Some(HiLoOp::Mthi),
        (0x00, 0x13) => Some(HiLoOp::Mtlo),
        _ => None,
    }
}

pub fn hi_lo_code(m: HiLoOp) -> Code
    ensures value { result ≡ codes.hi_lo_code m }
    ensures op_fits { result.0 < 64 }
    ensures part_fits { result.1 < 64 }
{
    match m {
        HiLoOp::Mfhi => (0x00, 0x10),
        HiLoOp::Mflo => (0x00, 0x12),
        HiLoOp::Mthi => (0x00, 0x11),
        HiLoOp::Mtlo => (0x00, 0x13),
    }
}

pub fn count_at(op: u8, part: u8) -> Option<CountOp>
    ensures { result ≡ codes.count_at op part }
{
    match (op, part) {
        (0x1c, 0x20) => Some(CountOp::Clz),
        (0x1c, 0x21) => Some(CountOp::Clo),
        _ => None,
    }
}

pub fn count_code(m: CountOp) -> Code
    ensures value { result ≡ codes.count_code m }
    ensures op_fits { result.0 < 64 }
    ensures part_fits { result.1 < 64 }
{
    match m {
        CountOp::Clz => (0x1c, 0x20),
        CountOp::Clo => (0x1c, 0x21),
    }
}

pub fn imm_at(op: u8, part: u8) -> Option<ImmOp>
    ensures { result ≡ codes.imm_at op part }
{
    match (op, part) {
        (0x08, 0x00) => Some(ImmOp::Addi),
        (0x09, 0x00) => Some(ImmOp::Addiu),
        (0x0a, 0x00) => Some(ImmOp::Slti),
        (0x0b, 0x00) => Some(ImmOp::Sltiu),
        (0x0c, 0x00) => Some(ImmOp::Andi),
        (0x0d, 0x00) => Some(ImmOp::Ori),
        (0x0e, 0x00) => Some(ImmOp::Xori),
        _ => None,
    }
}

pub fn imm_code(m: ImmOp) -> Code
    ensures value { result ≡ codes.imm_code m }
    ensures op_fits { result.0 < 64 }
    ensures part_fits { result.1 < 64 }
{
    match m {
        ImmOp::Addi => (0x08, 0x00),
        ImmOp::Addiu => (0x09, 0x00),
        ImmOp::Slti => (0x0a, 0x00),
        ImmOp::Sltiu => (0x0b, 0x00),
        ImmOp::Andi => (0x0c, 0x00),
        ImmOp::Ori => (0x0d, 0x00),
        ImmOp::Xori => (0x0e, 0x00),
    }
}

pub fn load_at(op: u8, part: u8) -> Option<LoadOp>
    ensures { result ≡ codes.load_at op part }
{
    match (op, part) {
        (0x20, 0x00) => Some(LoadOp::Lb),
        (0x21, 0x00) => Some(LoadOp::Lh),
        (0x22, 0x00) => Some(LoadOp::Lwl),
        (0x23, 0x00) => Some(LoadOp::Lw),
        (0x24, 0x00) => Some(LoadOp::Lbu),
        (0x25, 0x00) => Some(LoadOp::Lhu),
        (0x26, 0x00) => Some(LoadOp::Lwr),
        _ => None,
    }
}

pub fn load_code(m: LoadOp) -> Code
    ensures value { result ≡ codes.load_code m }
    ensures op_fits { result.0 < 64 }
    ensures part_fits { result.1 < 64 }
{
    match m {
        LoadOp::Lb => (0x20, 0x00),
        LoadOp::Lh => (0x21, 0x00),
        LoadOp::Lwl => (0x22, 0x00),
        LoadOp::Lw => (0x23, 0x00),
        LoadOp::Lbu => (0x24, 0x00),
        LoadOp::Lhu => (0x25, 0x00),
        LoadOp::Lwr => (0x26, 0x00),
    }
}

pub fn store_at(op: u8, part: u8) -> Option<StoreOp>
    ensures { result ≡ codes.store_at op part }
{
    match (op, part) {
        (0x28, 0x00) => Some(StoreOp::Sb),
        (0x29, 0x00) => Some(StoreOp::Sh),
        (0x2a, 0x00) => Some(StoreOp::Swl),
        (0x2b, 0x00) => Some(StoreOp::Sw),
        (0x2e, 0x00) => Some(StoreOp::Swr),
        _ => None,
    }
}

pub fn store_code(m: StoreOp) -> Code
    ensures value { result ≡ codes.store_code m }
    ensures op_fits { result.0 < 64 }
    ensures part_fits { result.1 < 64 }
{
    match m {
        StoreOp::Sb => (0x28, 0x00),
        StoreOp::Sh => (0x29, 0x00),
        StoreOp::Swl => (0x2a, 0x00),
        StoreOp::Sw => (0x2b, 0x00),
        StoreOp::Swr => (0x2e, 0x00),
    }
}

pub fn branch2_at(op: u8, part: u8) -> Option<Branch2Op>
    ensures { result ≡ codes.branch2_at op part }
{
    match (op, part) {
        (0x04, 0x00) => Some(Branch2Op::Beq),
        (0x05, 0x00) => Some(Branch2Op::Bne),
        _ => None,
    }
}

pub fn branch2_code(m: Branch2Op) -> Code
    ensures value { result ≡ codes.branch2_code m }
    ensures op_fits { result.0 < 64 }
    ensures part_fits { result.1 < 64 }
{
    match m {
        Branch2Op::Beq => (0x04, 0x00),
        Branch2Op::Bne => (0x05, 0x00),
    }
}

pub fn branch1_at(op: u8, part: u8) -> Option<Branch1Op>
    ensures { result ≡ codes.branch1_at op part }
{
    match (op, part) {
        (0x06, 0x00) => Some(Branch1Op::Blez),
        (0x07, 0x00) => Some(Branch1Op::Bgtz),
        (0x01, 0x00) => Some(Branch1Op::Bltz),
        (0x01, 0x01) => Some(Branch1Op::Bgez),
        (0x01, 0x10) => Some(Branch1Op::Bltzal),
        (0x01, 0x11) => Some(Branch1Op::Bgezal),
        _ => None,
    }
}

pub fn branch1_code(m: Branch1Op) -> Code
    ensures value { result ≡ codes.branch1_code m }
    ensures op_fits { result.0 < 64 }
    ensures part_fits { result.1 < 32 }
{
    match m {
        Branch1Op::Blez => (0x06, 0x00),
        Branch1Op::Bgtz => (0x07, 0x00),
        Branch1Op::Bltz => (0x01, 0x00),
        Branch1Op::Bgez => (0x01, 0x01),
        Branch1Op::Bltzal => (0x01, 0x10),
        Branch1Op::Bgezal => (0x01, 0x11),
    }
}

pub fn jump_at(op: u8, part: u8) -> Option<JumpOp>
    ensures { result ≡ codes.jump_at op part }
{
    match (op, part) {
        (0x02, 0x00) => Some(JumpOp::J),
        (0x03, 0x00) => Some(JumpOp::Jal),
        _ => None,
    }
}

pub fn jump_code(m: JumpOp) -> Code
    ensures value { result ≡ codes.jump_code m }
    ensures op_fits { result.0 < 64 }
    ensures part_fits { result.1 < 64 }
{
    match m {
        JumpOp::J => (0x02, 0x00),
        JumpOp::Jal => (0x03, 0x00),
    }
}

pub fn trap_if_at(op: u8, part: u8) -> Option<TrapIfOp>
    ensures { result ≡ codes.trap_if_at op part }
{
    match (op, part) {
        (0x00, 0x30) => Some(TrapIfOp::Tge),
        (0x00, 0x31) => Some(TrapIfOp::Tgeu),
        (0x00, 0x32) => Some(TrapIfOp::Tlt),
        (0x00, 0x33) => Some(TrapIfOp::Tltu),
        (0x00, 0x34) => Some(TrapIfOp::Teq),
        (0x00, 0x36) => Some(TrapIfOp::Tne),
        _ => None,
    }
}

pub fn trap_if_code(m: TrapIfOp) -> Code
    ensures value { result ≡ codes.trap_if_code m }
    ensures op_fits { result.0 < 64 }
    ensures part_fits { result.1 < 64 }
{
    match m {
        TrapIfOp::Tge => (0x00, 0x30),
        TrapIfOp::Tgeu => (0x00, 0x31),
        TrapIfOp::Tlt => (0x00, 0x32),
        TrapIfOp::Tltu => (0x00, 0x33),
        TrapIfOp::Teq => (0x00, 0x34),
        TrapIfOp::Tne => (0x00, 0x36),
    }
}

pub fn stop_at(op: u8, part: u8) -> Option<StopOp>
    ensures { result ≡ codes.stop_at op part }
{
    match (op, part) {
        (0x00, 0x0c) => Some(StopOp::Syscall),
        (0x00, 0x0d) => Some(StopOp::Break),
        _ => None,
    }
}

pub fn stop_code(m: StopOp) -> Code
    ensures value { result ≡ codes.stop_code m }
    ensures op_fits { result.0 < 64 }
    ensures part_fits { result.1 < 64 }
{
    match m {
        StopOp::Syscall => (0x00, 0x0c),
        StopOp::Break => (0x00, 0x0d),
    }
}
