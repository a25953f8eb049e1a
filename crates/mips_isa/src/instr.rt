// The instructions, in groups of one form each. Source: MIPS32 Architecture For Programmers, volume
// II, release 1.

/// Three registers, opcode SPECIAL (mul: SPECIAL2).
#[derive(Clone, Copy, Debug, PartialEq, Eq)]
pub enum R3Op {
    Sllv,
    Srlv,
    Srav,
    Movz,
    Movn,
    Add,
    Addu,
    Sub,
    Subu,
    And,
    Or,
    Xor,
    Nor,
    Slt,
    Sltu,
    Mul,
}

/// A shift by a constant.
#[derive(Clone, Copy, Debug, PartialEq, Eq)]
pub enum ShiftOp {
    Sll,
    Srl,
    Sra,
}

/// A product or quotient into the pair HI and LO, or a product added to the pair.
#[derive(Clone, Copy, Debug, PartialEq, Eq)]
pub enum AccOp {
    Mult,
    Multu,
    Div,
    Divu,
    Madd,
    Maddu,
    Msub,
    Msubu,
}

/// A move from or to HI or LO.
#[derive(Clone, Copy, Debug, PartialEq, Eq)]
pub enum HiLoOp {
    Mfhi,
    Mflo,
    Mthi,
    Mtlo,
}

/// A count of leading zeros or ones.
#[derive(Clone, Copy, Debug, PartialEq, Eq)]
pub enum CountOp {
    Clz,
    Clo,
}

/// A register and a constant of sixteen bits.
#[derive(Clone, Copy, Debug, PartialEq, Eq)]
pub enum ImmOp {
    Addi,
    Addiu,
    Slti,
    Sltiu,
    Andi,
    Ori,
    Xori,
}

#[derive(Clone, Copy, Debug, PartialEq, Eq)]
pub enum LoadOp {
    Lb,
    Lh,
    Lwl,
    Lw,
    Lbu,
    Lhu,
    Lwr,
}

#[derive(Clone, Copy, Debug, PartialEq, Eq)]
pub enum StoreOp {
    Sb,
    Sh,
    Swl,
    Sw,
    Swr,
}

/// A branch that compares two registers.
#[derive(Clone, Copy, Debug, PartialEq, Eq)]
pub enum Branch2Op {
    Beq,
    Bne,
}

/// A branch that compares a register with zero; the last two link.
#[derive(Clone, Copy, Debug, PartialEq, Eq)]
pub enum Branch1Op {
    Blez,
    Bgtz,
    Bltz,
    Bgez,
    Bltzal,
    Bgezal,
}

#[derive(Clone, Copy, Debug, PartialEq, Eq)]
pub enum JumpOp {
    J,
    Jal,
}

/// A trap where a comparison of two registers holds.
#[derive(Clone, Copy, Debug, PartialEq, Eq)]
pub enum TrapIfOp {
    Tge,
    Tgeu,
    Tlt,
    Tltu,
    Teq,
    Tne,
}

#[derive(Clone, Copy, Debug, PartialEq, Eq)]
pub enum StopOp {
    Syscall,
    Break,
}

/// An instruction. `rs`, `rt`, `rd` and `sa` are the five-bit fields of the word under these names,
/// `imm` and `off` its low sixteen bits, `target` its low 26, `code` the code of a trap (ten bits)
/// or stop (twenty).
#[derive(Clone, Copy, Debug, PartialEq, Eq)]
pub enum Instr {
    R3 {
        m: R3Op,
        rs: u8,
        rt: u8,
        rd: u8,
    },
    Shift {
        m: ShiftOp,
        rt: u8,
        rd: u8,
        sa: u8,
    },
    Acc {
        m: AccOp,
        rs: u8,
        rt: u8,
    },
    /// The field that the member doesn't use is 0.
    HiLo {
        m: HiLoOp,
        rs: u8,
        rd: u8,
    },
    Count {
        m: CountOp,
        rs: u8,
        rd: u8,
    },
    Imm {
        m: ImmOp,
        rs: u8,
        rt: u8,
        imm: u16,
    },
    Lui {
        rt: u8,
        imm: u16,
    },
    /// `rs` is the base.
    Load {
        m: LoadOp,
        rs: u8,
        rt: u8,
        off: u16,
    },
    /// `rs` is the base.
    Store {
        m: StoreOp,
        rs: u8,
        rt: u8,
        off: u16,
    },
    Pref {
        rs: u8,
        hint: u8,
        off: u16,
    },
    Branch2 {
        m: Branch2Op,
        rs: u8,
        rt: u8,
        off: u16,
    },
    Branch1 {
        m: Branch1Op,
        rs: u8,
        off: u16,
    },
    Jump {
        m: JumpOp,
        target: u32,
    },
    Jr {
        rs: u8,
    },
    Jalr {
        rs: u8,
        rd: u8,
    },
    TrapIf {
        m: TrapIfOp,
        rs: u8,
        rt: u8,
        code: u32,
    },
    Stop {
        m: StopOp,
        code: u32,
    },
    Sync {
        stype: u8,
    },
}

/// What an instruction is to a pipeline and to the analysis of control.
#[derive(Clone, Copy, Debug, PartialEq, Eq)]
pub enum Kind {
    Plain,
    Mul,
    Div,
    Load,
    Store,
    Branch,
    Jump,
    Call,
    Return,
    Indirect,
    Stop,
}
