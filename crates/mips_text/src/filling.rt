// Instructions by their forms and operands.
ghost use Rattle.std.specs.Prelude.{◌≡◌, ◌<◌, ◌^◌};
ghost use Rattle.mips_text.specs.Forms.{FormFits};
ghost use Rattle.mips_text.specs.Templates as templates;

use crate::form::{Form, Operand};
use mips_isa::{HiLoOp, ImmOp, Instr, R3Op};

fn immediate_kind(m: ImmOp) -> Operand
    ensures { result ≡ templates.immediate_kind m }
{
    match m {
        ImmOp::Andi | ImmOp::Ori | ImmOp::Xori => Operand::Number { most: 0xffff },
        _ => Operand::Signed,
    }
}

/// The form of an instruction's text.
#[tactic(auto, unfolding(crate::specs::Templates::form_of))]
pub(crate) fn form_of(i: Instr) -> Form
    ensures { result ≡ templates.form_of i }
{
    let register = Operand::Register;
    let five_bits = Operand::Number { most: 31 };
    match i {
        Instr::R3 { .. } => Form::Three(register, register, register),
        Instr::Shift { .. } => Form::Three(register, register, five_bits),
        Instr::Imm { m, .. } => Form::Three(register, register, immediate_kind(m)),
        Instr::Branch2 { .. } => Form::Three(register, register, Operand::Branch),
        Instr::TrapIf { .. } => Form::Three(register, register, Operand::Number { most: 1023 }),
        Instr::Acc { .. } | Instr::Count { .. } | Instr::Jalr { .. } => Form::Two(
            register, register,
        ),
        Instr::Lui { .. } => Form::Two(register, Operand::Number { most: 0xffff }),
        Instr::Branch1 { .. } => Form::Two(register, Operand::Branch),
        Instr::Load { .. } | Instr::Store { .. } => Form::Based(register),
        Instr::Pref { .. } => Form::Based(five_bits),
        Instr::HiLo { .. } | Instr::Jr { .. } => Form::One(register),
        Instr::Jump { .. } => Form::One(Operand::Jump),
        Instr::Stop { .. } => Form::One(Operand::Number { most: 0xf_ffff }),
        Instr::Sync { .. } => Form::One(five_bits),
    }
}

fn filled_r3(m: R3Op, a: u32, b: u32, c: u32) -> Instr
    requires a { a < 32 }
    requires b { b < 32 }
    requires c { c < 32 }
    ensures { result ≡ templates.filled_r3 m a b c }
{
    let (a, b, c) = (a as u8, b as u8, c as u8);
    match m {
        R3Op::Sllv | R3Op::Srlv | R3Op::Srav => Instr::R3 {
            m,
            rs: c,
            rt: b,
            rd: a,
        },
        _ => Instr::R3 {
            m,
            rs: b,
            rt: c,
            rd: a,
        },
    }
}

fn filled_hi_lo(m: HiLoOp, a: u32) -> Instr
    requires { a < 32 }
    ensures { result ≡ templates.filled_hi_lo m a }
{
    let a = a as u8;
    match m {
        HiLoOp::Mfhi | HiLoOp::Mflo => Instr::HiLo { m, rs: 0, rd: a },
        HiLoOp::Mthi | HiLoOp::Mtlo => Instr::HiLo { m, rs: a, rd: 0 },
    }
}

/// The instruction of the same mnemonic with these operands, in the order of its text.
#[tactic(auto, unfolding(crate::specs::Templates::form_of, crate::specs::Templates::filled))]
pub(crate) fn filled(i: Instr, a: u32, b: u32, c: u32) -> Instr
    requires { FormFits (templates.form_of i) a b c }
    ensures { result ≡ templates.filled i a b c }
{
    match i {
        Instr::R3 { m, .. } => filled_r3(m, a, b, c),
        Instr::Shift { m, .. } => Instr::Shift {
            m,
            rt: b as u8,
            rd: a as u8,
            sa: c as u8,
        },
        Instr::Acc { m, .. } => Instr::Acc {
            m,
            rs: a as u8,
            rt: b as u8,
        },
        Instr::HiLo { m, .. } => filled_hi_lo(m, a),
        Instr::Count { m, .. } => Instr::Count {
            m,
            rs: b as u8,
            rd: a as u8,
        },
        Instr::Imm { m, .. } => Instr::Imm {
            m,
            rs: b as u8,
            rt: a as u8,
            imm: c as u16,
        },
        Instr::Lui { .. } => Instr::Lui {
            rt: a as u8,
            imm: b as u16,
        },
        Instr::Load { m, .. } => Instr::Load {
            m,
            rs: c as u8,
            rt: a as u8,
            off: b as u16,
        },
        Instr::Store { m, .. } => Instr::Store {
            m,
            rs: c as u8,
            rt: a as u8,
            off: b as u16,
        },
        Instr::Pref { .. } => Instr::Pref {
            rs: c as u8,
            hint: a as u8,
            off: b as u16,
        },
        Instr::Branch2 { m, .. } => Instr::Branch2 {
            m,
            rs: a as u8,
            rt: b as u8,
            off: c as u16,
        },
        Instr::Branch1 { m, .. } => Instr::Branch1 {
            m,
            rs: a as u8,
            off: b as u16,
        },
        Instr::Jump { m, .. } => Instr::Jump { m, target: a },
        Instr::Jr { .. } => Instr::Jr { rs: a as u8 },
        Instr::Jalr { .. } => Instr::Jalr {
            rs: b as u8,
            rd: a as u8,
        },
        Instr::TrapIf { m, .. } => Instr::TrapIf {
            m,
            rs: a as u8,
            rt: b as u8,
            code: c,
        },
        Instr::Stop { m, .. } => Instr::Stop { m, code: a },
        Instr::Sync { .. } => Instr::Sync { stype: a as u8 },
    }
}
