//! The word of each instruction: its code and its fields at their places.

ghost use Rattle.std.specs.Prelude.{◌≡◌, ◌+◌, ◌*◌, ◌<◌, ◌^◌};
ghost use Rattle.mips_isa.specs.Encoding as words;
ghost use Rattle.mips_isa.specs.Codes.{hi_lo_code};
ghost use Rattle.mips_isa.specs.Fits.{FieldsFit};

use crate::codes::{self, Code};
use crate::instr::{HiLoOp, Instr};

#[tactic(auto, unfolding(crate::specs::Encoding::encode_of))]
pub fn write(i: Instr) -> u32
    requires { FieldsFit i }
    ensures { result ≡ words.encode_of i }
{
    match i {
        Instr::R3 { m, rs, rt, rd } => register_word(codes::r3_code(m), rs, rt, rd, 0),
        Instr::Shift { m, rt, rd, sa } => register_word(codes::shift_code(m), 0, rt, rd, sa),
        Instr::Acc { m, rs, rt } => register_word(codes::acc_code(m), rs, rt, 0, 0),
        Instr::HiLo { m, rs, rd } => pair_move_word(m, rs, rd),
        Instr::Count { m, rs, rd } => register_word(codes::count_code(m), rs, rd, rd, 0),
        Instr::Imm { m, rs, rt, imm } => half_word(codes::imm_code(m).0, rs, rt, imm),
        Instr::Lui { rt, imm } => half_word(codes::LUI.0, 0, rt, imm),
        Instr::Load { m, rs, rt, off } => half_word(codes::load_code(m).0, rs, rt, off),
        Instr::Store { m, rs, rt, off } => half_word(codes::store_code(m).0, rs, rt, off),
        Instr::Pref { rs, hint, off } => half_word(codes::PREF.0, rs, hint, off),
        Instr::Branch2 { m, rs, rt, off } => half_word(codes::branch2_code(m).0, rs, rt, off),
        Instr::Branch1 { m, rs, off } => {
            let (op, part) = codes::branch1_code(m);
            half_word(op, rs, part, off)
        }
        Instr::Jump { m, target } => (u32::from(codes::jump_code(m).0) << 26) + target,
        Instr::Jr { rs } => register_word(codes::JR, rs, 0, 0, 0),
        Instr::Jalr { rs, rd } => register_word(codes::JALR, rs, 0, rd, 0),
        Instr::TrapIf { m, rs, rt, code } => trap_word(codes::trap_if_code(m), rs, rt, code),
        Instr::Stop { m, code } => stop_word(codes::stop_code(m), code),
        Instr::Sync { stype } => register_word(codes::SYNC, 0, 0, 0, stype),
    }
}

fn pair_move_word(m: HiLoOp, rs: u8, rd: u8) -> u32
    requires { FieldsFit (Instr.HiLo m rs rd) }
    ensures { result ≡ words.register_word (hi_lo_code m) rs 0 rd 0 }
{
    register_word(codes::hi_lo_code(m), rs, 0, rd, 0)
}

/// `op`, `rs`, `rt`, `rd`, `sa` and `funct`.
fn register_word(code: Code, rs: u8, rt: u8, rd: u8, sa: u8) -> u32
    requires op_fits { code.0 < 64 }
    requires funct_fits { code.1 < 64 }
    requires rs_fits { rs < 32 }
    requires rt_fits { rt < 32 }
    requires rd_fits { rd < 32 }
    requires sa_fits { sa < 32 }
    ensures { result ≡ words.register_word code rs rt rd sa }
{
    (u32::from(code.0) << 26)
        + (u32::from(rs) << 21)
        + (u32::from(rt) << 16)
        + (u32::from(rd) << 11)
        + (u32::from(sa) << 6)
        + u32::from(code.1)
}

/// `op`, `rs`, `rt` and the low sixteen bits.
fn half_word(op: u8, rs: u8, rt: u8, half: u16) -> u32
    requires op_fits { op < 64 }
    requires rs_fits { rs < 32 }
    requires rt_fits { rt < 32 }
    ensures { result ≡ words.half_word op rs rt half }
{
    (u32::from(op) << 26) + (u32::from(rs) << 21) + (u32::from(rt) << 16) + u32::from(half)
}

/// `op`, `rs`, `rt`, ten bits of code and `funct`.
fn trap_word(member: Code, rs: u8, rt: u8, code: u32) -> u32
    requires op_fits { member.0 < 64 }
    requires funct_fits { member.1 < 64 }
    requires rs_fits { rs < 32 }
    requires rt_fits { rt < 32 }
    requires code_fits { code < 2 ^ 10 }
    ensures { result ≡ member.0 * 2 ^ 26 + rs * 2 ^ 21 + rt * 2 ^ 16 + code * 2 ^ 6 + member.1 }
{
    (u32::from(member.0) << 26)
        + (u32::from(rs) << 21)
        + (u32::from(rt) << 16)
        + (code << 6)
        + u32::from(member.1)
}

/// `op`, twenty bits of code and `funct`.
fn stop_word(member: Code, code: u32) -> u32
    requires op_fits { member.0 < 64 }
    requires funct_fits { member.1 < 64 }
    requires code_fits { code < 2 ^ 20 }
    ensures { result ≡ member.0 * 2 ^ 26 + code * 2 ^ 6 + member.1 }
{
    (u32::from(member.0) << 26) + (code << 6) + u32::from(member.1)
}
