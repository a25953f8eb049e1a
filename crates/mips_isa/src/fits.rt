ghost use Rattle.std.specs.Prelude.{◌↔◌, IsTrue};
ghost use Rattle.mips_isa.specs.Fits.{FieldsFit};

use crate::instr::{HiLoOp, Instr};

impl Instr {
    /// Whether each field is as narrow as its place in the word, so that the instruction has a
    /// word.
    pub fn fits(&self) -> bool
        ensures { IsTrue result ↔ FieldsFit self.now }
    {
        fields_fit(*self)
    }
}

fn fields_fit(i: Instr) -> bool
    ensures { IsTrue result ↔ FieldsFit i }
{
    match i {
        Instr::R3 { rs, rt, rd, .. } => rs < 32 && rt < 32 && rd < 32,
        Instr::Shift { rt, rd, sa, .. } => rt < 32 && rd < 32 && sa < 32,
        Instr::Acc { rs, rt, .. } => rs < 32 && rt < 32,
        Instr::HiLo { m, rs, rd } => pair_move_fits(m, rs, rd),
        Instr::Count { rs, rd, .. } => rs < 32 && rd < 32,
        Instr::Imm { rs, rt, .. } => rs < 32 && rt < 32,
        Instr::Lui { rt, .. } => rt < 32,
        Instr::Load { rs, rt, .. } => rs < 32 && rt < 32,
        Instr::Store { rs, rt, .. } => rs < 32 && rt < 32,
        Instr::Pref { rs, hint, .. } => rs < 32 && hint < 32,
        Instr::Branch2 { rs, rt, .. } => rs < 32 && rt < 32,
        Instr::Branch1 { rs, .. } => rs < 32,
        Instr::Jump { target, .. } => target < 1 << 26,
        Instr::Jr { rs } => rs < 32,
        Instr::Jalr { rs, rd } => rs < 32 && rd < 32,
        Instr::TrapIf { rs, rt, code, .. } => rs < 32 && rt < 32 && code < 1 << 10,
        Instr::Stop { code, .. } => code < 1 << 20,
        Instr::Sync { stype } => stype < 32,
    }
}

fn pair_move_fits(m: HiLoOp, rs: u8, rd: u8) -> bool
    ensures { IsTrue result ↔ FieldsFit (Instr.HiLo m rs rd) }
{
    match m {
        HiLoOp::Mfhi | HiLoOp::Mflo => rs == 0 && rd < 32,
        HiLoOp::Mthi | HiLoOp::Mtlo => rs < 32 && rd == 0,
    }
}
