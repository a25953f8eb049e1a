// Reading operands.
ghost use Rattle.std.specs.Prelude.{◌≡◌, ◌%◌, ℕ, IfOk, IfErr};
ghost use Rattle.mips_text.specs.Faults.{IsFault};
ghost use Rattle.mips_text.specs.Forms.{IsOperand, IsOperandRead, OpensOperand};
ghost use Rattle.mips_text.specs.declared.form.Operand.TheVariants as o;

use crate::form::Operand;
use crate::number::number;
use crate::target::target_end;
use crate::word::word;

/// The value of an operand that a text begins with, and the text after it. Err has the text from the byte on with which no text of
/// the operand goes on. Takes no memory.
pub(crate) fn operand(kind: Operand, at: u32, text: &[u8]) -> Result<(u32, &[u8]), &[u8]>
    requires { at % 4 ≡ 0 }
    ensures found { IfOk result (λ p. IsOperandRead kind at text.now p.0 p.1.now) }
    ensures fault { IfErr result (λ rest. IsFault (IsOperand kind at) (OpensOperand kind at) text.now rest.now) }
{
    match kind {
        Operand::Register => register(text),
        Operand::Number { most } => plain(most, text),
        Operand::Signed => signed(text),
        Operand::Branch => branch(at, text),
        Operand::Jump => jump(at, text),
    }
}

fn plain(most: u32, text: &[u8]) -> Result<(u32, &[u8]), &[u8]>
    ensures found { (at : ℕ) → IfOk result (λ p. IsOperandRead (o.Number most) at text.now p.0 p.1.now) }
    ensures fault { (at : ℕ) → IfErr result (λ rest. IsFault (IsOperand (o.Number most) at) (OpensOperand (o.Number most) at) text.now rest.now) }
{
    let (value, rest) = number(0, most, text)?;
    Ok((value, rest))
}

fn register(text: &[u8]) -> Result<(u32, &[u8]), &[u8]>
    ensures found { (at : ℕ) → IfOk result (λ p. IsOperandRead o.Register at text.now p.0 p.1.now) }
    ensures fault { (at : ℕ) → IfErr result (λ rest. IsFault (IsOperand o.Register at) (OpensOperand o.Register at) text.now rest.now) }
{
    let digits = word(b"$", text)?;
    let (value, rest) = number(0, 31, digits)?;
    Ok((value, rest))
}

fn signed(text: &[u8]) -> Result<(u32, &[u8]), &[u8]>
    ensures found { (at : ℕ) → IfOk result (λ p. IsOperandRead o.Signed at text.now p.0 p.1.now) }
    ensures fault { (at : ℕ) → IfErr result (λ rest. IsFault (IsOperand o.Signed at) (OpensOperand o.Signed at) text.now rest.now) }
{
    match word(b"-", text) {
        Ok(digits) => {
            let (size, rest) = number(1, 0x8000, digits)?;
            Ok((0x1_0000 - size, rest))
        }
        Err(_) => {
            let (value, rest) = number(0, 0x7fff, text)?;
            Ok((value, rest))
        }
    }
}

fn branch(at: u32, text: &[u8]) -> Result<(u32, &[u8]), &[u8]>
    requires { at % 4 ≡ 0 }
    ensures found { IfOk result (λ p. IsOperandRead o.Branch at text.now p.0 p.1.now) }
    ensures fault { IfErr result (λ rest. IsFault (IsOperand o.Branch at) (OpensOperand o.Branch at) text.now rest.now) }
{
    let slot = at.wrapping_add(4);
    let (target, rest) = target_end(slot.wrapping_sub(0x2_0000), 0x4_0000, 8, 0, text)?;
    Ok((target.wrapping_sub(slot) / 4 % 0x1_0000, rest))
}

fn jump(at: u32, text: &[u8]) -> Result<(u32, &[u8]), &[u8]>
    requires { at % 4 ≡ 0 }
    ensures found { IfOk result (λ p. IsOperandRead o.Jump at text.now p.0 p.1.now) }
    ensures fault { IfErr result (λ rest. IsFault (IsOperand o.Jump at) (OpensOperand o.Jump at) text.now rest.now) }
{
    let first = at.wrapping_add(4) >> 28 << 28;
    let (target, rest) = target_end(first, 0x1000_0000, 8, 0, text)?;
    Ok((target.wrapping_sub(first) / 4, rest))
}
