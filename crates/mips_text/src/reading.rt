// Reading the operands of a form.
ghost use Rattle.std.specs.Prelude.{◌≡◌, ◌%◌, ◌++◌, [], ◌∷◌, false, IfOk, IfErr};
ghost use Rattle.std.specs.Char.{is_ascii_digit};
ghost use Rattle.mips_text.specs.Faults.{IsFault, IsWord};
ghost use Rattle.mips_text.specs.Forms.{FormFits, IsBased, IsClosed, IsFormText, IsMarked, IsOffset, IsOperand, IsPair, IsTriple, OpensMarked, OperandFits, form_text, operand_text};
ghost use Rattle.mips_text.specs.declared.form.Operand.TheVariants as o;
ghost use Rattle.mips_text.specs.declared.form.Form.TheVariants as f;

use crate::form::{Form, Operand};
use crate::operand::operand;

/// The values of a form's operands, of which a text is the whole; 0 for what the form doesn't have. Err has the text from the byte
/// on with which no text of the form goes on. Takes no memory.
pub(crate) fn operands(form: Form, at: u32, text: &[u8]) -> Result<(u32, u32, u32), &[u8]>
    requires { at % 4 ≡ 0 }
    ensures fits { IfOk result (λ v. FormFits form v.0 v.1 v.2) }
    ensures is { IfOk result (λ v. text.now ≡ form_text form at v.0 v.1 v.2) }
    ensures fault { IfErr result (λ rest. IsFault (IsFormText form at) (IsFormText form at) text.now rest.now) }
{
    match form {
        Form::One(p) => {
            let a = one(p, at, text)?;
            Ok((a, 0, 0))
        }
        Form::Two(p, q) => {
            let (a, b) = two(p, q, at, text)?;
            Ok((a, b, 0))
        }
        Form::Three(p, q, r) => {
            let (a, b, c) = three(p, q, r, at, text)?;
            Ok((a, b, c))
        }
        Form::Based(p) => {
            let (a, offset, base) = based(p, at, text)?;
            Ok((a, offset, base))
        }
    }
}

// An operand that is the whole text.
fn one(kind: Operand, at: u32, text: &[u8]) -> Result<u32, &[u8]>
    requires { at % 4 ≡ 0 }
    ensures fits { IfOk result (λ v. OperandFits kind v) }
    ensures is { IfOk result (λ v. text.now ≡ operand_text kind at v) }
    ensures fault { IfErr result (λ rest. IsFault (IsOperand kind at) (IsOperand kind at) text.now rest.now) }
{
    let (value, rest) = operand(kind, at, text)?;
    if !rest.is_empty() {
        return Err(rest);
    }
    Ok(value)
}

// An operand and a mark, and the text after it.
fn marked(kind: Operand, mark: u8, at: u32, text: &[u8]) -> Result<(u32, &[u8]), &[u8]>
    requires aligned { at % 4 ≡ 0 }
    requires mark { is_ascii_digit mark ≡ false }
    ensures fits { IfOk result (λ p. OperandFits kind p.0) }
    ensures is { IfOk result (λ p. text.now ≡ operand_text kind at p.0 ++ mark ∷ p.1.now) }
    ensures fault { IfErr result (λ rest. IsFault (IsMarked kind mark at) (OpensMarked kind mark at) text.now rest.now) }
{
    let (value, rest) = operand(kind, at, text)?;
    let [first, after @ ..] = rest else {
        return Err(rest);
    };
    if *first != mark {
        return Err(rest);
    }
    Ok((value, after))
}

fn two(p: Operand, q: Operand, at: u32, text: &[u8]) -> Result<(u32, u32), &[u8]>
    requires { at % 4 ≡ 0 }
    ensures fits { IfOk result (λ v. OperandFits p v.0 × OperandFits q v.1) }
    ensures is { IfOk result (λ v. text.now ≡ operand_text p at v.0 ++ 44 ∷ operand_text q at v.1) }
    ensures fault { IfErr result (λ rest. IsFault (IsPair p q at) (IsPair p q at) text.now rest.now) }
{
    let (a, others) = marked(p, b',', at, text)?;
    let b = one(q, at, others)?;
    Ok((a, b))
}

fn three(p: Operand, q: Operand, r: Operand, at: u32, text: &[u8]) -> Result<(u32, u32, u32), &[u8]>
    requires { at % 4 ≡ 0 }
    ensures fits { IfOk result (λ v. FormFits (f.Three p q r) v.0 v.1 v.2) }
    ensures is { IfOk result (λ v. text.now ≡ form_text (f.Three p q r) at v.0 v.1 v.2) }
    ensures fault { IfErr result (λ rest. IsFault (IsTriple p q r at) (IsTriple p q r at) text.now rest.now) }
{
    let (a, others) = marked(p, b',', at, text)?;
    let (b, c) = two(q, r, at, others)?;
    Ok((a, b, c))
}

fn based(p: Operand, at: u32, text: &[u8]) -> Result<(u32, u32, u32), &[u8]>
    requires { at % 4 ≡ 0 }
    ensures fits { IfOk result (λ v. FormFits (f.Based p) v.0 v.1 v.2) }
    ensures is { IfOk result (λ v. text.now ≡ form_text (f.Based p) at v.0 v.1 v.2) }
    ensures fault { IfErr result (λ rest. IsFault (IsBased p at) (IsBased p at) text.now rest.now) }
{
    let (a, others) = marked(p, b',', at, text)?;
    let (off, base) = offset(at, others)?;
    Ok((a, off, base))
}

// An offset, and a base register in parentheses.
fn offset(at: u32, text: &[u8]) -> Result<(u32, u32), &[u8]>
    requires { at % 4 ≡ 0 }
    ensures fits { IfOk result (λ v. OperandFits o.Signed v.0 × OperandFits o.Register v.1) }
    ensures is { IfOk result (λ v. text.now ≡ operand_text o.Signed at v.0 ++ 40 ∷ (operand_text o.Register at v.1 ++ 41 ∷ [])) }
    ensures fault { IfErr result (λ rest. IsFault (IsOffset at) (IsOffset at) text.now rest.now) }
{
    let (off, others) = marked(Operand::Signed, b'(', at, text)?;
    let base = closed(at, others)?;
    Ok((off, base))
}

// A register and the closing parenthesis.
fn closed(at: u32, text: &[u8]) -> Result<u32, &[u8]>
    requires { at % 4 ≡ 0 }
    ensures fits { IfOk result (λ v. OperandFits o.Register v) }
    ensures is { IfOk result (λ v. text.now ≡ operand_text o.Register at v ++ 41 ∷ []) }
    ensures fault { IfErr result (λ rest. IsFault (IsClosed at) (IsClosed at) text.now rest.now) }
{
    let (base, rest) = marked(Operand::Register, b')', at, text)?;
    if !rest.is_empty() {
        return Err(rest);
    }
    Ok(base)
}
