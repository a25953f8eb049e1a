// Reading instructions.
ghost use Rattle.std.specs.Prelude.{◌≡◌, ◌%◌, length, IfOk, IfErr};
ghost use Rattle.mips_isa.specs.declared.instr.Instr as declared;
ghost use Rattle.mips_text.specs.Beginnings.{IsFirstFault, IsInstrText, IsTextOf};
ghost use Rattle.mips_text.specs.Faults.{IsFault};
ghost use Rattle.mips_text.specs.Templates.{HasEachMnemonic, IsAmongFirst, IsTemplateText};

use crate::filling::{filled, form_of};
use crate::mnemonics::name;
use crate::reading::operands;
use crate::templates::templates;
use crate::word::word;
use mips_isa::Instr;

/// Where a text stops being that of an instruction: the column, counted from 1, with which no text of an instruction at its address
/// begins, or that behind the end of a text that only ends early.
#[derive(Clone, Copy, Debug, PartialEq, Eq)]
pub struct TextFault {
    pub column: u32,
}

/// The instruction of which a text is the text at an address, as `print_instr` writes it. Takes no memory.
pub fn parse_instr(text: &[u8], at: u32) -> Result<Instr, TextFault>
    requires { at % 4 ≡ 0 }
    ensures found { IfOk result (λ i. IsTextOf at text.now i) }
    ensures only { (i : declared.Instr) → IsTextOf at text.now i → result ≡ Ok i }
    ensures fault { IfErr result (λ fault. IsFirstFault at text.now fault.column) }
{
    match any_of(templates(), at, text) {
        Ok(i) => Ok(i),
        Err(rest) => Err(TextFault {
            column: (text.len() - rest.len()) as u32 + 1,
        }),
    }
}

// The instruction of one of the templates' mnemonics of which a text is the text. Err has the text from the byte on with which no text
// of an instruction goes on.
fn any_of<'a>(templates: &[Instr], at: u32, text: &'a [u8]) -> Result<Instr, &'a [u8]>
    requires aligned { at % 4 ≡ 0 }
    requires each { HasEachMnemonic templates.now }
    ensures found { IfOk result (λ i. IsTextOf at text.now i) }
    ensures fault { IfErr result (λ rest. IsFault (IsInstrText at) (IsInstrText at) text.now rest.now) }
{
    let mut last = text;
    for template in templates {
        match instr_like(*template, at, text) {
            Ok(i) => return Ok(i),
            Err(rest) => if rest.len() < last.len() {
                last = rest;
            },
        }
    }
    Err(last)
}

// The instruction of a template's mnemonic of which a text is the text.
fn instr_like(template: Instr, at: u32, text: &[u8]) -> Result<Instr, &[u8]>
    requires { at % 4 ≡ 0 }
    ensures found { IfOk result (λ i. IsTextOf at text.now i) }
    ensures fault { IfErr result (λ rest. IsFault (IsTemplateText template at) (IsTemplateText template at) text.now rest.now) }
{
    let spaced = word(name(template), text)?;
    let rest = word(b" ", spaced)?;
    let (a, b, c) = operands(form_of(template), at, rest)?;
    Ok(filled(template, a, b, c))
}
