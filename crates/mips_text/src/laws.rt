//! Laws of the texts of instructions. Each function is its contract; none has another use.
ghost use Rattle.std.specs.Prelude as P;
ghost use Rattle.std.specs.Prelude.{◌≡◌, ◌%◌, ℕ};
ghost use Rattle.mips_isa.specs.Fits.{FieldsFit};
ghost use Rattle.mips_isa.specs.declared.instr.Instr as declared;
ghost use Rattle.mips_text.specs.Beginnings.{IsFirstFault};
ghost use Rattle.mips_text.specs.Operands.{instr_text};

use crate::parsing::{TextFault, parse_instr};
use crate::printing::print_instr;
use mips_isa::Instr;

/// What is printed reads as it was.
pub fn parse_print(i: Instr, at: u32) -> Result<Instr, TextFault>
    requires fits { FieldsFit i }
    requires aligned { at % 4 ≡ 0 }
    ensures { result ≡ Ok i }
{
    parse_instr(print_instr(i, at).as_bytes(), at)
}

/// No two instructions that fit have one text at an address.
pub fn distinct()
    ensures { (i : declared.Instr) (j : declared.Instr) (at : ℕ) → at % 4 ≡ 0 → FieldsFit i → FieldsFit j → instr_text i at ≡ instr_text j at → i ≡ j }
{}

/// A text has one first fault.
pub fn one_column()
    ensures { (at : ℕ) (text : P.List ℕ) (m n : ℕ) → IsFirstFault at text m → IsFirstFault at text n → m ≡ n }
{}
