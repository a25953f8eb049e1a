ghost use Rattle.std.specs.Prelude.{◌≡◌, IfNone, IfSome};
ghost use Rattle.mips_isa.specs.Decoding.{decode_of};
ghost use Rattle.mips_isa.specs.Encoding.{encode_of, IsReserved, IsWordOf};
ghost use Rattle.mips_isa.specs.Fits.{FieldsFit};

use crate::instr::Instr;
use crate::{decoding, encoding};

/// The instruction of this word; `None` where the word is reserved.
pub fn decode(word: u32) -> Option<Instr>
    ensures value { result ≡ decode_of word }
    ensures found { IfSome result (IsWordOf word) }
    ensures none { IfNone result (IsReserved word) }
{
    decoding::read(word)
}

/// The word of an instruction.
pub fn encode(i: Instr) -> u32
    requires { FieldsFit i }
    ensures value { result ≡ encode_of i }
    ensures inverse { decode_of result ≡ Some i }
{
    encoding::write(i)
}
