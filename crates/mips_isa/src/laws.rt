//! Decoding and encoding are inverse, and no word has two instructions.
ghost use Rattle.std.specs.Prelude.{◌≡◌, ℕ, ◌<◌, ◌^◌, Some, None, IfSome, IfNone};
ghost use Rattle.mips_isa.specs.Decoding.{decode_of};
ghost use Rattle.mips_isa.specs.Encoding.{encode_of, IsReserved, IsWordOf};
ghost use Rattle.mips_isa.specs.Fits.{FieldsFit};
ghost use Rattle.mips_isa.specs.declared.instr.Instr.{Instr as Meant};

use crate::instr::Instr;
use crate::{decode, encode};

/// Decoding after encoding: the word of an instruction is decoded to it.
pub fn decode_encode(i: Instr) -> Option<Instr>
    requires { FieldsFit i }
    ensures { result ≡ Some i }
{
    decode(encode(i))
}

/// Encoding after decoding: the word of what a word is decoded to is that word.
pub fn encode_decode(word: u32) -> Option<u32>
    ensures some { IfSome result (λ w. w ≡ word) }
    ensures none { IfNone result (IsReserved word) }
{
    match decode(word) {
        Some(i) => Some(encode(i)),
        None => None,
    }
}

/// What `decode_of` says, by the relation between a word and its instruction alone: no word has two instructions, a
/// word that has one is decoded to it, and any other one to none. What has a word is below 2^32.
#[tactic(auto, using(crate::proofs::Relation::laws))]
pub fn relation()
    ensures one { (word : ℕ) (i j : Meant) → IsWordOf word i → IsWordOf word j → i ≡ j }
    ensures found { (word : ℕ) (i : Meant) → IsWordOf word i → decode_of word ≡ Some i }
    ensures given { (word : ℕ) (i : Meant) → decode_of word ≡ Some i → IsWordOf word i }
    ensures none { (word : ℕ) → IsReserved word → decode_of word ≡ None }
    ensures word { (i : Meant) → FieldsFit i → encode_of i < 2 ^ 32 }
{}
