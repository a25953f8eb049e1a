// Reading given bytes.
ghost use Rattle.std.specs.Prelude.{◌≡◌, ◌++◌, IfOk, IfErr};
ghost use Rattle.mips_text.specs.Faults.{IsFault, IsWord, OpensWord};

/// The text after a word that it begins with. Err has the text from the byte on with which it doesn't. Takes no memory.
pub(crate) fn word<'a>(letters: &[u8], text: &'a [u8]) -> Result<&'a [u8], &'a [u8]>
    ensures found { IfOk result (λ rest. text.now ≡ letters.now ++ rest.now) }
    ensures fault { IfErr result (λ rest. IsFault (IsWord letters.now) (OpensWord letters.now) text.now rest.now) }
{
    let [letter, others @ ..] = letters else {
        return Ok(text);
    };
    let [first, rest @ ..] = text else {
        return Err(text);
    };
    if *first != *letter {
        return Err(text);
    }
    word(others, rest)
}
