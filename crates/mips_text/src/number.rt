// Reading numbers.
ghost use Rattle.std.specs.Prelude.{◌≡◌, ◌≤◌, ◌++◌, decimal, IfOk, IfErr};
ghost use Rattle.mips_text.specs.Faults.{IsFault};
ghost use Rattle.mips_text.specs.Forms.{IsLongest, IsNumberOf, IsNumberRead, OpensNumber};

/// The longest number from `least` to `most` that a text begins with, and the text after it. Err has the text from the byte on
/// with which none can go on. Takes no memory.
pub(crate) fn number(least: u32, most: u32, text: &[u8]) -> Result<(u32, &[u8]), &[u8]>
    requires low { least ≤ 1 }
    requires some { least ≤ most }
    ensures found { IfOk result (λ p. IsNumberRead least most text.now p.0 p.1.now) }
    ensures fault { IfErr result (λ rest. IsFault (IsNumberOf least most) (OpensNumber least most) text.now rest.now) }
{
    let [first, rest @ ..] = text else {
        return Err(text);
    };
    if !first.is_ascii_digit() {
        return Err(text);
    }
    let value = u32::from(*first - b'0');
    if value < least {
        return Err(text);
    }
    if most < value {
        return Err(text);
    }
    Ok(longest(value, most, rest))
}

// The number with as many digits more as stay within `most`, and the text after it.
fn longest(value: u32, most: u32, text: &[u8]) -> (u32, &[u8])
    requires { value ≤ most }
    ensures low { value ≤ result.0 }
    ensures high { result.0 ≤ most }
    ensures is { decimal value ++ text.now ≡ decimal result.0 ++ result.1.now }
    ensures longest { IsLongest most result.0 result.1.now }
{
    let [digit, rest @ ..] = text else {
        return (value, text);
    };
    if value == 0 || !digit.is_ascii_digit() {
        return (value, text);
    }
    let next = u64::from(value) * 10 + u64::from(*digit - b'0');
    if next > u64::from(most) {
        return (value, text);
    }
    longest(next as u32, most, rest)
}
