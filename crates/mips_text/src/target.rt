// Reading the targets of branches and jumps.
ghost use Rattle.std.specs.Prelude.{◌≡◌, ℕ, ◌+◌, ◌*◌, ◌%◌, ◌^◌, ◌≤◌, ◌<◌, [], true, false, IfOk, IfErr};
ghost use Rattle.std.specs.Prelude as P;
ghost use Rattle.mips_text.specs.Faults.{Begins, IsFault};
ghost use Rattle.mips_text.specs.Targets.{IsTargetEnd, IsTargetRead, OpensTargetEnd};

use text_fields::{hex_digit_value, is_hex_digit};

/// The last `left` digits of an address that is a multiple of four and one of `size` from `first` on, of which `value` is written;
/// the address, and the text after it. Err has the text from the byte on with which none can go on. Takes no memory.
pub(crate) fn target_end(
    first: u32,
    size: u32,
    left: u32,
    value: u32,
    text: &[u8],
) -> Result<(u32, &[u8]), &[u8]>
    requires aligned { first % 4 ≡ 0 }
    requires some { 0 < size }
    requires room { value * 16 ^ left + 16 ^ left ≤ 2 ^ 32 }
    requires reached { Begins (IsTargetEnd first size left value) [] }
    ensures found { IfOk result (λ p. IsTargetRead first size left value text.now p.0 p.1.now) }
    ensures fault { IfErr result (λ rest. IsFault (IsTargetEnd first size left value) (OpensTargetEnd first size left value) text.now rest.now) }
{
    if left == 0 {
        return Ok((value, text));
    }
    let [digit, rest @ ..] = text else {
        return Err(text);
    };
    if !is_hex_digit(*digit) {
        return Err(text);
    }
    let next = value * 16 + hex_digit_value(*digit);
    if !reaches(first, size, left - 1, next) {
        return Err(text);
    }
    target_end(first, size, left - 1, next, rest)
}

// Whether some address of the arc has these leading digits.
fn reaches(first: u32, size: u32, left: u32, value: u32) -> bool
    requires aligned { first % 4 ≡ 0 }
    requires some { 0 < size }
    requires room { value * 16 ^ left + 16 ^ left ≤ 2 ^ 32 }
    ensures reached { result ≡ true → Begins (IsTargetEnd first size left value) [] }
    ensures missed { result ≡ false → (text : P.List ℕ) → ¬ (IsTargetEnd first size left value text) }
{
    let block = 16u64.pow(left);
    let start = (u64::from(value) * block) as u32;
    start % 4 == 0
        && (start.wrapping_sub(first) < size || u64::from(first.wrapping_sub(start)) < block)
}
