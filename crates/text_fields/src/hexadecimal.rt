// Words of eight lower-case hexadecimal digits. None of this takes memory.
ghost use Rattle.std.specs.Prelude.{◌≡◌, ◌≤◌, ◌<◌, cond, length, true, Some, None};
ghost use Rattle.std.specs.Char.{digit_char, digit_value};
ghost use Rattle.std.specs.List.{list_all};
ghost use Rattle.std.specs.Str.Parse.{digits_value};
ghost use Rattle.text_fields.specs.Numbers.{hex, is_hex, is_hex_digit as is_hex_digit_lem};

/// Whether a byte is a lower-case hexadecimal digit. Takes no memory.
pub fn is_hex_digit(c: u8) -> bool
    ensures { result ≡ is_hex_digit_lem c }
{
    b'0' <= c && c <= b'9' || b'a' <= c && c <= b'f'
}

// The number of at most eight hexadecimal digits; None exactly where some byte is none.
fn digits_word(digits: &[u8]) -> Option<u32>
    requires { length digits.now ≤ 8 }
    ensures { result ≡ cond (list_all is_hex_digit_lem digits.now) (Some (digits_value 16 digits.now)) None }
{
    let mut sum = 0;
    for c in digits {
        if !is_hex_digit(*c) {
            return None;
        }
        sum = sum * 16 + hex_digit_value(*c);
    }
    Some(sum)
}

/// The word that eight lower-case hexadecimal digits write; None exactly where the field is none. Takes no memory.
#[tactic(auto, unfolding(crate::specs::Numbers::is_hex, crate::specs::Numbers::hex))]
pub fn hex_word(field: &[u8]) -> Option<u32>
    ensures { result ≡ cond (is_hex field.now) (Some (hex field.now)) None }
{
    if field.len() == 8 {
        digits_word(field)
    } else {
        None
    }
}

/// The value of a lower-case hexadecimal digit. Takes no memory.
pub fn hex_digit_value(c: u8) -> u32
    requires { is_hex_digit_lem c ≡ true }
    ensures value { result ≡ digit_value c }
    ensures low { result < 16 }
{
    if c <= b'9' {
        u32::from(c - b'0')
    } else {
        u32::from(c - b'a') + 10
    }
}

/// The lower-case hexadecimal digit that writes n. Takes no memory.
pub fn hex_digit(n: u8) -> u8
    requires { n < 16 }
    ensures { result ≡ digit_char n }
{
    if n < 10 { b'0' + n } else { b'a' + (n - 10) }
}
