// Appends numbers to a text.
ghost use Rattle.std.specs.Prelude.{◌≡◌, ◌++◌, decimal, OnOk, OnErr};
ghost use Rattle.std.specs.Fmt.{signed_decimal};
ghost use Rattle.text_fields.specs.Numbers.{hex_text};

use crate::hexadecimal::hex_digit;
use itoa::Buffer;
use std::alloc::AllocError;

/// Appends a number's decimal digits. On Err the text is as before.
pub fn push_decimal(out: &mut Vec<u8>, n: u64) -> Result<(), AllocError>
    ensures ok { OnOk result (out.new.items ≡ out.old.items ++ decimal n) }
    ensures err { OnErr result (out.new.items ≡ out.old.items) }
{
    let mut buffer = Buffer::new();
    out.extend_from_slice(buffer.format(n).as_bytes())
}

/// Appends a number's decimal digits, after a `-` where it is below 0. On Err the text is as before.
pub fn push_signed(out: &mut Vec<u8>, n: i64) -> Result<(), AllocError>
    ensures ok { OnOk result (out.new.items ≡ out.old.items ++ signed_decimal n) }
    ensures err { OnErr result (out.new.items ≡ out.old.items) }
{
    let mut buffer = Buffer::new();
    out.extend_from_slice(buffer.format(n).as_bytes())
}

/// Appends a word as eight lower-case hexadecimal digits. On Err the text is as before.
pub fn push_hex(out: &mut Vec<u8>, n: u32) -> Result<(), AllocError>
    ensures ok { OnOk result (out.new.items ≡ out.old.items ++ hex_text n) }
    ensures err { OnErr result (out.new.items ≡ out.old.items) }
{
    let digits = hex_digits(n);
    out.extend_from_slice(&digits)
}

/// A word as eight lower-case hexadecimal digits. Takes no memory.
#[tactic(auto, unfolding(crate::specs::Numbers::hex_text))]
pub fn hex_digits(n: u32) -> [u8; 8]
    ensures { result ≡ hex_text n }
{
    [
        hex_digit((n / 0x1000_0000 % 16) as u8),
        hex_digit((n / 0x100_0000 % 16) as u8),
        hex_digit((n / 0x10_0000 % 16) as u8),
        hex_digit((n / 0x1_0000 % 16) as u8),
        hex_digit((n / 0x1000 % 16) as u8),
        hex_digit((n / 0x100 % 16) as u8),
        hex_digit((n / 0x10 % 16) as u8),
        hex_digit((n % 16) as u8),
    ]
}
