// Numbers in the line that is being written. None of this takes memory.
ghost use Rattle.std.specs.Prelude.{◌≡◌, ◌≤◌, ◌+◌, ◌++◌, decimal, length};
ghost use Rattle.log_text.specs.Lines.{byte_text};
ghost use Rattle.text_fields.specs.Numbers.{hex_text};

use itoa::Buffer;
use task_text::LineRoom;
use text_fields::{hex_digit, hex_digits};

/// Adds a number's decimal digits.
pub fn add_decimal(room: &mut LineRoom, n: u64)
    requires { length room.old.line + 20 ≤ room.old.room }
    ensures line { room.new.line ≡ room.old.line ++ decimal n }
    ensures len { length room.new.line ≤ length room.old.line + 20 }
    ensures room { room.new.room ≡ room.old.room }
{
    let mut buffer = Buffer::new();
    room.add(buffer.format(n).as_bytes());
}

/// Adds the decimal digits of a number of 128 bits.
pub fn add_wide(room: &mut LineRoom, n: u128)
    requires { length room.old.line + 40 ≤ room.old.room }
    ensures line { room.new.line ≡ room.old.line ++ decimal n }
    ensures len { length room.new.line ≤ length room.old.line + 40 }
    ensures room { room.new.room ≡ room.old.room }
{
    let mut buffer = Buffer::new();
    room.add(buffer.format(n).as_bytes());
}

/// Adds a word as eight lower-case hexadecimal digits.
pub fn add_hex(room: &mut LineRoom, word: u32)
    requires { length room.old.line + 8 ≤ room.old.room }
    ensures line { room.new.line ≡ room.old.line ++ hex_text word }
    ensures len { length room.new.line ≡ length room.old.line + 8 }
    ensures room { room.new.room ≡ room.old.room }
{
    let digits = hex_digits(word);
    room.add(&digits);
}

/// Adds a byte as two lower-case hexadecimal digits.
pub fn add_byte(room: &mut LineRoom, byte: u8)
    requires { length room.old.line + 2 ≤ room.old.room }
    ensures line { room.new.line ≡ room.old.line ++ byte_text byte }
    ensures len { length room.new.line ≡ length room.old.line + 2 }
    ensures room { room.new.room ≡ room.old.room }
{
    let digits = [hex_digit(byte / 16), hex_digit(byte % 16)];
    room.add(&digits);
}
