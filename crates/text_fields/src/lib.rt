//! Lines, fields and numbers of the texts that this project reads and writes.
#![tactic(auto)]

mod hexadecimal;
mod lines;
mod numbers;
mod writing;

pub use hexadecimal::{hex_digit, hex_digit_value, hex_word, is_hex_digit};
pub use lines::{fields, is_graphic, is_printable, next_line};
pub use numbers::{number, number_up_to, signed_number};
pub use writing::{hex_digits, push_decimal, push_hex, push_signed};
