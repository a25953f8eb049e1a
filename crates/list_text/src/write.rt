// The line of a word, written in the room for it. None of this takes memory.
ghost use Rattle.std.specs.Prelude.{◌≡◌, ◌≤◌, ◌+◌, ◌++◌, length};
ghost use Rattle.mips_isa.specs.Decoding.{decode_of};
ghost use Rattle.list_text.specs.Lists.{meant_text, word_line};

use mips_isa::decode;
use mips_text::print_instr;
use task_text::LineRoom;
use text_fields::hex_digits;

/// Writes the line of a word of code.
#[tactic(auto, unfolding(crate::specs::Lists::word_line))]
pub(crate) fn write_word(room: &mut LineRoom, at: u32, word: u32)
    requires { 67 ≤ room.old.room }
    ensures line { room.new.line ≡ word_line at word }
    ensures room { room.new.room ≡ room.old.room }
{
    room.clear();
    room.add(&hex_digits(at));
    room.add(b" ");
    room.add(&hex_digits(word));
    room.add(b" ");
    add_meant(room, at, word);
    room.add(b"\n");
}

// Adds what a word means at an address.
fn add_meant(room: &mut LineRoom, at: u32, word: u32)
    requires { length room.old.line + 48 ≤ room.old.room }
    ensures line { room.new.line ≡ room.old.line ++ meant_text (decode_of word) at }
    ensures len { length room.new.line ≤ length room.old.line + 48 }
    ensures room { room.new.room ≡ room.old.room }
{
    match decode(word) {
        Some(i) => room.add(print_instr(i, at).as_bytes()),
        None => room.add(b"reserved"),
    }
}
