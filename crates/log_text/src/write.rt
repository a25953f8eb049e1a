// The lines of a record, each written in the room for it. None of this takes memory.
ghost use Rattle.std.specs.Prelude.{◌≡◌, ◌<◌, ◌≤◌, ◌+◌, ◌*◌, ◌^◌, ◌∷◌, ◌++◌, [], decimal, length};
ghost use Rattle.log_text.specs.Lines.{byte_text, bytes_text, ending_text, job_line, mode_text, named_word, output_line, pair_text, registers_line, registers_text, shown_line, sub_line, words_behind};
ghost use Rattle.std.specs.List.{flat_map};
ghost use Rattle.log_text.specs.declared.record.JobMode.TheVariants as JobMode;
ghost use Rattle.mips_ref.specs.declared.records.Step.TheVariants as Step;

use crate::record::{JobMode, JobRecord};
use crate::room::{add_byte, add_decimal, add_hex};
use crate::trap_names::trap_name;
use frequency_pick::Pair;
use itoa::Buffer;
use mips_ref::{State, Step, TrapKind};
use task_text::LineRoom;
use visa_io::Span;

/// Writes the line of how a job ran and ended.
#[tactic(auto, unfolding(crate::specs::Lines::job_line))]
pub fn write_job(room: &mut LineRoom, job: &JobRecord)
    requires { 1024 ≤ room.old.room }
    ensures line { room.new.line ≡ job_line job.now }
    ensures room { room.new.room ≡ room.old.room }
{
    room.clear();
    room.add(b"job ");
    add_decimal(room, job.number);
    add_mode(room, job.mode);
    room.add(b" end ");
    add_decimal(room, job.end_ps);
    room.add(b" ");
    add_ending(room, job.step);
    room.add(b"\n");
}

// Adds how a job ran.
fn add_mode(room: &mut LineRoom, mode: JobMode)
    requires { length room.old.line + 150 ≤ room.old.room }
    ensures line { room.new.line ≡ room.old.line ++ mode_text mode }
    ensures len { length room.new.line ≤ length room.old.line + 150 }
    ensures room { room.new.room ≡ room.old.room }
{
    match mode {
        JobMode::Simple => room.add(b" simple"),
        JobMode::Fast { pair } => add_fast(room, pair),
        JobMode::Missed {
            sub,
            pair,
            at,
            switch_ps,
        } => add_missed(room, sub, pair, at, switch_ps),
    }
}

fn add_fast(room: &mut LineRoom, pair: Pair)
    requires { length room.old.line + 60 ≤ room.old.room }
    ensures line { room.new.line ≡ room.old.line ++ mode_text (JobMode.Fast pair) }
    ensures len { length room.new.line ≤ length room.old.line + 60 }
    ensures room { room.new.room ≡ room.old.room }
{
    room.add(b" fast");
    add_pair(room, pair);
}

fn add_missed(room: &mut LineRoom, sub: u32, pair: Pair, at: u64, switch_ps: u64)
    requires { length room.old.line + 150 ≤ room.old.room }
    ensures line { room.new.line ≡ room.old.line ++ mode_text (JobMode.Missed sub pair at switch_ps) }
    ensures len { length room.new.line ≤ length room.old.line + 150 }
    ensures room { room.new.room ≡ room.old.room }
{
    room.add(b" missed ");
    add_decimal(room, u64::from(sub));
    add_pair(room, pair);
    room.add(b" at ");
    add_decimal(room, at);
    room.add(b" switch ");
    add_decimal(room, switch_ps);
}

// Adds a pair of operating points.
fn add_pair(room: &mut LineRoom, pair: Pair)
    requires { length room.old.line + 47 ≤ room.old.room }
    ensures line { room.new.line ≡ room.old.line ++ pair_text pair }
    ensures len { length room.new.line ≤ length room.old.line + 47 }
    ensures room { room.new.room ≡ room.old.room }
{
    room.add(b" pair ");
    add_decimal(room, u64::from(pair.a));
    room.add(b" ");
    add_decimal(room, u64::from(pair.b));
}

/// Writes the line of a sub-task, numbered from 1, that ended in fast mode after so many cycles.
#[tactic(auto, unfolding(crate::specs::Lines::sub_line))]
pub fn write_sub(room: &mut LineRoom, sub: usize, cycles: u64)
    requires { 1024 ≤ room.old.room }
    ensures line { room.new.line ≡ sub_line sub cycles }
    ensures room { room.new.room ≡ room.old.room }
{
    room.clear();
    room.add(b"sub ");
    add_decimal(room, sub as u64);
    room.add(b" ");
    add_decimal(room, cycles);
    room.add(b"\n");
}

// Adds how a job ended, nothing where it hasn't.
fn add_ending(room: &mut LineRoom, step: Step)
    requires { length room.old.line + 29 ≤ room.old.room }
    ensures line { room.new.line ≡ room.old.line ++ ending_text step }
    ensures len { length room.new.line ≤ length room.old.line + 29 }
    ensures room { room.new.room ≡ room.old.room }
{
    match step {
        Step::Went => (),
        Step::Exit => room.add(b"exit"),
        Step::Trap(kind, pc) => add_trap(room, kind, pc),
    }
}

fn add_trap(room: &mut LineRoom, kind: TrapKind, pc: u32)
    requires { length room.old.line + 29 ≤ room.old.room }
    ensures line { room.new.line ≡ room.old.line ++ ending_text (Step.Trap kind pc) }
    ensures len { length room.new.line ≤ length room.old.line + 29 }
    ensures room { room.new.room ≡ room.old.room }
{
    room.add(b"trap ");
    room.add(trap_name(kind));
    room.add(b" ");
    add_hex(room, pc);
}

/// Writes the line of the registers from 1 to 31, HI and LO that aren't zero.
#[tactic(auto, unfolding(crate::specs::Lines::registers_line))]
pub fn write_registers(room: &mut LineRoom, state: &State)
    requires { 1024 ≤ room.old.room }
    ensures line { room.new.line ≡ registers_line state.now.mips }
    ensures room { room.new.room ≡ room.old.room }
{
    room.clear();
    room.add(b"regs");
    add_registers(room, state);
    add_named(room, b"hi", state.hi());
    add_named(room, b"lo", state.lo());
    room.add(b"\n");
}

// Adds the registers from 1 to 31 that aren't zero.
fn add_registers(room: &mut LineRoom, state: &State)
    requires { length room.old.line + 31 * 12 ≤ room.old.room }
    ensures line { room.new.line ≡ room.old.line ++ registers_text state.now.mips 31 }
    ensures len { length room.new.line ≤ length room.old.line + 31 * 12 }
    ensures room { room.new.room ≡ room.old.room }
{
    for r in 1..32u8 {
        add_register(room, r, state.register(r));
    }
}

fn add_register(room: &mut LineRoom, r: u8, value: u32)
    requires number { r < 32 }
    requires fits { length room.old.line + 12 ≤ room.old.room }
    ensures line { room.new.line ≡ room.old.line ++ named_word (decimal r) value }
    ensures len { length room.new.line ≤ length room.old.line + 12 }
    ensures room { room.new.room ≡ room.old.room }
{
    let mut buffer = Buffer::new();
    add_named(room, buffer.format(r).as_bytes(), value);
}

// Adds a word behind its name, nothing where it is zero.
fn add_named(room: &mut LineRoom, name: &[u8], value: u32)
    requires name { length name.now ≤ 2 }
    requires fits { length room.old.line + 12 ≤ room.old.room }
    ensures line { room.new.line ≡ room.old.line ++ named_word name.now value }
    ensures len { length room.new.line ≤ length room.old.line + 12 }
    ensures room { room.new.room ≡ room.old.room }
{
    if value == 0 {
        return;
    }
    room.add(b" ");
    room.add(name);
    room.add(b"=");
    add_hex(room, value);
}

/// Writes the line of the words that a job put out.
#[tactic(auto, unfolding(crate::specs::Lines::output_line))]
pub fn write_output(room: &mut LineRoom, state: &State)
    requires { 1024 + 9 * state.now.mips.output_max ≤ room.old.room }
    ensures line { room.new.line ≡ output_line state.now.mips.output }
    ensures room { room.new.room ≡ room.old.room }
{
    let words = state.output();
    room.clear();
    room.add(b"out");
    add_words(room, words);
    room.add(b"\n");
}

// Adds words, each behind a space.
fn add_words(room: &mut LineRoom, words: &[u32])
    requires { length room.old.line + 9 * length words.now ≤ room.old.room }
    ensures line { room.new.line ≡ room.old.line ++ words_behind words.now }
    ensures len { length room.new.line ≡ length room.old.line + 9 * length words.now }
    ensures room { room.new.room ≡ room.old.room }
{
    for word in words {
        add_word(room, *word);
    }
}

fn add_word(room: &mut LineRoom, word: u32)
    requires { length room.old.line + 9 ≤ room.old.room }
    ensures line { room.new.line ≡ room.old.line ++ words_behind (word ∷ []) }
    ensures len { length room.new.line ≡ length room.old.line + 9 }
    ensures room { room.new.room ≡ room.old.room }
{
    room.add(b" ");
    add_hex(room, word);
}

/// Writes the line of a range of memory that is shown.
#[tactic(auto, unfolding(crate::specs::Lines::shown_line))]
pub fn write_shown(room: &mut LineRoom, state: &State, span: Span)
    requires fits { 1024 ≤ room.old.room }
    requires short { span.len ≤ 256 }
    requires end { span.start + span.len ≤ 2 ^ 32 }
    ensures line { room.new.line ≡ shown_line state.now.mips.memory span }
    ensures room { room.new.room ≡ room.old.room }
{
    room.clear();
    room.add(b"mem ");
    add_hex(room, span.start);
    room.add(b" ");
    add_bytes(room, state, span.start, span.len);
    room.add(b"\n");
}

// Adds the bytes from an address on, by one look-up for each run of them in one range.
fn add_bytes(room: &mut LineRoom, state: &State, start: u32, len: u32)
    requires fits { length room.old.line + 2 * len ≤ room.old.room }
    requires end { start + len ≤ 2 ^ 32 }
    ensures line { room.new.line ≡ room.old.line ++ bytes_text state.now.mips.memory start len }
    ensures len { length room.new.line ≡ length room.old.line + 2 * len }
    ensures room { room.new.room ≡ room.old.room }
{
    let mut done = 0;
    while done < len {
        done += add_run(room, state, start + done, len - done);
    }
}

// Adds the bytes from an address on that stand in its range, `most` at most, or a zero where the address isn't declared.
// Answers how many were added.
#[tactic(auto, using(crate::proofs::Shown::run_text, crate::proofs::Shown::zero_text))]
fn add_run(room: &mut LineRoom, state: &State, at: u32, most: u32) -> u32
    requires some { 0 < most }
    requires fits { length room.old.line + 2 * most ≤ room.old.room }
    ensures some { 0 < result }
    ensures few { result ≤ most }
    ensures line { room.new.line ≡ room.old.line ++ bytes_text state.now.mips.memory at result }
    ensures len { length room.new.line ≡ length room.old.line + 2 * result }
    ensures room { room.new.room ≡ room.old.room }
{
    match state.memory().bytes_from(at, most) {
        Some(run) => {
            add_digits(room, run);
            run.len() as u32
        }
        None => {
            add_byte(room, 0);
            1
        }
    }
}

// Adds each byte as two digits.
fn add_digits(room: &mut LineRoom, bytes: &[u8])
    requires { length room.old.line + 2 * length bytes.now ≤ room.old.room }
    ensures line { room.new.line ≡ room.old.line ++ flat_map byte_text bytes.now }
    ensures len { length room.new.line ≡ length room.old.line + 2 * length bytes.now }
    ensures room { room.new.room ≡ room.old.room }
{
    for byte in bytes {
        add_byte(room, *byte);
    }
}
