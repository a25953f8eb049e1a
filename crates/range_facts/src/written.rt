// What an instruction does to the facts.
ghost use Rattle.std.specs.Prelude.{◌≡◌, ◌<◌, ◌≤◌, IfSome, true};
ghost use Rattle.mips_isa.specs.Fits.{FieldsFit};
ghost use Rattle.mips_isa.specs.Names.{reads_of};
ghost use Rattle.mips_isa.specs.Words as words;
ghost use Rattle.range_facts.specs.Transfer as meaning;

use crate::facts::Facts;
use crate::rules::{imm_fact, load_fact, r3_fact, shift_fact};
use crate::strided::{Strided, constant, is_constant, unknown, up_to};
use mips_isa::{Instr, reads, writes};
use mips_ref::{Values, act};

// Where a job returns to.
const EXIT: u32 = 0xffff_fff0;

// The fact of a word, read as signed.
pub fn word_fact(word: u32) -> Strided
    ensures { result ≡ meaning.word_fact word }
{
    constant(word.cast_signed())
}

// The fact of a value for a name, of which a register takes the low word; any word where there is no value.
fn value_fact(value: Option<u64>) -> Strided
    ensures { result ≡ meaning.value_fact value }
{
    match value {
        None => unknown(),
        Some(value) => word_fact((value % 0x1_0000_0000) as u32),
    }
}

fn constant_at(f: &Facts, name: Option<u8>) -> bool
    ensures { result ≡ meaning.constant_at f.now name }
{
    match name {
        None => true,
        Some(r) => is_constant(f.fact(r)),
    }
}

// Whether each register that an instruction reads is constant.
fn all_constant(f: &Facts, names: [Option<u8>; 3]) -> bool
    ensures { result ≡ meaning.all_constant f.now names }
{
    let [rs, rt, third] = names;
    constant_at(f, rs) && constant_at(f, rt) && constant_at(f, third)
}

fn is_computed(i: Instr) -> bool
    ensures { result ≡ meaning.is_computed i }
{
    matches!(
        i,
        Instr::R3 { .. }
            | Instr::Shift { .. }
            | Instr::Imm { .. }
            | Instr::Lui { .. }
            | Instr::Count { .. }
    )
}

// The least value of a register, as a word.
fn least_word(f: &Facts, r: u8) -> u32
    requires { meaning.AreFacts f.now }
    ensures { result ≡ words.unsigned (meaning.fact_of f.now r).lo }
{
    (f.fact(r).lo as i32).cast_unsigned()
}

fn values(f: &Facts, rs: u8, rt: u8, rd: u8) -> Values
    requires { meaning.AreFacts f.now }
    ensures { result ≡ meaning.values_at f.now rs rt rd }
{
    Values {
        rs: least_word(f, rs),
        rt: least_word(f, rt),
        rd: least_word(f, rd),
        pair: 0,
    }
}

// The registers of the fields of an instruction that computes, at the least values of their facts.
fn least_values(i: Instr, f: &Facts) -> Values
    requires { meaning.AreFacts f.now }
    ensures { result ≡ meaning.least_values i f.now }
{
    match i {
        Instr::R3 { rs, rt, rd, .. } => values(f, rs, rt, rd),
        Instr::Shift { rt, .. } => values(f, 0, rt, 0),
        Instr::Imm { rs, .. } | Instr::Count { rs, .. } => values(f, rs, 0, 0),
        _ => values(f, 0, 0, 0),
    }
}

#[tactic(auto, unfolding(crate::specs::Transfer::computed_fact))]
fn computed_fact(i: Instr, f: &Facts) -> Strided
    requires fits { FieldsFit i }
    requires facts { meaning.AreFacts f.now }
    ensures { result ≡ meaning.computed_fact i f.now }
{
    value_fact(act(i, 0, 0, least_values(i, f)).write)
}

#[tactic(auto, unfolding(crate::specs::Transfer::ruled_fact))]
fn ruled_fact(i: Instr, at: u32, f: &Facts) -> Strided
    requires fits { FieldsFit i }
    requires facts { meaning.AreFacts f.now }
    ensures { result ≡ meaning.ruled_fact i at f.now }
{
    match i {
        Instr::R3 { m, rs, rt, .. } => r3_fact(m, f.fact(rs), f.fact(rt)),
        Instr::Shift { m, rt, sa, .. } => shift_fact(m, sa, f.fact(rt)),
        Instr::Imm { m, rs, imm, .. } => imm_fact(m, imm, f.fact(rs)),
        Instr::Load { m, .. } => load_fact(m),
        Instr::Branch1 { .. } | Instr::Jump { .. } | Instr::Jalr { .. } => word_fact(
            at.wrapping_add(8),
        ),
        _ => unknown(),
    }
}

// The fact of the register that an instruction at an address writes.
#[tactic(auto, unfolding(crate::specs::Transfer::written_fact))]
fn written_fact(i: Instr, at: u32, f: &Facts) -> Strided
    requires fits { FieldsFit i }
    requires facts { meaning.AreFacts f.now }
    ensures { result ≡ meaning.written_fact i at f.now }
{
    if is_computed(i) && all_constant(f, reads(i)) {
        computed_fact(i, f)
    } else {
        ruled_fact(i, at, f)
    }
}

// The register that an instruction writes, if any.
pub fn register(name: Option<u8>) -> Option<u8>
    ensures is { result ≡ meaning.register_of name }
    ensures below { IfSome result (λ r. r < 32) }
{
    match name {
        Some(name) if name < 32 => Some(name),
        _ => None,
    }
}

// The facts after an instruction at an address.
#[tactic(auto, unfolding(crate::specs::Transfer::transfer_of))]
fn pass(facts: &mut Facts, i: Instr, at: u32)
    requires fits { FieldsFit i }
    requires facts { meaning.AreFacts facts.old }
    ensures { facts.new ≡ meaning.transfer_of i at facts.old }
{
    let fact = written_fact(i, at, facts);
    if let Some(r) = register(writes(i)) {
        facts.put(r, fact);
    }
}

/// The facts after an instruction at an address, from those before it.
#[tactic(auto, using(crate::proofs::Kept::transfer_keeps_at))]
pub fn transfer(facts: &mut Facts, i: Instr, at: u32)
    requires fits { FieldsFit i }
    requires facts { meaning.AreFacts facts.old }
    ensures after { facts.new ≡ meaning.transfer_of i at facts.old }
    ensures facts { meaning.AreFacts facts.new }
{
    pass(facts, i, at);
}

#[tactic(auto, unfolding(crate::specs::Transfer::opening_of))]
fn opened(input_at: u32, input_len: u32, stack: u32) -> Facts
    ensures { result ≡ meaning.opening_of input_at input_len stack }
{
    let mut ranges = [constant(0); 32];
    ranges[4] = word_fact(input_at);
    ranges[5] = up_to(input_len);
    ranges[29] = word_fact(stack);
    ranges[31] = word_fact(EXIT);
    Facts { ranges }
}

/// The facts as a job opens: registers 4, 29 and 31 are the address of the input, the stack and the exit address, register 5 is the
/// length of the input, from 0 to that of its buffer, and the others are 0.
pub fn opening_facts(input_at: u32, input_len: u32, stack: u32) -> Facts
    requires { input_len ≤ 65536 }
    ensures is { result ≡ meaning.opening_of input_at input_len stack }
    ensures facts { meaning.AreFacts result }
{
    opened(input_at, input_len, stack)
}
