// The state of the reference machine, and one step of it.
ghost use Rattle.std.specs.Prelude.{◌≡◌, ◌+◌, ◌<◌, ◌≤◌, ◌∷◌, [], Some, IfOk, IfErr, length, slice_index, vec_len, vec_capacity};
ghost use Rattle.mips_isa.specs.Fits.{FieldsFit};
ghost use Rattle.mips_isa.specs.Names.{writes_of};
ghost use Rattle.mips_ref.specs.Computed.{computed, computes, with_register};
ghost use Rattle.mips_ref.specs.Decoded.{HasNoInstr, IsInstrAt};
ghost use Rattle.mips_ref.specs.Facts.{Retires};
ghost use Rattle.mips_ref.specs.Job as job;
ghost use Rattle.mips_ref.specs.Job.{opening};
ghost use Rattle.mips_ref.specs.Memory.{AllStorable, IsMemory};
ghost use Rattle.mips_ref.specs.Mips.{blank, exit_address, register_of, IsState};
ghost use Rattle.mips_ref.specs.Access as access;
ghost use Rattle.mips_ref.specs.Ran.{is_trap, off_code_answer, ran_as, ran_at, ran_nothing};
ghost use Rattle.mips_ref.specs.SameCode.{SameCode};
ghost use Rattle.mips_ref.specs.Step as meaning;

use crate::access::{loaded, stored};
use crate::decoded::{Decoded, empty_lines, find, keep};
use crate::memory::{Memory, ordered};
use crate::outcome::act;
use crate::parts::{
    DEPTH, change_memory, change_output, change_registers, change_returns, hi_after, lo_after,
    operands, output_trap, return_trap, store_at,
};
use crate::records::{Act, Ran, Retired, Step, TrapKind, Values};
use crate::values::{low_word, pair_of, to_register};
use mips_isa::{Instr, decode, writes};
use std::alloc::{AllocError, Global};
use std::marker::Model;

/// Registers, HI and LO, the two program counters, memory, the return stack and the output of a job, and how many steps
/// were made by `step` since it opened.
#[derive(Debug, Drop)]
pub struct State {
    registers: [u32; 32],
    hi: u32,
    lo: u32,
    pc: u32,
    next_pc: u32,
    memory: Memory,
    // newest last
    returns: Vec<u32>,
    output: Vec<u32>,
    output_max: u32,
    computed: u64,
    // words of code that were decoded, which stay as they are
    code: Vec<Option<Decoded>>,
}

impl Model for State {
    ghost use Rattle.mips_ref.specs.Mips.{Held};

    ghost Value = { Held };

    ghost use Rattle.mips_ref.specs.Machine.{held_of, IsHeld};

    ghost view = { held_of };

    ghost invariant = { IsHeld };
}

impl State {
    #[tactic(auto, unfolding(crate::specs::Mips::blank))]
    /// A machine on this memory, with room for an output of so many words: registers and counters zero, return stack and
    /// output empty. The memory comes back with a refusal.
    pub fn new(alloc: Global, memory: Memory, out_max: u32) -> Result<State, (Memory, AllocError)>
        ensures state { IfOk result (λ s. s.mips ≡ blank memory out_max) }
        ensures computed { IfOk result (λ s. s.computed ≡ 0) }
        ensures err { IfErr result (λ e. e.0 ≡ memory) }
    {
        let Ok(returns) = Vec::with_capacity(alloc, DEPTH) else {
            return Err((memory, AllocError));
        };
        let Ok(output) = Vec::with_capacity(alloc, out_max as usize) else {
            return Err((memory, AllocError));
        };
        let Ok(code) = empty_lines(alloc, memory.bytes.len()) else {
            return Err((memory, AllocError));
        };
        Ok(State {
            registers: [0; 32],
            hi: 0,
            lo: 0,
            pc: 0,
            next_pc: 0,
            memory,
            returns,
            output,
            output_max: out_max,
            computed: 0,
            code,
        })
    }

    /// Opens a job on the memory as it stands: the entry, the stack word, the input's buffer (address and length in bytes)
    /// and the input. Takes no memory.
    #[tactic(auto, using(crate::proofs::Opened::declared_buffer), unfolding(crate::specs::Job::opening, crate::specs::Job::opening_registers))]
    pub fn open(&mut self, entry: u32, stack: u32, input_at: u32, input_len: u32, input: &[u8])
        requires buffer { AllStorable self.old.mips.memory input_at input_len }
        requires fits { length input.now ≤ input_len }
        ensures state { self.new.mips ≡ opening entry stack input_at input_len input.now self.old.mips.memory self.old.mips.output_max }
        ensures computed { self.new.computed ≡ 0 }
    {
        // read for the proof: only so is it known here what every state keeps of its memory
        let _ = &self.memory.spans;
        self.memory.fill_buffer(input_at, input_len, input);
        self.registers = opening_registers(input_at, input.len() as u32, stack);
        self.hi = 0;
        self.lo = 0;
        self.pc = entry;
        self.next_pc = entry.wrapping_add(4);
        restart(&mut self.returns);
        self.output.clear();
        self.computed = 0;
    }

    /// A general register. Takes no memory.
    pub fn register(&self, r: u8) -> u32
        requires { r < 32 }
        ensures { result ≡ register_of self.now.mips r }
    {
        self.registers[r as usize]
    }

    /// HI. Takes no memory.
    pub fn hi(&self) -> u32
        ensures { result ≡ self.now.mips.hi }
    {
        self.hi
    }

    /// LO. Takes no memory.
    pub fn lo(&self) -> u32
        ensures { result ≡ self.now.mips.lo }
    {
        self.lo
    }

    /// The address of the next instruction. Takes no memory.
    pub fn pc(&self) -> u32
        ensures { result ≡ self.now.mips.pc }
    {
        self.pc
    }

    /// The address of the instruction after the next one. Takes no memory.
    pub fn next_pc(&self) -> u32
        ensures { result ≡ self.now.mips.next_pc }
    {
        self.next_pc
    }

    /// The words stored to the output port since the job opened, oldest first. Takes no memory.
    pub fn output(&self) -> &[u32]
        ensures value { result.now ≡ self.now.mips.output }
        ensures within { length self.now.mips.output ≤ self.now.mips.output_max }
    {
        self.output.as_slice()
    }

    /// The memory as it stands, and what every state keeps. Takes no memory.
    pub fn memory(&self) -> &Memory
        ensures value { result.now ≡ self.now.mips.memory }
        ensures state { IsState self.now.mips }
        ensures laid_out { IsMemory self.now.mips.memory }
    {
        // read for the proof: only so is it known here what every state keeps of its memory
        let _ = &self.memory.spans;
        &self.memory
    }

    /// How many steps `step` has made since the job opened; it stays at 2^64 - 1 once there. Takes no memory.
    pub fn computed(&self) -> u64
        ensures { result ≡ self.now.computed }
    {
        self.computed
    }

    /// Whether the job is at its exit address and has returned from all its calls, so that a step would answer Exit. Takes
    /// no memory.
    pub fn at_exit(&self) -> bool
        ensures { result ≡ meaning.at_exit self.now.mips }
    {
        self.pc == EXIT && self.returns.len() == 0
    }

    // The values that an instruction is given.
    #[tactic(auto, unfolding(crate::specs::Step::values_of))]
    fn values(&self, i: Instr) -> Values
        requires { FieldsFit i }
        ensures { result ≡ meaning.values_of i self.now.mips }
    {
        let o = operands(i);
        Values {
            rs: self.register(o.rs),
            rt: self.register(o.rt),
            rd: self.register(o.rd),
            pair: pair_of(self.hi, self.lo),
        }
    }

    fn acted(&self, i: Instr) -> Act
        requires { FieldsFit i }
        ensures { result ≡ meaning.acted i self.now.mips }
    {
        act(i, self.pc(), self.next_pc(), self.values(i))
    }

    // The trap of an instruction; those that only its parts find aside.
    fn trap(&self, i: Instr, a: Act) -> Option<TrapKind>
        ensures { result ≡ meaning.trap_in i a self.now.mips }
    {
        match a.trap {
            Some(kind) => Some(kind),
            None => access_trap(&self.memory, i, a.at),
        }
    }

    #[tactic(auto, unfolding(crate::specs::Step::write_of))]
    fn write(&self, i: Instr, a: Act) -> Option<u64>
        requires { FieldsFit i }
        ensures { result ≡ meaning.write_of i a self.now.mips }
    {
        match i {
            Instr::Load { rt, .. } => {
                let at = a.at.unwrap_or(0);
                let lanes = self.memory.lanes(at - at % 4);
                let big = self.memory.big();
                to_register(rt, loaded(i, at, self.register(rt), lanes, big))
            }
            _ => a.write,
        }
    }

    #[tactic(auto, unfolding(crate::specs::Step::parts_of))]
    fn parts(&self, i: Instr, a: Act) -> Retired
        requires { FieldsFit i }
        ensures { result ≡ meaning.parts_of i a self.now.mips }
    {
        let (mask, word) = stored(i, a.at.unwrap_or(0), self.values(i).rt, self.memory.big());
        Retired {
            write: self.write(i, a),
            next: a.next,
            taken: a.taken,
            at: a.at,
            mask,
            word,
        }
    }

    // The trap that only the parts of a step find.
    #[tactic(auto, unfolding(crate::specs::Step::late_trap))]
    fn late_trap(&self, i: Instr, r: Retired) -> Option<TrapKind>
        ensures { result ≡ meaning.late_trap i r self.now.mips }
    {
        match return_trap(i, r.taken, self.registers[31], &self.returns) {
            Some(kind) => Some(kind),
            None => output_trap(store_at(i, r.at), self.output_max, &self.output),
        }
    }

    // The parts of a step change the state.
    #[tactic(auto, using(crate::proofs::Names::writes_named), unfolding(crate::specs::Step::changed, crate::specs::Step::late_trap))]
    fn change(&mut self, i: Instr, r: Retired)
        requires fits { FieldsFit i }
        requires no_trap { meaning.late_trap i r self.old.mips ≡ None }
        requires code_stays { SameCode self.old.mips.memory (meaning.changed i r self.old.mips).memory }
        ensures state { self.new.mips ≡ meaning.changed i r self.old.mips }
        ensures computed { self.new.computed ≡ self.old.computed }
    {
        // read for the proof: only so is it known here what every state keeps of its memory
        let _ = &self.memory.spans;
        let name = writes(i);
        let stored_at = store_at(i, r.at);
        let word = ordered(r.word, self.memory.big());
        change_returns(&mut self.returns, i, r.taken, self.registers[31], self.pc);
        change_output(&mut self.output, stored_at, word, self.output_max);
        change_memory(&mut self.memory, stored_at, r.mask, r.word);
        change_registers(&mut self.registers, name, r.write);
        self.hi = hi_after(name, r.write, self.hi);
        self.lo = lo_after(name, r.write, self.lo);
        self.pc = self.next_pc;
        self.next_pc = r.next;
    }

    // The parts of a step, applied.
    #[tactic(auto, unfolding(crate::specs::Step::applied))]
    fn apply(&mut self, i: Instr, r: Retired) -> Step
        requires fits { FieldsFit i }
        requires code_stays { SameCode self.old.mips.memory (meaning.changed i r self.old.mips).memory }
        ensures answer { result ≡ (meaning.applied i r self.old.mips).answer }
        ensures state { self.new.mips ≡ (meaning.applied i r self.old.mips).state }
        ensures computed { self.new.computed ≡ self.old.computed }
    {
        if let Some(kind) = self.late_trap(i, r) {
            return Step::Trap(kind, self.pc());
        }
        self.change(i, r);
        Step::Went
    }

    // A step of an instruction that acts so.
    #[tactic(auto, unfolding(crate::specs::Step::executed, crate::specs::Step::trap_of, crate::specs::Step::retired_of))]
    fn finish(&mut self, i: Instr, a: Act) -> Step
        requires fits { FieldsFit i }
        requires acts { a ≡ meaning.acted i self.old.mips }
        ensures answer { result ≡ (meaning.executed i self.old.mips).answer }
        ensures state { self.new.mips ≡ (meaning.executed i self.old.mips).state }
        ensures computed { self.new.computed ≡ self.old.computed }
    {
        if let Some(kind) = self.trap(i, a) {
            return Step::Trap(kind, self.pc());
        }
        let r = self.parts(i, a);
        self.apply(i, r)
    }

    // The short way through a step of an instruction that computes a general register and acts so.
    #[tactic(auto, using(crate::proofs::Computed::computes_fits))]
    fn compute(&mut self, i: Instr, r: u8, a: Act) -> Step
        requires fits { FieldsFit i }
        requires computes { computes i ≡ Some r }
        requires acts { a ≡ meaning.acted i self.old.mips }
        ensures answer { result ≡ (meaning.executed i self.old.mips).answer }
        ensures state { self.new.mips ≡ (meaning.executed i self.old.mips).state }
        ensures computed { self.new.computed ≡ self.old.computed }
    {
        if let Some(kind) = a.trap {
            return Step::Trap(kind, self.pc);
        }
        give_register(&mut self.registers, r, a.write);
        self.pc = self.next_pc;
        self.next_pc = a.next;
        Step::Went
    }

    // A step of an instruction that acts so, by the short way where that is its own.
    fn make(&mut self, i: Instr, a: Act) -> Step
        requires fits { FieldsFit i }
        requires acts { a ≡ meaning.acted i self.old.mips }
        ensures answer { result ≡ (meaning.executed i self.old.mips).answer }
        ensures state { self.new.mips ≡ (meaning.executed i self.old.mips).state }
        ensures computed { self.new.computed ≡ self.old.computed }
    {
        match computes(i) {
            Some(r) => self.compute(i, r, a),
            None => self.finish(i, a),
        }
    }

    // A step of an instruction, and what it executed.
    fn execute(&mut self, i: Instr) -> (Step, Ran)
        requires { FieldsFit i }
        ensures answer { result.0 ≡ (meaning.executed i self.old.mips).answer }
        ensures state { self.new.mips ≡ (meaning.executed i self.old.mips).state }
        ensures computed { self.new.computed ≡ self.old.computed }
        ensures ran { result.1 ≡ ran_as self.old.mips.pc i (meaning.acted i self.old.mips) (is_trap result.0) }
    {
        let at = self.pc();
        let a = self.acted(i);
        let step = self.make(i, a);
        (step, executed(at, i, a, step))
    }

    // One step, uncounted, and what it executed.
    fn advance(&mut self) -> (Step, Ran)
        ensures answer { result.0 ≡ (meaning.step_of self.old.mips).answer }
        ensures state { self.new.mips ≡ (meaning.step_of self.old.mips).state }
        ensures computed { self.new.computed ≡ self.old.computed }
        ensures ran { result.1 ≡ ran_at self.old.mips }
    {
        let at = self.pc();
        match self.fetch() {
            Ok(i) => self.execute(i),
            Err(true) => (Step::Trap(TrapKind::Reserved, at), nothing(at, true)),
            Err(false) => (self.off_code(), nothing(at, false)),
        }
    }

    // The instruction at the pc; where there is none, whether there is code.
    fn fetch(&mut self) -> Result<Instr, bool>
        ensures some { IfOk result (IsInstrAt self.old.mips.memory self.old.mips.pc) }
        ensures none { IfErr result (HasNoInstr self.old.mips.memory self.old.mips.pc) }
        ensures same { self.new ≡ self.old }
    {
        match find(&self.code, self.pc) {
            Some(i) => Ok(i),
            None => self.decode(),
        }
    }

    // The same from memory, for the next time too.
    fn decode(&mut self) -> Result<Instr, bool>
        ensures some { IfOk result (IsInstrAt self.old.mips.memory self.old.mips.pc) }
        ensures none { IfErr result (HasNoInstr self.old.mips.memory self.old.mips.pc) }
        ensures same { self.new ≡ self.old }
    {
        let Some(word) = self.memory.code_at(self.pc) else {
            return Err(false);
        };
        let Some(i) = decode(word) else {
            return Err(true);
        };
        keep(&mut self.code, self.pc, i);
        Ok(i)
    }

    // What a step answers where there is no code.
    fn off_code(&self) -> Step
        ensures { result ≡ off_code_answer self.now.mips }
    {
        if self.at_exit() {
            Step::Exit
        } else {
            Step::Trap(TrapKind::FetchFault, self.pc())
        }
    }

    /// Makes the next step by its parts, without computing them again: it answers and changes what `step` would, but for
    /// the count of computed steps. Of the traps it answers ReturnFull, ReturnMismatch and OutputFull alone. Takes no memory.
    pub fn retire(&mut self, i: Instr, r: Retired) -> Step
        requires { Retires self.old.mips i r }
        ensures answer { result ≡ (meaning.step_of self.old.mips).answer }
        ensures state { self.new.mips ≡ (meaning.step_of self.old.mips).state }
        ensures computed { self.new.computed ≡ self.old.computed }
    {
        // read for the proof: only so is it known here what every state keeps of its memory
        let _ = &self.memory.spans;
        self.apply(i, r)
    }

    /// One instruction, as `step` makes it, and what it executed. Takes no memory.
    pub fn trace(&mut self) -> (Step, Ran)
        ensures answer { result.0 ≡ (meaning.step_of self.old.mips).answer }
        ensures state { self.new.mips ≡ (meaning.step_of self.old.mips).state }
        ensures computed { self.new.computed ≡ meaning.counted result.0 self.old.computed }
        ensures ran { result.1 ≡ ran_at self.old.mips }
    {
        let (answer, ran) = self.advance();
        if let Step::Went = answer {
            self.computed = self.computed.saturating_add(1);
        }
        (answer, ran)
    }

    /// One instruction. Exit and Trap leave the state as it is; Went is counted. Takes no memory.
    pub fn step(&mut self) -> Step
        ensures answer { result ≡ (meaning.step_of self.old.mips).answer }
        ensures state { self.new.mips ≡ (meaning.step_of self.old.mips).state }
        ensures computed { self.new.computed ≡ meaning.counted result self.old.computed }
    {
        let (answer, _) = self.trace();
        answer
    }
}

// The exit address of a job.
const EXIT: u32 = 0xffff_fff0;

// What executed where there is no instruction.
fn nothing(at: u32, is_code: bool) -> Ran
    ensures { result ≡ ran_nothing at is_code }
{
    Ran {
        at,
        is_code,
        instr: None,
        trapped: true,
        taken: false,
        load: None,
    }
}

// The general register that an instruction writes which does nothing else.
fn computes(i: Instr) -> Option<u8>
    ensures { result ≡ computes i }
{
    match i {
        Instr::R3 { rd, .. } | Instr::Shift { rd, .. } | Instr::Count { rd, .. } => Some(rd),
        Instr::Imm { rt, .. } | Instr::Lui { rt, .. } => Some(rt),
        _ => None,
    }
}

// A register gets a value, where there is one; register 0 keeps its own.
fn give_register(registers: &mut [u32; 32], r: u8, value: Option<u64>)
    requires { r < 32 }
    ensures items { registers.new ≡ with_register r value registers.old }
    ensures zero { slice_index registers.new 0 ≡ slice_index registers.old 0 }
{
    if let Some(value) = value {
        if r != 0 {
            registers[r as usize] = low_word(value);
        }
    }
}

fn is_load(i: Instr) -> bool
    ensures { result ≡ access.is_load i }
{
    matches!(i, Instr::Load { .. })
}

// What executed where an instruction acts so and its step has this answer.
fn executed(at: u32, i: Instr, a: Act, step: Step) -> Ran
    ensures { result ≡ ran_as at i a (is_trap step) }
{
    let trapped = matches!(step, Step::Trap(_, _));
    Ran {
        at,
        is_code: true,
        instr: Some(i),
        trapped,
        taken: a.taken,
        load: if is_load(i) && !trapped { a.at } else { None },
    }
}

fn access_trap(memory: &Memory, i: Instr, at: Option<u32>) -> Option<TrapKind>
    ensures { result ≡ meaning.access_trap memory.now i at }
{
    match at {
        None => None,
        Some(at) => memory.refuses(i, at),
    }
}

// The registers as a job opens.
#[tactic(auto, unfolding(crate::specs::Job::opening_registers))]
fn opening_registers(input_at: u32, input_len: u32, stack: u32) -> [u32; 32]
    ensures is { result ≡ job.opening_registers input_at input_len stack }
    ensures zero { slice_index result 0 ≡ 0 }
    ensures length { length result ≡ 32 }
{
    let mut registers = [0; 32];
    registers[4] = input_at;
    registers[5] = input_len;
    registers[29] = stack;
    registers[31] = EXIT;
    registers
}

// The return stack holds the exit address alone.
fn restart(stack: &mut Vec<u32>)
    requires { 1 ≤ vec_capacity stack.old }
    ensures items { stack.new.items ≡ exit_address ∷ [] }
    ensures len { vec_len stack.new ≡ 1 }
    ensures capacity { vec_capacity stack.new ≡ vec_capacity stack.old }
{
    stack.clear();
    stack.push_reserved(EXIT);
}
