// What no clause says: a record as it is printed, and that each of its lines is one put.
ghost use Rattle.std.specs.Prelude.{◌≡◌, IfOk};

use log_text::{JobMode, JobRecord, put_record};
use mips_ref::{Memory, State, Step, TrapKind};
use std::alloc::{AllocError, Global};
use std::process::Abort;
use std::test::Fail;
use task_text::{LineRoom, read_task};
use visa_io::{List, MemSink, PutFail, SinkFailed, Span};

const TASK: &[u8] = b"visa-task 1
order big
core 1 8 4 16
memory 10000 10000 0 0
icache none
dcache none
point 1000
time 100000 100000
words 00400000 24020007
entry 00400000
stack 7fff0000
input 00000000 0
output 1
";

// 7 is put out, and ffff0000 times 7 stands in HI and LO
const WORDS: [u32; 6] = [
    0x2402_0007,
    0x3c03_ffff,
    0xac62_0000,
    0x0062_0019,
    0x03e0_0008,
    0,
];

const RECORD: &[u8] = b"job 3 simple end 12345 exit
regs 2=00000007 3=ffff0000 4=10000000 29=20000000 31=fffffff0 hi=00000006 lo=fff90000
out 00000007
mem 00400000 240200073c03ffff
mem 10000001 ab0000
";

// Each trap, and its name.
const TRAPS: [(TrapKind, &str); 11] = [
    (TrapKind::AddressLoad, "address-load"),
    (TrapKind::AddressStore, "address-store"),
    (TrapKind::Overflow, "overflow"),
    (TrapKind::TrapInstr, "trap-instr"),
    (TrapKind::Break, "break"),
    (TrapKind::Syscall, "syscall"),
    (TrapKind::Reserved, "reserved"),
    (TrapKind::FetchFault, "fetch-fault"),
    (TrapKind::ReturnMismatch, "return-mismatch"),
    (TrapKind::ReturnFull, "return-full"),
    (TrapKind::OutputFull, "output-full"),
];

fn span(start: u32, len: u32, x: bool) -> Span
    ensures start { result.start ≡ start }
    ensures len { result.len ≡ len }
{
    Span {
        start,
        len,
        r: true,
        w: !x,
        x,
    }
}

// Puts bytes in where they are declared.
fn fill(memory: &mut Memory, at: u32, bytes: &[u8; 4]) {
    if memory.covers(at, 4, false).is_none() {
        memory.fill(at, bytes);
    }
}

// A machine with room for one word of output, these words of code at 0x00400000 and sixteen bytes of data at 0x10000000,
// which has opened a job.
#[tactic(auto, unfolding(mips_ref::specs::Job::opening, mips_ref::specs::Mips::blank))]
fn machine(alloc: Global) -> Result<State, AllocError>
    ensures { IfOk result (λ state. state.mips.output_max ≡ 1) }
{
    let spans = [span(0x0040_0000, 32, true), span(0x1000_0000, 16, false)];
    let mut memory = Memory::new(alloc, &spans, true).map_err(|_| AllocError)?;
    fill(&mut memory, 0x1000_0000, &[0xcd, 0xab, 0, 0]);
    let mut at = 0x0040_0000u32;
    for word in WORDS {
        fill(&mut memory, at, &word.to_be_bytes());
        at = at.wrapping_add(4);
    }
    let mut state = State::new(alloc, memory, 1).map_err(|_| AllocError)?;
    state.open(0x0040_0000, 0x2000_0000, 0x1000_0000, 0, &[]);
    Ok(state)
}

// A sink after the record of a job, and what the call answered.
fn recorded(
    rt: &impl Abort,
    alloc: Global,
    state: &State,
    step: Step,
    fails: List<PutFail>,
) -> Result<(MemSink, Result<(), SinkFailed>), Fail>
    requires { state.now.mips.output_max ≡ 1 }
{
    let task = read_task(alloc, TASK).map_err(|_| AllocError)?;
    let mut room = LineRoom::new(alloc, &task)?;
    let mut sink = MemSink::new(alloc, 512, fails)?;
    if task.out_max == 0 {
        panic!(rt; "a task without output");
    }
    let show = [span(0x0040_0000, 8, true), span(0x1000_0001, 3, false)];
    let job = JobRecord {
        number: 3,
        mode: JobMode::Simple,
        end_ps: 12345,
        step,
    };
    let put = put_record(&mut sink, &mut room, &job, &[], state, &show);
    assert_eq!(rt; room.line().len(), 0);
    Ok((sink, put))
}

// Six steps go.
fn six_steps(rt: &impl Abort, state: &mut State)
    ensures { state.new.mips.output_max ≡ state.old.mips.output_max }
{
    for _ in 0..6 {
        one_step(rt, state);
    }
}

#[tactic(auto, using(mips_ref::proofs::Steps::step_keeps_room))]
fn one_step(rt: &impl Abort, state: &mut State)
    ensures { state.new.mips.output_max ≡ state.old.mips.output_max }
{
    let answer = state.step();
    assert_eq!(rt; answer, Step::Went);
}

#[test]
fn a_record_is_printed(rt: HostRuntime) -> Result<(), Fail> {
    let alloc = rt.alloc();
    let mut state = machine(alloc)?;
    six_steps(&rt, &mut state);
    let (sink, put) = recorded(&rt, alloc, &state, Step::Exit, List::new(alloc))?;
    assert_eq!(rt; put, Ok(()));
    assert_eq!(rt; sink.bytes(), RECORD);
    // the fifth put is the fifth line
    let fails = List::copy_of(alloc, &[PutFail { call: 5, kept: 3 }])?;
    let (sink, put) = recorded(&rt, alloc, &state, Step::Exit, fails)?;
    assert_eq!(rt; put, Err(SinkFailed));
    assert!(rt; sink.bytes().ends_with(b"3c03ffff\nmem"));
    Ok(())
}

#[test]
fn traps_are_named(rt: HostRuntime) -> Result<(), Fail> {
    let alloc = rt.alloc();
    let state = machine(alloc)?;
    for (kind, name) in TRAPS {
        let step = Step::Trap(kind, 0x0040_0abc);
        let (sink, put) = recorded(&rt, alloc, &state, step, List::new(alloc))?;
        assert_eq!(rt; put, Ok(()));
        let line = format!(in alloc; "job 3 simple end 12345 trap {name} 00400abc\nregs 4=")?;
        assert!(rt; sink.bytes().starts_with(line.as_bytes()), "{name}");
    }
    Ok(())
}
