//! Jobs whose cycles were counted by hand, stage by stage, from the rules of the pipeline: an instruction enters a stage
//! once it has spent its cycles in the last one and the instruction before it has left. A miss and a store cost ten cycles
//! more, a product has four and a quotient sixteen in the execute stage.

ghost use Rattle.std.specs.Option.{ForSome};
ghost use Rattle.cache_lru.specs.Contents.{IsBuildable};

use mips_ref::{Memory, State, Step};
use simple_pipe::{Pipe, PipeStop};
use std::alloc::{AllocError, Global};
use std::test::Fail;
use visa_io::{Machine, Shape, Span};

/// What a machine has of caches.
#[derive(Clone, Copy, Debug, PartialEq, Eq)]
enum Cached {
    No,
    /// One line of 64 bytes.
    Line,
    /// One set of lines of sixteen bytes, of one or two ways.
    OneWay,
    TwoWays,
}

const ENTRY: u32 = 0x0040_0000;

const DATA: u32 = 0x1000_0000;

const NOP: u32 = 0;

const BREAK: u32 = 0x0000_000d;

fn shape(cached: Cached) -> Option<Shape>
    ensures { ForSome result IsBuildable }
{
    match cached {
        Cached::No => None,
        Cached::Line => Some(Shape {
            sets: 1,
            ways: 1,
            line: 64,
        }),
        Cached::OneWay => Some(Shape {
            sets: 1,
            ways: 1,
            line: 16,
        }),
        Cached::TwoWays => Some(Shape {
            sets: 1,
            ways: 2,
            line: 16,
        }),
    }
}

fn pipe(alloc: Global, icache: Cached, dcache: Cached) -> Result<Pipe, AllocError> {
    let machine = Machine {
        width: 1,
        rob: 8,
        mul: 4,
        div: 16,
        mem_ps: 10_000,
        store_ps: 10_000,
        settle_ps: 0,
        start_ps: 0,
        icache: shape(icache),
        dcache: shape(dcache),
    };
    Pipe::new(alloc, &machine)
}

// A machine with these words from the entry on, 64 bytes of data and an output of one word, whose job opens at an address.
// Register 4 has the address of the data.
fn opened(alloc: Global, words: [u32; 6], entry: u32) -> Option<State> {
    let spans = [
        Span {
            start: ENTRY,
            len: 64,
            r: true,
            w: false,
            x: true,
        },
        Span {
            start: DATA,
            len: 64,
            r: true,
            w: true,
            x: false,
        },
    ];
    let mut memory = Memory::new(alloc, &spans, true).ok()?;
    let mut at = ENTRY;
    for word in words {
        if memory.covers(at, 4, false).is_none() {
            memory.fill(at, &word.to_be_bytes());
        }
        at = at.wrapping_add(4);
    }
    let mut state = match State::new(alloc, memory, 1) {
        Ok(state) => state,
        Err(_) => return None,
    };
    state.open(entry, 0x7fff_0000, DATA, 0, &[]);
    Some(state)
}

// The cycles of a job that ends.
fn cycles(pipe: &mut Pipe, state: &mut State) -> u64 {
    pipe.start(1000);
    match pipe.run_to(state, 100) {
        PipeStop::Ended { cycles, .. } => cycles,
        PipeStop::Limit => 0,
    }
}

// A name, the caches, the words and the cycles.
const JOBS: [(&str, Cached, Cached, [u32; 6], u64); 20] = [
    // addiu $2,$0,7; lui $3,65535; sw $2,0($3); jr $31; nop
    (
        "five instructions, each fetched in eleven cycles",
        Cached::No,
        Cached::No,
        [0x2402_0007, 0x3c03_ffff, 0xac62_0000, 0x03e0_0008, NOP, NOP],
        60,
    ),
    // lw $2,0($4); teq $2,$2: the load is in memory from 14 to 25, and its use executes from 25 on
    (
        "a load and its use",
        Cached::Line,
        Cached::No,
        [0x8c82_0000, 0x0042_0034, NOP, NOP, NOP, NOP],
        28,
    ),
    // lw $2,0($4); teq $0,$0
    (
        "a load and another register",
        Cached::Line,
        Cached::No,
        [0x8c82_0000, 0x0000_0034, NOP, NOP, NOP, NOP],
        27,
    ),
    // bne $4,$0,+2; nop; break; break: taken, and in memory at 14, when the last is fetched
    (
        "a branch against its prediction",
        Cached::Line,
        Cached::No,
        [0x1480_0002, NOP, BREAK, BREAK, NOP, NOP],
        20,
    ),
    // beq $4,$0,+2; nop; break
    (
        "a branch by its prediction",
        Cached::Line,
        Cached::No,
        [0x1080_0002, NOP, BREAK, BREAK, NOP, NOP],
        18,
    ),
    // jal 0x0040000c; nop; break; jr $31; nop: the return is in memory at 16, when the break is fetched
    (
        "a call and its return",
        Cached::Line,
        Cached::No,
        [0x0c10_0003, NOP, BREAK, 0x03e0_0008, NOP, NOP],
        22,
    ),
    // mul $2,$4,$4 twice; break: they execute from 13 to 17 and to 21
    (
        "two products in a row",
        Cached::Line,
        Cached::No,
        [0x7084_1002, 0x7084_1002, BREAK, NOP, NOP, NOP],
        24,
    ),
    // lw $2,0($4); sw $3,0($4); break: in memory from 14 to 25 and to 36
    (
        "a store behind a load",
        Cached::Line,
        Cached::No,
        [0x8c82_0000, 0xac83_0000, BREAK, NOP, NOP, NOP],
        38,
    ),
    // traps have no access to data
    (
        "a reserved word",
        Cached::No,
        Cached::No,
        [0xfc00_0000, NOP, NOP, NOP, NOP, NOP],
        16,
    ),
    // lw $2,1($4)
    (
        "a load that traps",
        Cached::No,
        Cached::No,
        [0x8c82_0001, NOP, NOP, NOP, NOP, NOP],
        16,
    ),
    // sw $2,0($0)
    (
        "a store that traps",
        Cached::No,
        Cached::No,
        [0xac02_0000, NOP, NOP, NOP, NOP, NOP],
        16,
    ),
    // break
    (
        "a break",
        Cached::No,
        Cached::No,
        [BREAK, NOP, NOP, NOP, NOP, NOP],
        16,
    ),
    // addiu $31,$0,4; jr $31
    (
        "a return elsewhere",
        Cached::No,
        Cached::No,
        [0x241f_0004, 0x03e0_0008, NOP, NOP, NOP, NOP],
        27,
    ),
    // j 0x00500000; nop: the fetch of what isn't there takes one cycle
    (
        "a fetch where no code is",
        Cached::No,
        Cached::No,
        [0x0814_0000, NOP, NOP, NOP, NOP, NOP],
        28,
    ),
    // four words of a line, and one of the next
    (
        "two lines of code",
        Cached::OneWay,
        Cached::No,
        [NOP, NOP, NOP, NOP, BREAK, NOP],
        30,
    ),
    // lw $2 from 0, 4, 16 and 0 past $4: a miss, a hit and two misses
    (
        "two lines of data in one way",
        Cached::Line,
        Cached::OneWay,
        [
            0x8c82_0000,
            0x8c82_0004,
            0x8c82_0010,
            0x8c82_0000,
            BREAK,
            NOP,
        ],
        50,
    ),
    // the last hits
    (
        "two lines of data in two ways",
        Cached::Line,
        Cached::TwoWays,
        [
            0x8c82_0000,
            0x8c82_0004,
            0x8c82_0010,
            0x8c82_0000,
            BREAK,
            NOP,
        ],
        40,
    ),
    // lui $3,65535; lw $2,0($3) twice; break
    (
        "two loads from the port",
        Cached::Line,
        Cached::TwoWays,
        [0x3c03_ffff, 0x8c62_0000, 0x8c62_0000, BREAK, NOP, NOP],
        39,
    ),
    // the last load hits
    (
        "a load from the port between two from a line",
        Cached::Line,
        Cached::OneWay,
        [
            0x3c03_ffff,
            0x8c82_0000,
            0x8c62_0000,
            0x8c82_0000,
            BREAK,
            NOP,
        ],
        40,
    ),
    // sw $0,0($4); lw $2,0($4); break: the load misses
    (
        "a store before a load",
        Cached::Line,
        Cached::OneWay,
        [0xac80_0000, 0x8c82_0000, BREAK, NOP, NOP, NOP],
        38,
    ),
];

#[test]
fn jobs_take_the_cycles_counted_by_hand(rt: HostRuntime) -> Result<(), Fail> {
    let alloc = rt.alloc();
    for (name, icache, dcache, words, want) in JOBS {
        let mut pipe = pipe(alloc, icache, dcache)?;
        let Some(mut state) = opened(alloc, words, ENTRY) else {
            panic!(rt; "{name}");
        };
        assert_eq!(rt; cycles(&mut pipe, &mut state), want, "{name}");
    }
    Ok(())
}

// Each start empties the caches; a job ends at its limit where it stands at its exit, and else goes on.
#[test]
fn a_start_empties_the_caches_and_a_limit_stops(rt: HostRuntime) -> Result<(), Fail> {
    let alloc = rt.alloc();
    let words = [0x2402_0007, 0x3c03_ffff, 0xac62_0000, 0x03e0_0008, NOP, NOP];
    let mut pipe = pipe(alloc, Cached::OneWay, Cached::No)?;
    let Some(mut state) = opened(alloc, words, ENTRY) else {
        panic!(rt; "no machine");
    };
    for _ in 0..2 {
        state.open(ENTRY, 0x7fff_0000, 0, 0, &[]);
        pipe.start(1000);
        assert_eq!(rt; pipe.run_to(&mut state, 4), PipeStop::Limit);
        state.open(ENTRY, 0x7fff_0000, 0, 0, &[]);
        pipe.start(1000);
        let stop = pipe.run_to(&mut state, 5);
        assert_eq!(rt;
            stop,
            PipeStop::Ended {
                cycles: 30,
                step: Step::Exit
            }
        );
        assert_eq!(rt; state.output(), [7].as_slice());
    }
    Ok(())
}
