//! Steps worked by hand from the MIPS32 manual, of each instruction: sign boundaries, wrapping, shifts by 0 and 31, products and
//! quotients of extreme numbers, targets and links, loads and stores in both byte orders; and whole jobs.

use mips_ref::{Memory, MemoryError, State, Step, TrapKind};
use std::alloc::Global;
use std::process::Abort;
use visa_io::Span;

// A machine with these words of code from an address on, sixteen bytes of data at 0x10000000 and an output of one word, which
// has opened a job.
fn machine(alloc: Global, big: bool, base: u32, words: &[u32]) -> Option<State> {
    let spans = [
        Span {
            start: base,
            len: 64,
            r: true,
            w: true,
            x: true,
        },
        Span {
            start: 0x1000_0000,
            len: 16,
            r: true,
            w: true,
            x: false,
        },
    ];
    let mut memory = Memory::new(alloc, &spans, big).ok()?;
    fill(&mut memory, 0x1000_0000, &DATA);
    let mut at = base;
    for word in words {
        let bytes = if big {
            word.to_be_bytes()
        } else {
            word.to_le_bytes()
        };
        fill(&mut memory, at, &bytes);
        at = at.wrapping_add(4);
    }
    let mut state = match State::new(alloc, memory, 1) {
        Ok(state) => state,
        Err(_) => return None,
    };
    state.open(base, 0x2000_0000, 0x1000_0000, 0, &[]);
    Some(state)
}

const DATA: [u8; 16] = [
    0x11, 0x92, 0x33, 0xf4, 0, 0, 0, 0, 0, 0, 0, 0, 0x85, 0x16, 0xa7, 0x28,
];

fn fill(memory: &mut Memory, at: u32, bytes: &[u8]) {
    if bytes.len() <= 16 && memory.covers(at, bytes.len() as u32, false).is_none() {
        memory.fill(at, bytes);
    }
}

// A machine at this word, which stands at 0x90400024 behind words that set register 3 to rs, register 2 to rt, register 1 to
// 0x99, HI to 1 and LO to 0xffffffff.
fn at_word(alloc: Global, big: bool, word: u32, rs: u32, rt_value: u32) -> Option<State> {
    let words = [
        0x3c03_0000 | rs >> 16,
        0x3463_0000 | rs & 0xffff,
        0x2401_0001,
        0x0020_0011,
        0x2401_ffff,
        0x0020_0013,
        0x3c02_0000 | rt_value >> 16,
        0x3442_0000 | rt_value & 0xffff,
        0x2401_0099,
        word,
    ];
    let mut state = machine(alloc, big, 0x9040_0000, &words)?;
    for _ in 0..9 {
        if state.step() != Step::Went {
            return None;
        }
    }
    Some(state)
}

// The state behind one step at this word, or the trap.
fn stepped(
    rt: &impl Abort,
    alloc: Global,
    big: bool,
    word: u32,
    values: (u32, u32),
) -> Result<State, TrapKind> {
    let Some(mut state) = at_word(alloc, big, word, values.0, values.1) else {
        panic!(rt; "no machine");
    };
    match state.step() {
        Step::Went => Ok(state),
        Step::Trap(kind, 0x9040_0024) => Err(kind),
        answer => panic!(rt; "{answer:?}"),
    }
}

// A word, the values of rs and rt, and then that of register 1, or the trap.
const REGISTERS: [(u32, u32, u32, Result<u32, TrapKind>); 46] = [
    // sllv, srlv and srav by 33 shift by one
    (0x0062_0804, 33, 0x8000_0001, Ok(2)),
    (0x0062_0806, 33, 0x8000_0001, Ok(0x4000_0000)),
    (0x0062_0807, 33, 0x8000_0001, Ok(0xc000_0000)),
    // sll, srl and sra by 0 and by 31
    (0x0002_0800, 0, 0x8000_0001, Ok(0x8000_0001)),
    (0x0002_0fc0, 0, 0x8000_0001, Ok(0x8000_0000)),
    (0x0002_0802, 0, 0x8000_0001, Ok(0x8000_0001)),
    (0x0002_0fc2, 0, 0x8000_0001, Ok(1)),
    (0x0002_0803, 0, 0x8000_0001, Ok(0x8000_0001)),
    (0x0002_0fc3, 0, 0x8000_0001, Ok(0xffff_ffff)),
    // movz and movn
    (0x0062_080a, 5, 0, Ok(5)),
    (0x0062_080a, 5, 1, Ok(0x99)),
    (0x0062_080b, 5, 0, Ok(0x99)),
    (0x0062_080b, 5, 1, Ok(5)),
    // add, addu, sub and subu at the sign boundary
    (0x0062_0820, 0x7fff_ffff, 1, Err(TrapKind::Overflow)),
    (0x0062_0820, 0x7fff_ffff, 0xffff_ffff, Ok(0x7fff_fffe)),
    (0x0062_0821, 0x7fff_ffff, 1, Ok(0x8000_0000)),
    (0x0062_0821, 0xffff_ffff, 1, Ok(0)),
    (0x0062_0822, 0x8000_0000, 1, Err(TrapKind::Overflow)),
    (0x0062_0822, 0, 0x7fff_ffff, Ok(0x8000_0001)),
    (0x0062_0823, 0, 1, Ok(0xffff_ffff)),
    // and, or, xor, nor
    (0x0062_0824, 0xf0f0_f0f0, 0xff00_ff00, Ok(0xf000_f000)),
    (0x0062_0825, 0xf0f0_0000, 0x00ff_0000, Ok(0xf0ff_0000)),
    (0x0062_0826, 0xffff_0000, 0xf0f0_f0f0, Ok(0x0f0f_f0f0)),
    (0x0062_0827, 0x0f0f_0000, 0x0000_00ff, Ok(0xf0f0_ff00)),
    // slt, sltu, mul
    (0x0062_082a, 0xffff_ffff, 0, Ok(1)),
    (0x0062_082a, 0, 0x8000_0000, Ok(0)),
    (0x0062_082b, 0xffff_ffff, 0, Ok(0)),
    (0x7062_0802, 0xffff_ffff, 3, Ok(0xffff_fffd)),
    // mfhi, mflo
    (0x0000_0810, 0, 0, Ok(1)),
    (0x0000_0812, 0, 0, Ok(0xffff_ffff)),
    // clz and clo, up to all bits
    (0x7061_0820, 0x0000_8000, 0, Ok(16)),
    (0x7061_0820, 0, 0, Ok(32)),
    (0x7061_0821, 0xfffe_0000, 0, Ok(15)),
    (0x7061_0821, 0xffff_ffff, 0, Ok(32)),
    // addi and addiu with -1 and the least constant
    (0x2061_ffff, 0x8000_0000, 0, Err(TrapKind::Overflow)),
    (0x2061_8000, 0x8000_8000, 0, Ok(0x8000_0000)),
    (0x2461_ffff, 0, 0, Ok(0xffff_ffff)),
    (0x2461_8000, 0x8000_0000, 0, Ok(0x7fff_8000)),
    // slti and sltiu with -1, and with the greatest constant
    (0x2861_ffff, 0, 0, Ok(0)),
    (0x2861_7fff, 0x8000_0000, 0, Ok(1)),
    (0x2c61_ffff, 0, 0, Ok(1)),
    // andi, ori, xori and lui
    (0x3061_ffff, 0xffff_ffff, 0, Ok(0xffff)),
    (0x3461_8000, 0x7fff_0001, 0, Ok(0x7fff_8001)),
    (0x3861_ffff, 0xffff_ffff, 0, Ok(0xffff_0000)),
    (0x3c01_8000, 0, 0, Ok(0x8000_0000)),
    (0x3c01_0001, 0, 0, Ok(0x0001_0000)),
];

#[test]
fn a_step_writes_a_register(rt: HostRuntime) {
    for (word, rs, rt_value, want) in REGISTERS {
        let after = match stepped(&rt, rt.alloc(), true, word, (rs, rt_value)) {
            Ok(state) => Ok(state.register(1)),
            Err(kind) => Err(kind),
        };
        assert_eq!(rt; after, want, "{word:08x}");
    }
}

// A word, the values of rs and rt, and then those of HI and LO.
const PAIRS: [(u32, u32, u32, u32, u32); 17] = [
    // mult, multu
    (0x0062_0018, 0x8000_0000, 0x8000_0000, 0x4000_0000, 0),
    (0x0062_0018, 0xffff_ffff, 2, 0xffff_ffff, 0xffff_fffe),
    (0x0062_0019, 0xffff_ffff, 2, 1, 0xffff_fffe),
    // div: -7 by 2, by zero, and the least number by -1; divu
    (0x0062_001a, 0xffff_fff9, 2, 0xffff_ffff, 0xffff_fffd),
    (0x0062_001a, 7, 0, 1, 0xffff_ffff),
    (0x0062_001a, 0x8000_0000, 0xffff_ffff, 0, 0x8000_0000),
    (0x0062_001b, 7, 2, 1, 3),
    (0x0062_001b, 0xffff_fff9, 2, 1, 0x7fff_fffc),
    (0x0062_001b, 7, 0, 1, 0xffff_ffff),
    // madd, maddu past 2^64, msub and msubu
    (0x7062_0000, 0xffff_ffff, 1, 1, 0xffff_fffe),
    (0x7062_0001, 0xffff_ffff, 0xffff_ffff, 0, 0),
    (0x7062_0001, 1, 1, 2, 0),
    (0x7062_0004, 0xffff_ffff, 1, 2, 0),
    (0x7062_0004, 2, 0xffff_ffff, 2, 1),
    (0x7062_0005, 0xffff_ffff, 0xffff_ffff, 3, 0xffff_fffe),
    // mthi, mtlo
    (0x0060_0011, 5, 0, 5, 0xffff_ffff),
    (0x0060_0013, 5, 0, 1, 5),
];

#[test]
fn a_step_writes_hi_and_lo(rt: HostRuntime) {
    for (word, rs, rt_value, hi, lo) in PAIRS {
        let after = match stepped(&rt, rt.alloc(), true, word, (rs, rt_value)) {
            Ok(state) => Ok((state.hi(), state.lo())),
            Err(kind) => Err(kind),
        };
        assert_eq!(rt; after, Ok((hi, lo)), "{word:08x}");
    }
}

// A word, the values of rs and rt, and then the instruction after the next one and register 31, or the trap.
const CONTROL: [(u32, u32, u32, Result<(u32, u32), TrapKind>); 37] = [
    // beq, bne
    (0x1062_0002, 1, 1, Ok((0x9040_0030, EXIT))),
    (0x1062_0002, 1, 2, Ok((0x9040_002c, EXIT))),
    (0x1462_ffff, 1, 2, Ok((0x9040_0024, EXIT))),
    (0x1462_ffff, 1, 1, Ok((0x9040_002c, EXIT))),
    // blez, bgtz, bltz, bgez
    (0x1860_0002, 0, 0, Ok((0x9040_0030, EXIT))),
    (0x1860_0002, 1, 0, Ok((0x9040_002c, EXIT))),
    (0x1c60_0002, 0, 0, Ok((0x9040_002c, EXIT))),
    (0x1c60_0002, 0x7fff_ffff, 0, Ok((0x9040_0030, EXIT))),
    (0x0460_0002, 0x8000_0000, 0, Ok((0x9040_0030, EXIT))),
    (0x0460_0002, 0, 0, Ok((0x9040_002c, EXIT))),
    (0x0461_0002, 0, 0, Ok((0x9040_0030, EXIT))),
    (0x0461_0002, 0xffff_ffff, 0, Ok((0x9040_002c, EXIT))),
    // bltzal and bgezal, which link in any case
    (0x0470_0002, 0xffff_ffff, 0, Ok((0x9040_0030, 0x9040_002c))),
    (0x0470_0002, 0, 0, Ok((0x9040_002c, 0x9040_002c))),
    (0x0471_0002, 0, 0, Ok((0x9040_0030, 0x9040_002c))),
    (0x0471_0002, 0x8000_0000, 0, Ok((0x9040_002c, 0x9040_002c))),
    // j and jal keep the upper four bits
    (0x0810_0000, 0, 0, Ok((0x9040_0000, EXIT))),
    (0x0c00_0000, 0, 0, Ok((0x9000_0000, 0x9040_002c))),
    // jr, jalr
    (0x0060_0008, 0x1234_5678, 0, Ok((0x1234_5678, EXIT))),
    (0x0060_f809, 0x1234_5678, 0, Ok((0x1234_5678, 0x9040_002c))),
    // pref of an address that is no memory, sync and a shift of register 0
    (0xcc60_0000, 0x7fff_ffff, 0, Ok((0x9040_002c, EXIT))),
    (0x0000_000f, 0, 0, Ok((0x9040_002c, EXIT))),
    (0x0000_0000, 0, 0, Ok((0x9040_002c, EXIT))),
    // tge, tgeu, tlt, tltu, teq, tne
    (0x0062_0030, 0, 0xffff_ffff, Err(TrapKind::TrapInstr)),
    (0x0062_0030, 0xffff_ffff, 0, Ok((0x9040_002c, EXIT))),
    (0x0062_0031, 0xffff_ffff, 0, Err(TrapKind::TrapInstr)),
    (0x0062_0031, 0, 0xffff_ffff, Ok((0x9040_002c, EXIT))),
    (0x0062_0032, 0xffff_ffff, 0, Err(TrapKind::TrapInstr)),
    (0x0062_0032, 0, 0, Ok((0x9040_002c, EXIT))),
    (0x0062_0033, 0, 0xffff_ffff, Err(TrapKind::TrapInstr)),
    (0x0062_0033, 0xffff_ffff, 0, Ok((0x9040_002c, EXIT))),
    (0x0062_0034, 1, 1, Err(TrapKind::TrapInstr)),
    (0x0062_0034, 1, 2, Ok((0x9040_002c, EXIT))),
    (0x0062_0036, 1, 2, Err(TrapKind::TrapInstr)),
    (0x0062_0036, 1, 1, Ok((0x9040_002c, EXIT))),
    // syscall, break
    (0x0000_000c, 0, 0, Err(TrapKind::Syscall)),
    (0x0000_000d, 0, 0, Err(TrapKind::Break)),
];

const EXIT: u32 = 0xffff_fff0;

#[test]
fn a_step_goes_on(rt: HostRuntime) {
    for (word, rs, rt_value, want) in CONTROL {
        let after = match stepped(&rt, rt.alloc(), true, word, (rs, rt_value)) {
            Ok(state) => Ok((state.next_pc(), state.register(31))),
            Err(kind) => Err(kind),
        };
        assert_eq!(rt; after, want, "{word:08x}");
    }
}

// A load, its address, and then register 2, big-endian and little-endian, or the trap. Register 2 is aabbccdd before.
const LOADS: [(u32, u32, Result<(u32, u32), TrapKind>); 33] = [
    // lb and lbu: both ends of the data, and beside them
    (0x8062_0000, 0x1000_0000, Ok((0x11, 0x11))),
    (0x8062_0000, 0x1000_0001, Ok((0xffff_ff92, 0xffff_ff92))),
    (0x8062_0000, 0x1000_000f, Ok((0x28, 0x28))),
    (0x8062_0000, 0x1000_0010, Err(TrapKind::AddressLoad)),
    (0x8062_0000, 0x0fff_ffff, Err(TrapKind::AddressLoad)),
    (0x9062_0000, 0x1000_0001, Ok((0x92, 0x92))),
    // lh and lhu
    (0x8462_0000, 0x1000_0000, Ok((0x1192, 0xffff_9211))),
    (0x8462_0000, 0x1000_000e, Ok((0xffff_a728, 0x28a7))),
    (0x8462_0000, 0x1000_000f, Err(TrapKind::AddressLoad)),
    (0x8462_0000, 0x1000_0010, Err(TrapKind::AddressLoad)),
    (0x9462_0000, 0x1000_0000, Ok((0x1192, 0x9211))),
    (0x9462_0000, 0x1000_000e, Ok((0xa728, 0x28a7))),
    // lw
    (0x8c62_0000, 0x1000_0000, Ok((0x1192_33f4, 0xf433_9211))),
    (0x8c62_0000, 0x1000_000c, Ok((0x8516_a728, 0x28a7_1685))),
    (0x8c62_0000, 0x1000_000e, Err(TrapKind::AddressLoad)),
    (0x8c62_0000, 0x1000_0010, Err(TrapKind::AddressLoad)),
    // lwl and lwr of each byte of the last word, and at the ends
    (0x8862_0000, 0x1000_000c, Ok((0x8516_a728, 0x85bb_ccdd))),
    (0x8862_0000, 0x1000_000d, Ok((0x16a7_28dd, 0x1685_ccdd))),
    (0x8862_0000, 0x1000_000e, Ok((0xa728_ccdd, 0xa716_85dd))),
    (0x8862_0000, 0x1000_000f, Ok((0x28bb_ccdd, 0x28a7_1685))),
    (0x8862_0000, 0x1000_0010, Err(TrapKind::AddressLoad)),
    (0x9862_0000, 0x1000_000c, Ok((0xaabb_cc85, 0x28a7_1685))),
    (0x9862_0000, 0x1000_000d, Ok((0xaabb_8516, 0xaa28_a716))),
    (0x9862_0000, 0x1000_000e, Ok((0xaa85_16a7, 0xaabb_28a7))),
    (0x9862_0000, 0x1000_000f, Ok((0x8516_a728, 0xaabb_cc28))),
    (0x9862_0000, 0x1000_0000, Ok((0xaabb_cc11, 0xf433_9211))),
    (0x9862_0000, 0x0fff_ffff, Err(TrapKind::AddressLoad)),
    // the port reads zero
    (0x8c62_0000, 0xffff_0000, Ok((0, 0))),
    (0x8462_0000, 0xffff_0002, Ok((0, 0))),
    (0x9062_0000, 0xffff_0003, Ok((0, 0))),
    (0x8862_0000, 0xffff_0003, Ok((0x00bb_ccdd, 0))),
    (0x8062_0000, 0xffff_0004, Err(TrapKind::AddressLoad)),
    (0x8062_0000, 0xfffe_ffff, Err(TrapKind::AddressLoad)),
];

fn load_in_both_orders(
    rt: &impl Abort,
    alloc: Global,
    word: u32,
    at: u32,
) -> Result<(u32, u32), TrapKind> {
    let big = stepped(rt, alloc, true, word, (at, 0xaabb_ccdd))?;
    let little = stepped(rt, alloc, false, word, (at, 0xaabb_ccdd))?;
    Ok((big.register(2), little.register(2)))
}

#[test]
fn a_step_loads(rt: HostRuntime) {
    for (word, at, want) in LOADS {
        let after = load_in_both_orders(&rt, rt.alloc(), word, at);
        assert_eq!(rt; after, want, "{word:08x} at {at:08x}");
    }
}

// A store of aabbccdd, its address, and then the four bytes around it, big-endian and little-endian, or the trap.
const STORES: [(u32, u32, Result<(u32, u32), TrapKind>); 29] = [
    // sb
    (0xa062_0000, 0x1000_0000, Ok((0xdd92_33f4, 0xdd92_33f4))),
    (0xa062_0000, 0x1000_000f, Ok((0x8516_a7dd, 0x8516_a7dd))),
    (0xa062_0000, 0x1000_0010, Err(TrapKind::AddressStore)),
    (0xa062_0000, 0x0fff_ffff, Err(TrapKind::AddressStore)),
    // sh
    (0xa462_0000, 0x1000_0000, Ok((0xccdd_33f4, 0xddcc_33f4))),
    (0xa462_0000, 0x1000_000e, Ok((0x8516_ccdd, 0x8516_ddcc))),
    (0xa462_0000, 0x1000_000f, Err(TrapKind::AddressStore)),
    (0xa462_0000, 0x1000_0010, Err(TrapKind::AddressStore)),
    // sw
    (0xac62_0000, 0x1000_000c, Ok((0xaabb_ccdd, 0xddcc_bbaa))),
    (0xac62_0000, 0x1000_000e, Err(TrapKind::AddressStore)),
    (0xac62_0000, 0x1000_0010, Err(TrapKind::AddressStore)),
    // swl and swr at each byte of the last word, and at the ends
    (0xa862_0000, 0x1000_000c, Ok((0xaabb_ccdd, 0xaa16_a728))),
    (0xa862_0000, 0x1000_000d, Ok((0x85aa_bbcc, 0xbbaa_a728))),
    (0xa862_0000, 0x1000_000e, Ok((0x8516_aabb, 0xccbb_aa28))),
    (0xa862_0000, 0x1000_000f, Ok((0x8516_a7aa, 0xddcc_bbaa))),
    (0xa862_0000, 0x1000_0010, Err(TrapKind::AddressStore)),
    (0xb862_0000, 0x1000_000c, Ok((0xdd16_a728, 0xddcc_bbaa))),
    (0xb862_0000, 0x1000_000d, Ok((0xccdd_a728, 0x85dd_ccbb))),
    (0xb862_0000, 0x1000_000e, Ok((0xbbcc_dd28, 0x8516_ddcc))),
    (0xb862_0000, 0x1000_000f, Ok((0xaabb_ccdd, 0x8516_a7dd))),
    (0xb862_0000, 0x1000_0000, Ok((0xdd92_33f4, 0xddcc_bbaa))),
    (0xb862_0000, 0x0fff_ffff, Err(TrapKind::AddressStore)),
    // code, and the port, which takes words alone
    (0xac62_0000, 0x9040_0000, Err(TrapKind::AddressStore)),
    (0xa062_0000, 0x9040_003f, Err(TrapKind::AddressStore)),
    (0xac62_0000, 0xffff_0000, Ok((0, 0))),
    (0xa062_0000, 0xffff_0000, Err(TrapKind::AddressStore)),
    (0xa462_0000, 0xffff_0002, Err(TrapKind::AddressStore)),
    (0xa862_0000, 0xffff_0000, Err(TrapKind::AddressStore)),
    (0xb862_0000, 0xffff_0003, Err(TrapKind::AddressStore)),
];

// The four bytes around an address as a number, the first one highest.
fn bytes_around(memory: &Memory, at: u32) -> u32 {
    let start = at - at % 4;
    let mut bytes = 0;
    for k in 0..4 {
        bytes = bytes << 8 | u32::from(memory.byte(start | k).unwrap_or(0));
    }
    bytes
}

fn store_in_both_orders(
    rt: &impl Abort,
    alloc: Global,
    word: u32,
    at: u32,
) -> Result<(u32, u32), TrapKind> {
    let big = stepped(rt, alloc, true, word, (at, 0xaabb_ccdd))?;
    let little = stepped(rt, alloc, false, word, (at, 0xaabb_ccdd))?;
    Ok((
        bytes_around(big.memory(), at),
        bytes_around(little.memory(), at),
    ))
}

#[test]
fn a_step_stores(rt: HostRuntime) {
    for (word, at, want) in STORES {
        let after = store_in_both_orders(&rt, rt.alloc(), word, at);
        assert_eq!(rt; after, want, "{word:08x} at {at:08x}");
    }
}

// The words of a job, how many of its steps go, and how it ends.
const JOBS: [([u32; 5], u32, Step); 13] = [
    // one word to the port, and the return to the exit address
    (
        [0x2402_0007, 0x3c03_ffff, 0xac62_0000, 0x03e0_0008, 0],
        5,
        Step::Exit,
    ),
    // a second word
    (
        [0x2402_0007, 0x3c03_ffff, 0xac62_0000, 0xac62_0000, 0],
        3,
        Step::Trap(TrapKind::OutputFull, 0x0040_000c),
    ),
    // stores into code, though its range says that it can be written, and of a byte to the port
    (
        [0x3c03_0040, 0xac62_0000, 0, 0, 0],
        1,
        Step::Trap(TrapKind::AddressStore, 0x0040_0004),
    ),
    (
        [0x3c03_ffff, 0xa062_0000, 0, 0, 0],
        1,
        Step::Trap(TrapKind::AddressStore, 0x0040_0004),
    ),
    // loads of the port, past it, and of a word at an odd half
    (
        [0x3c03_ffff, 0x8c62_0000, 0x8c62_0004, 0, 0],
        2,
        Step::Trap(TrapKind::AddressLoad, 0x0040_0008),
    ),
    (
        [0x3c03_1000, 0x8c62_0002, 0, 0, 0],
        1,
        Step::Trap(TrapKind::AddressLoad, 0x0040_0004),
    ),
    // the call that would be the 65th address on the stack
    (
        [0x0c10_0000, 0, 0, 0, 0],
        126,
        Step::Trap(TrapKind::ReturnFull, 0x0040_0000),
    ),
    // a return to another address than the pushed one
    (
        [0x241f_0008, 0x03e0_0008, 0, 0, 0],
        1,
        Step::Trap(TrapKind::ReturnMismatch, 0x0040_0004),
    ),
    // past the code, a word that is no instruction, and the traps by name
    (
        [0, 0, 0, 0, 0],
        16,
        Step::Trap(TrapKind::FetchFault, 0x0040_0040),
    ),
    (
        [0xffff_ffff, 0, 0, 0, 0],
        0,
        Step::Trap(TrapKind::Reserved, 0x0040_0000),
    ),
    (
        [0x0000_000c, 0, 0, 0, 0],
        0,
        Step::Trap(TrapKind::Syscall, 0x0040_0000),
    ),
    (
        [0x0000_000d, 0, 0, 0, 0],
        0,
        Step::Trap(TrapKind::Break, 0x0040_0000),
    ),
    (
        [0x0000_0034, 0, 0, 0, 0],
        0,
        Step::Trap(TrapKind::TrapInstr, 0x0040_0000),
    ),
];

#[test]
fn jobs_end_as_they_must(rt: HostRuntime) {
    for (words, went, end) in JOBS {
        let Some(mut state) = machine(rt.alloc(), true, 0x0040_0000, &words) else {
            panic!(rt; "no machine");
        };
        for _ in 0..went {
            assert_eq!(rt; state.step(), Step::Went, "{words:?}");
        }
        assert_eq!(rt; state.step(), end, "{words:?}");
        assert_eq!(rt; state.computed(), u64::from(went), "{words:?}");
    }
}

#[test]
fn a_job_leaves_its_output(rt: HostRuntime) {
    let Some(mut state) = machine(
        rt.alloc(),
        true,
        0x0040_0000,
        &[0x2402_0007, 0x3c03_ffff, 0xac62_0000, 0x03e0_0008, 0],
    ) else {
        panic!(rt; "no machine");
    };
    assert_eq!(rt; state.register(31), 0xffff_fff0);
    assert_eq!(rt; state.register(29), 0x2000_0000);
    for _ in 0..5 {
        assert_eq!(rt; state.step(), Step::Went);
    }
    assert!(rt; state.at_exit());
    assert_eq!(rt; state.output().len(), 1);
    assert_eq!(rt; state.output().first().copied(), Some(7));
    assert_eq!(rt; state.memory().byte(0x0040_0003), Some(7));
    assert_eq!(rt; state.memory().byte(0x0040_0040), None);
}

#[test]
fn memories_are_refused(rt: HostRuntime) {
    let span = |start: u32, len: u32| Span {
        start,
        len,
        r: true,
        w: true,
        x: false,
    };
    let cases = [
        (
            [span(0x20, 16), span(0x10, 17)],
            MemoryError::Overlap { at: 0x20 },
        ),
        (
            [span(0xfffe_fff0, 32), span(0x10, 1)],
            MemoryError::Overlap { at: 0xffff_0000 },
        ),
        (
            [span(0, 0x20_0000), span(0x1000_0000, 0x20_0001)],
            MemoryError::TooBig,
        ),
    ];
    for (spans, want) in cases {
        match Memory::new(rt.alloc(), &spans, false) {
            Ok(_) => panic!(rt; "a memory"),
            Err(e) => assert_eq!(rt; e, want),
        }
    }
}
