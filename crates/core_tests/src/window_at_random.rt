//! Random events over random code leave the state that as many steps of the reference leave.
use crate::window::{Core, machine, open_core};
use core_window::Event;
use mips_ref::{State, Step};
use std::alloc::Global;
use std::process::Abort;

// A linear congruential generator of 64 bits (Knuth's MMIX), which gives its upper half.
#[derive(Drop)]
struct Random(u64);

impl Random {
    fn next(&mut self) -> u32 {
        self.0 = self
            .0
            .wrapping_mul(6_364_136_223_846_793_005)
            .wrapping_add(1_442_695_040_888_963_407);
        (self.0 >> 32) as u32
    }

    fn below(&mut self, n: u32) -> u32 {
        if n == 0 { 0 } else { self.next() % n }
    }
}

// Words of all instructions with the fields 0: three registers, shifts, products, HI and LO, counts, constants, loads, stores, pref,
// branches, jumps, traps, stops and sync, and a word that is none.
const FORMS: [u32; 72] = [
    0x0000_0004,
    0x0000_0006,
    0x0000_0007,
    0x0000_000a,
    0x0000_000b,
    0x0000_0020,
    0x0000_0021,
    0x0000_0022,
    0x0000_0023,
    0x0000_0024,
    0x0000_0025,
    0x0000_0026,
    0x0000_0027,
    0x0000_002a,
    0x0000_002b,
    0x7000_0002,
    0x0000_0000,
    0x0000_0002,
    0x0000_0003,
    0x0000_0018,
    0x0000_0019,
    0x0000_001a,
    0x0000_001b,
    0x7000_0000,
    0x7000_0001,
    0x7000_0004,
    0x7000_0005,
    0x0000_0010,
    0x0000_0012,
    0x0000_0011,
    0x0000_0013,
    0x7000_0020,
    0x7000_0021,
    0x2000_0000,
    0x2400_0000,
    0x2800_0000,
    0x2c00_0000,
    0x3000_0000,
    0x3400_0000,
    0x3800_0000,
    0x3c00_0000,
    0x8000_0000,
    0x8400_0000,
    0x8800_0000,
    0x8c00_0000,
    0x9000_0000,
    0x9400_0000,
    0x9800_0000,
    0xa000_0000,
    0xa400_0000,
    0xa800_0000,
    0xac00_0000,
    0xb800_0000,
    0xcc00_0000,
    0x1000_0000,
    0x1400_0000,
    0x1800_0000,
    0x1c00_0000,
    0x0400_0000,
    0x0401_0000,
    0x0410_0000,
    0x0411_0000,
    0x0810_0000,
    0x0c10_0000,
    0x0000_0008,
    0x0000_0009,
    0x0000_0030,
    0x0000_0034,
    0x0000_000c,
    0x0000_000d,
    0x0000_000f,
    0xffff_ffff,
];

// The form of a word with fields that mostly fit it: registers 0 to 7, small offsets and targets, and the buffer's address in
// register 4 as the base of loads and stores.
fn word(random: &mut Random) -> u32 {
    let index = random.below(72);
    let form = *FORMS.get(index as usize).unwrap_or(&0);
    let rs = random.below(8) << 21;
    let rt = random.below(8) << 16;
    let rd = random.below(8) << 11;
    let near = random.below(8).wrapping_add(0xfffe) & 0xffff;
    let fields = match index {
        0..=15 => rs | rt | rd,
        16..=18 => rt | rd | (random.below(32) << 6),
        19..=26 => rs | rt,
        27 | 28 => rd,
        29 | 30 => rs,
        31 | 32 => rs | rt | (rt >> 5),
        33..=39 => rs | rt | random.below(0x1_0000),
        40 => rt | random.below(0x1_0000),
        41..=53 => (4 << 21) | rt | random.below(20),
        54 | 55 => rs | rt | near,
        56..=61 => rs | near,
        62 | 63 => random.below(14),
        64 => { if random.below(2) == 0 { 31 << 21 } else { rs } }
        65 => rs | rd,
        66 | 67 => rs | rt,
        _ => 0,
    };
    form | fields
}

fn event(c: &Core, random: &mut Random) -> Event {
    let (_, next) = c.window.fetch_pair();
    let k = random.below(8) as usize;
    match random.below(16) {
        0..=2 => Event::Fetch {
            guess: next.wrapping_add(4),
        },
        3 => Event::Fetch {
            guess: random.below(16).wrapping_mul(4).wrapping_add(0x0040_0000),
        },
        4..=7 => Event::Issue { k },
        8..=10 => Event::Finish { k },
        11 | 12 => Event::Squash { k },
        _ => Event::Commit,
    }
}

fn is_same(a: &State, b: &State) -> bool {
    for r in 0..32u8 {
        if a.register(r) != b.register(r) {
            return false;
        }
    }
    for at in 0x1000_0000u32..0x1000_0010 {
        if a.memory().byte(at) != b.memory().byte(at) {
            return false;
        }
    }
    a.hi() == b.hi()
        && a.lo() == b.lo()
        && a.pc() == b.pc()
        && a.next_pc() == b.next_pc()
        && a.output() == b.output()
}

// Plays random events; each commit whose step goes is one step of the reference. How many went, or None where the states differ.
fn play(c: &mut Core, reference: &mut State, random: &mut Random) -> Option<u32> {
    let mut went = 0u32;
    for _ in 0..120 {
        let e = event(c, random);
        let made = c.apply(e);
        let goes = match c.window.ending() {
            Some(Step::Trap(_, _)) => false,
            Some(Step::Went) | Some(Step::Exit) | None => true,
        };
        if made && goes && e == Event::Commit {
            reference.step();
            went = went.saturating_add(1);
        }
        if c.state.pc() != reference.pc() {
            return None;
        }
    }
    if is_same(&c.state, reference) {
        Some(went)
    } else {
        None
    }
}

fn code(random: &mut Random) -> [u32; 16] {
    let mut words = [0; 16];
    for w in words.iter_mut() {
        *w = word(random);
    }
    words
}

// Two thousand lists; the steps that went in all of them, or None where a state differs or memory runs out.
fn play_all(alloc: Global) -> Option<u32> {
    let mut random = Random(1);
    let mut went = 0u32;
    for list in 0..2000u32 {
        let words = code(&mut random);
        let mut c = open_core(alloc, 8, list % 2 == 0, &words, 2)?;
        let mut reference = machine(alloc, list % 2 == 0, &words, 2)?;
        went = went.saturating_add(play(&mut c, &mut reference, &mut random)?);
    }
    Some(went)
}

#[test]
fn random_events_leave_the_references_state(rt: HostRuntime) {
    let went = play_all(rt.alloc()).expect(&rt, "the same state");
    assert!(&rt; went > 2000);
}
