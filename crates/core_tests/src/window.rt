//! Lists of events of the window, worked by hand.
use core_window::{EntryView, Event, Status3, Window};
use mips_ref::{Memory, State, Step, TrapKind};
use std::alloc::Global;
use std::marker::Model;
use std::process::Abort;
use visa_io::Span;

// A window beside the state that it was opened with or last left.
#[derive(Drop)]
pub struct Core {
    pub window: Window,
    pub state: State,
}

impl Model for Core {
    ghost use Rattle.core_window.specs.Beside.{Stands};
    ghost use Rattle.core_window.specs.Core.{Pair, paired};

    ghost Value = { Pair };

    ghost view = { λ c. paired c.window c.state.mips };

    ghost invariant = { λ c. Stands c.window c.state.mips };
}

// Where the code stands.
const BASE: u32 = 0x0040_0000;

fn fill(memory: &mut Memory, at: u32, bytes: &[u8]) {
    if bytes.len() <= 16 && memory.covers(at, bytes.len() as u32, false).is_none() {
        memory.fill(at, bytes);
    }
}

// A machine with these words of code, sixteen bytes of data at 0x10000000, namely 0 to 15, and an output of so many words.
pub fn machine(alloc: Global, big: bool, words: &[u32], out_max: u32) -> Option<State> {
    let spans = [
        Span {
            start: BASE,
            len: 256,
            r: true,
            w: false,
            x: true,
        },
        Span {
            start: 0x1000_0000,
            len: 16,
            r: true,
            w: true,
            x: false,
        },
    ];
    let mut memory = Memory::new(alloc, &spans, big).ok()?;
    let data: [u8; 16] = [0, 1, 2, 3, 4, 5, 6, 7, 8, 9, 10, 11, 12, 13, 14, 15];
    fill(&mut memory, 0x1000_0000, &data);
    let mut at = BASE;
    for word in words {
        let bytes = if big {
            word.to_be_bytes()
        } else {
            word.to_le_bytes()
        };
        fill(&mut memory, at, &bytes);
        at = at.wrapping_add(4);
    }
    let mut state = match State::new(alloc, memory, out_max) {
        Ok(state) => state,
        Err(_) => return None,
    };
    state.open(BASE, 0x2000_0000, 0x1000_0000, 0, &[]);
    Some(state)
}

// A window of so many entries on such a machine.
pub fn open_core(alloc: Global, rob: u32, big: bool, words: &[u32], out_max: u32) -> Option<Core> {
    let state = machine(alloc, big, words, out_max)?;
    let mut window = Window::new(alloc, rob).ok()?;
    window.open(&state);
    Some(Core { window, state })
}

impl Core {
    pub fn apply(&mut self, e: Event) -> bool {
        self.window.apply(&mut self.state, e)
    }

    // Whether the calls of `apply` answer so.
    fn play(&mut self, events: &[(Event, bool)]) -> bool {
        for (e, made) in events {
            if self.apply(*e) != *made {
                return false;
            }
        }
        true
    }

    fn register(&self, r: u8) -> u32 {
        if r < 32 { self.state.register(r) } else { 0 }
    }

    fn entry(&self, k: usize) -> Option<EntryView> {
        if k < self.window.len() {
            Some(self.window.entry(k))
        } else {
            None
        }
    }
}

const fn fetch(guess: u32) -> (Event, bool) {
    (Event::Fetch { guess }, true)
}

// The events that run an entry to its end.
fn runs(k: usize) -> [(Event, bool); 2] {
    [(Event::Issue { k }, true), (Event::Finish { k }, true)]
}

const COMMIT: (Event, bool) = (Event::Commit, true);

// The entry's next, with whether it is done, or 0.
fn next_of(view: Option<EntryView>) -> (u32, u32, u32, Status3) {
    match view {
        Some(v) => (v.npc, v.guess, v.next, v.status),
        None => (0, 0, 0, Status3::Waiting),
    }
}

// addiu $2,$0,7
#[test]
fn an_empty_window_commits_nothing_and_the_first_instruction_goes_through(rt: HostRuntime) {
    let code = [0x2402_0007, 0x3c03_ffff, 0xac62_0000, 0x03e0_0008, 0];
    let mut c = open_core(rt.alloc(), 8, true, &code, 16).expect(&rt, "memory");
    let answers = c.play(&[
        (Event::Commit, false),
        fetch(0x0040_0008),
        (Event::Issue { k: 0 }, true),
        (Event::Commit, false),
        (Event::Finish { k: 0 }, true),
        COMMIT,
    ]);
    assert!(&rt; answers);
    assert_eq!(&rt; c.register(2), 7);
}

// beq $0,$0,40000010; addiu $1,$0,5; addiu $2,$0,6; addiu $3,$0,7; addiu $4,$0,8
const BRANCH: [u32; 5] = [
    0x1000_0003,
    0x2401_0005,
    0x2402_0006,
    0x2403_0007,
    0x2404_0008,
];

// Fetches the branch as not taken, its slot and the instruction after it, and finishes the branch.
const MISPREDICTED: [(Event, bool); 6] = [
    (Event::Fetch { guess: 0x0040_0008 }, true),
    (Event::Fetch { guess: 0x0040_000c }, true),
    (Event::Fetch { guess: 0x0040_0010 }, true),
    (Event::Issue { k: 0 }, true),
    (Event::Finish { k: 0 }, true),
    (Event::Commit, false),
];

#[test]
fn a_squash_keeps_the_slot_waiting_running_or_done(rt: HostRuntime) {
    let slots: [(&[(Event, bool)], u32, Status3); 3] = [
        (&[], 0, Status3::Waiting),
        (
            &[(Event::Issue { k: 1 }, true)],
            0x0040_0014,
            Status3::Running,
        ),
        (
            &[
                (Event::Issue { k: 1 }, true),
                (Event::Finish { k: 1 }, true),
            ],
            0x0040_0014,
            Status3::Done,
        ),
    ];
    for (slot, next, status) in slots {
        let mut c = open_core(rt.alloc(), 8, true, &BRANCH, 16).expect(&rt, "memory");
        assert!(&rt; c.play(&MISPREDICTED));
        assert!(&rt; c.play(slot));
        assert!(&rt;
            c.play(&[
                (Event::Squash { k: 0 }, true),
                (Event::Squash { k: 0 }, false)
            ])
        );
        assert_eq!(&rt; c.window.len(), 2);
        assert!(&rt; c.window.fetch_pair() == (0x0040_0010, 0x0040_0014));
        assert!(&rt; next_of(c.entry(1)) == (0x0040_0010, 0x0040_0014, next, status));
    }
}

// beq $0,$0,40000010; j 00400020
#[test]
fn a_slot_that_is_control_goes_in_a_squash(rt: HostRuntime) {
    let code = [
        0x1000_0003,
        0x0810_0008,
        0x2402_0006,
        0x2403_0007,
        0x2404_0008,
    ];
    let mut c = open_core(rt.alloc(), 8, true, &code, 16).expect(&rt, "memory");
    assert!(&rt; c.play(&MISPREDICTED));
    assert!(&rt; c.play(&[(Event::Squash { k: 0 }, true)]));
    assert_eq!(&rt; c.window.len(), 1);
    assert!(&rt; c.window.fetch_pair() == (0x0040_0004, 0x0040_0010));
}

// Fetches so many instructions that aren't control, one after the other.
fn fetch_straight(c: &mut Core, count: u32) -> bool {
    let mut guess = BASE;
    for _ in 0..count {
        guess = c.window.fetch_pair().1.wrapping_add(4);
        if !c.apply(Event::Fetch { guess }) {
            return false;
        }
    }
    guess != 0
}

// Issues and finishes so many entries, oldest first, and commits them all.
fn run_straight(c: &mut Core, count: usize) -> bool {
    for k in 0..count {
        if !c.apply(Event::Issue { k }) || !c.apply(Event::Finish { k }) {
            return false;
        }
    }
    for _ in 0..count {
        if !c.apply(Event::Commit) {
            return false;
        }
    }
    true
}

// lui $2,4096; addiu $1,$0,4660; sw $1,4($2); lw $3,4($2); lhu $4,6($2); lw $5,0($2)
#[test]
fn a_load_reads_the_older_stores_once_they_are_done(rt: HostRuntime) {
    let code = [
        0x3c02_1000,
        0x2401_1234,
        0xac41_0004,
        0x8c43_0004,
        0x9444_0006,
        0x8c45_0000,
    ];
    let mut c = open_core(rt.alloc(), 8, true, &code, 16).expect(&rt, "memory");
    assert!(&rt; fetch_straight(&mut c, 6));
    assert!(&rt; c.play(&runs(0)));
    assert!(&rt;
        c.play(&[
            (Event::Issue { k: 5 }, false),
            (Event::Issue { k: 2 }, false)
        ])
    );
    assert!(&rt; c.play(&runs(1)));
    assert!(&rt;
        c.play(&[
            (Event::Issue { k: 3 }, false),
            (Event::Issue { k: 2 }, true),
            (Event::Issue { k: 3 }, false)
        ])
    );
    assert!(&rt; c.play(&[(Event::Finish { k: 2 }, true)]));
    assert!(&rt; c.play(&runs(5)));
    assert!(&rt; c.play(&runs(3)));
    assert!(&rt; c.play(&runs(4)));
    assert!(&rt; c.play(&[COMMIT, COMMIT, COMMIT, COMMIT, COMMIT, COMMIT]));
    assert_eq!(&rt; c.register(3), 0x1234);
    assert_eq!(&rt; c.register(4), 0x1234);
    assert_eq!(&rt; c.register(5), 0x0001_0203);
}

// lui $2,4096; lui $1,4386; ori $1,$1,13124 (11223344); sb $1,1($2); sw $1,4($2); lw $3,0($2); addiu $4,$0,-1; lwl $4,1($2);
// lwr $4,4($2)
const MERGED: [u32; 9] = [
    0x3c02_1000,
    0x3c01_1122,
    0x3421_3344,
    0xa041_0001,
    0xac41_0004,
    0x8c43_0000,
    0x2404_ffff,
    0x8844_0001,
    0x9844_0004,
];

#[test]
fn parts_of_words_merge_over_stores_in_both_orders(rt: HostRuntime) {
    // big: bytes 00 44 02 03 11 22 33 44; lwl at 1 takes 44 02 03 to the top of ffffffff, lwr at 4 takes 11 to the bottom
    let mut c = open_core(rt.alloc(), 16, true, &MERGED, 16).expect(&rt, "memory");
    assert!(&rt; fetch_straight(&mut c, 9) && run_straight(&mut c, 9));
    assert_eq!(&rt; c.register(3), 0x0044_0203);
    assert_eq!(&rt; c.register(4), 0x4402_0311);
    // little: bytes 00 44 02 03 44 33 22 11; lwl at 1 takes 44 00 to the top of ffffffff, lwr at 4 takes the whole word
    let mut c = open_core(rt.alloc(), 16, false, &MERGED, 16).expect(&rt, "memory");
    assert!(&rt; fetch_straight(&mut c, 9) && run_straight(&mut c, 9));
    assert_eq!(&rt; c.register(3), 0x0302_4400);
    assert_eq!(&rt; c.register(4), 0x1122_3344);
}

// lui $3,65535; beq $0,$0,00400018; sll $0,$0,0; sw $3,0($3); break 0
#[test]
fn a_port_store_and_a_trap_on_a_wrong_path_leave_nothing(rt: HostRuntime) {
    let code = [
        0x3c03_ffff,
        0x1000_0004,
        0,
        0xac63_0000,
        0x0000_000d,
        0,
        0x2404_0008,
    ];
    let mut c = open_core(rt.alloc(), 8, true, &code, 16).expect(&rt, "memory");
    assert!(&rt;
        c.play(&[
            fetch(0x0040_0008),
            fetch(0x0040_000c),
            fetch(0x0040_0010),
            fetch(0x0040_0014),
            fetch(0x0040_0018)
        ])
    );
    assert!(&rt; c.play(&runs(0)));
    assert!(&rt; c.play(&runs(3)));
    assert!(&rt; c.play(&runs(4)));
    let trap = match c.entry(4) {
        Some(v) => v.trap,
        None => None,
    };
    assert!(&rt; trap == Some(TrapKind::Break));
    assert!(&rt; c.play(&runs(1)));
    assert!(&rt; c.play(&[(Event::Squash { k: 1 }, true), COMMIT, COMMIT]));
    assert!(&rt; c.play(&runs(0)));
    assert!(&rt; c.play(&[COMMIT]));
    assert!(&rt; c.window.ending().is_none());
    assert_eq!(&rt; c.state.output().len(), 0);
    assert_eq!(&rt; c.state.pc(), 0x0040_0018);
}

// Commits so many instructions that were fetched straight on; what ended the window.
fn ending(c: &mut Core, count: u32) -> Option<Step> {
    if fetch_straight(c, count) && run_straight(c, count as usize) {
        c.window.ending()
    } else {
        None
    }
}

#[test]
fn traps_that_only_a_commit_finds(rt: HostRuntime) {
    // lui $3,65535; sw $3,0($3): no room for output
    let mut c = open_core(rt.alloc(), 8, true, &[0x3c03_ffff, 0xac63_0000], 0).expect(
        &rt, "memory",
    );
    assert!(&rt; ending(&mut c, 2) == Some(Step::Trap(TrapKind::OutputFull, 0x0040_0004)));
    // addiu $31,$0,8; jr $31: another address than the one that was pushed
    let mut c = open_core(rt.alloc(), 8, true, &[0x241f_0008, 0x03e0_0008], 0).expect(
        &rt, "memory",
    );
    assert!(&rt; c.play(&[fetch(0x0040_0008), fetch(8)]));
    assert!(&rt; run_straight(&mut c, 2));
    assert!(&rt; c.window.ending() == Some(Step::Trap(TrapKind::ReturnMismatch, 0x0040_0004)));
    assert!(&rt; c.play(&[(Event::Commit, false), (Event::Fetch { guess: 12 }, false)]));
}

// bgezal $0,00400000, which calls itself with its slot: at the 64th call the return stack is full, since it holds the exit address too
#[test]
fn a_call_on_a_full_return_stack(rt: HostRuntime) {
    let mut c = open_core(rt.alloc(), 2, true, &[0x0411_ffff, 0], 0).expect(&rt, "memory");
    for _ in 0..63 {
        assert!(&rt; c.play(&[fetch(BASE), fetch(BASE + 4)]));
        assert!(&rt; run_straight(&mut c, 2));
    }
    assert!(&rt; c.window.ending().is_none());
    assert!(&rt; c.play(&[fetch(BASE)]));
    assert!(&rt; run_straight(&mut c, 1));
    assert!(&rt; c.window.ending() == Some(Step::Trap(TrapKind::ReturnFull, BASE)));
}

// addiu $1,$0,1; addiu $2,$0,2; addiu $3,$0,3; movz $3,$1,$0; addiu $4,$0,4; movz $4,$1,$2; movn $2,$1,$2; movn $1,$3,$0;
// mult $2,$4; mflo $5; mfhi $6
#[test]
fn conditional_moves_and_the_pair_wait_for_their_writers(rt: HostRuntime) {
    let code = [
        0x2401_0001,
        0x2402_0002,
        0x2403_0003,
        0x0020_180a,
        0x2404_0004,
        0x0022_200a,
        0x0022_100b,
        0x0060_080b,
        0x0044_0018,
        0x0000_2812,
        0x0000_3010,
    ];
    let mut c = open_core(rt.alloc(), 16, true, &code, 0).expect(&rt, "memory");
    assert!(&rt; fetch_straight(&mut c, 11));
    assert!(&rt;
        c.play(&[
            (Event::Issue { k: 3 }, false),
            (Event::Issue { k: 9 }, false),
            (Event::Issue { k: 10 }, false)
        ])
    );
    assert!(&rt; run_straight(&mut c, 11));
    assert_eq!(&rt; c.register(3), 1);
    assert_eq!(&rt; c.register(4), 4);
    assert_eq!(&rt; c.register(2), 1);
    assert_eq!(&rt; c.register(1), 1);
    assert_eq!(&rt; c.register(5), 4);
    assert_eq!(&rt; c.register(6), 0);
}

#[test]
fn a_full_window_and_an_address_that_is_no_code_take_nothing(rt: HostRuntime) {
    let mut c = open_core(rt.alloc(), 2, true, &BRANCH, 0).expect(&rt, "memory");
    assert!(&rt;
        c.play(&[
            fetch(0x0040_0010),
            (Event::Fetch { guess: 0x0040_0010 }, false),
            fetch(0x0040_0014)
        ])
    );
    assert!(&rt; c.play(&[(Event::Fetch { guess: 0x0040_0018 }, false)]));
    // beq to an address that is no code
    let mut c = open_core(rt.alloc(), 8, true, &[0x1000_0400, 0], 0).expect(&rt, "memory");
    assert!(&rt;
        c.play(&[
            fetch(0x0040_1004),
            fetch(0x0040_1008),
            (Event::Fetch { guess: 0x0040_100c }, false)
        ])
    );
}
