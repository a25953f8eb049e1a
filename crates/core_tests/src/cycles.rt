//! Runs of the fast core whose cycles were counted by hand from the rules of a cycle, and what is learnt in them.
ghost use Rattle.std.specs.Prelude.{◌≡◌, ◌∷◌, take};
ghost use Rattle.std.specs.Option.{ForSome};
ghost use Rattle.mips_isa.specs.Words.{word_sum};
ghost use Rattle.cache_lru.specs.Contents.{IsBuildable};

use crate::window::machine;
use core_window::Status3;
use mips_isa::{Branch2Op, Instr};
use mips_ref::{State, Step, TrapKind};
use ooo_clock::{CycleEnd, Fast};
use predictors::{Builtin, Predictor, PredictorKind};
use std::alloc::Global;
use std::marker::Model;
use std::process::Abort;
use visa_io::{Machine, Shape};

const BASE: u32 = 0x0040_0000;

const EXIT: u32 = 0xffff_fff0;

// The fast core beside the state that it was opened with or last left.
#[derive(Drop)]
struct Run {
    fast: Fast,
    state: State,
    ended: Option<Step>,
}

impl Model for Run {
    ghost use Rattle.std.specs.Prelude.{◌≡◌, Option, None};
    ghost use Rattle.mips_ref.specs.declared.records.Step.{Step as Answer};
    ghost use Rattle.ooo_clock.specs.Fasts.{StandsBeside};

    ghost Value = { Option Answer };

    ghost view = { λ r. r.ended };

    ghost invariant = { λ r. r.ended ≡ None → StandsBeside r.fast r.state.mips };
}

impl Run {
    // Performs a cycle, if the window hasn't ended; whether it goes on.
    fn tick<P: Predictor>(&mut self, p: &mut P) -> bool {
        if self.ended.is_some() || self.fast.cycles() >= 1000 {
            return false;
        }
        match self.fast.cycle(&mut self.state, p) {
            CycleEnd::Went => true,
            CycleEnd::Ended(step) => {
                self.ended = Some(step);
                false
            }
        }
    }

    // Performs all cycles.
    fn play<P: Predictor>(&mut self, p: &mut P) {
        for _ in 0..1000u32 {
            if !self.tick(p) {
                return;
            }
        }
    }
}

// What a machine has of a cache: none, or one set of one line of so many bytes.
#[derive(Clone, Copy, Debug, PartialEq, Eq)]
enum Cached {
    No,
    Line16,
    Line64,
}

fn shape(cached: Cached) -> Option<Shape>
    ensures { ForSome result IsBuildable }
{
    match cached {
        Cached::No => None,
        Cached::Line16 => Some(Shape {
            sets: 1,
            ways: 1,
            line: 16,
        }),
        Cached::Line64 => Some(Shape {
            sets: 1,
            ways: 1,
            line: 64,
        }),
    }
}

// A job: how many instructions a cycle fetches, issues and commits, the cycles of a miss (a store has ten more than
// one), the caches, the words from BASE on and the entry.
#[derive(Clone, Copy, Debug)]
struct Job {
    width: u32,
    miss: u32,
    icache: Cached,
    dcache: Cached,
    entry: u32,
    words: &'static [u32],
}

// A job at its opening, at a clock period of 1000 ps; a product takes 4 cycles, a quotient 16, and the window has room
// for 8.
fn open(alloc: Global, job: Job) -> Option<Run> {
    let fast_machine = Machine {
        width: job.width,
        rob: 8,
        mul: 4,
        div: 16,
        mem_ps: u64::from(job.miss.min(10)) * 1000,
        store_ps: 10_000,
        settle_ps: 0,
        start_ps: 0,
        icache: shape(job.icache),
        dcache: shape(job.dcache),
    };
    let mut state = machine(alloc, true, job.words, 16)?;
    state.open(job.entry, 0x2000_0000, 0x1000_0000, 0, &[]);
    let mut fast = Fast::new(alloc, &fast_machine).ok()?;
    fast.open(&state, 1000);
    Some(Run {
        fast,
        state,
        ended: None,
    })
}

const fn job_of(
    width: u32,
    miss: u32,
    icache: Cached,
    dcache: Cached,
    words: &'static [u32],
) -> Job {
    Job {
        width,
        miss,
        icache,
        dcache,
        entry: BASE,
        words,
    }
}

// What is counted of a job: the calls of `cycle`, the cycles in flight after the last one, and the end.
type Count = (&'static str, Job, u64, u64, Step);

const TRAPPED: Step = Step::Trap(TrapKind::AddressLoad, BASE);

// jr $31
const RETURN: u32 = 0x03e0_0008;

fn counts() -> [Count; 11] {
    [
        // addiu $2,$0,7; lui $3,65535; sw $2,0($3); jr $31; sll $0,$0,0
        (
            "five instructions",
            job_of(
                1,
                10,
                Cached::No,
                Cached::No,
                &[0x2402_0007, 0x3c03_ffff, 0xac62_0000, RETURN],
            ),
            59,
            0,
            Step::Exit,
        ),
        // addiu $1,$0,1; jr $31
        (
            "an address asked for in the cycle of a fetch",
            job_of(2, 3, Cached::No, Cached::No, &[0x2401_0001, RETURN]),
            14,
            0,
            Step::Exit,
        ),
        // addiu $1,$0,1; addiu $2,$0,2; jr $31
        (
            "two commits in a cycle",
            job_of(
                2,
                3,
                Cached::Line64,
                Cached::No,
                &[0x2401_0001, 0x2402_0002, RETURN],
            ),
            9,
            0,
            Step::Exit,
        ),
        // sw $0,0($4); sw $0,4($4); jr $31
        (
            "a store waits for the one before",
            job_of(
                2,
                3,
                Cached::Line64,
                Cached::No,
                &[0xac80_0000, 0xac80_0004, RETURN],
            ),
            20,
            9,
            Step::Exit,
        ),
        // lw $1,0($4); lw $2,4($4); jr $31
        (
            "a load that hits behind one that misses",
            job_of(
                2,
                3,
                Cached::Line64,
                Cached::Line16,
                &[0x8c81_0000, 0x8c82_0004, RETURN],
            ),
            14,
            0,
            Step::Exit,
        ),
        (
            "two loads without a cache",
            job_of(
                2,
                3,
                Cached::Line64,
                Cached::No,
                &[0x8c81_0000, 0x8c82_0004, RETURN],
            ),
            17,
            0,
            Step::Exit,
        ),
        // entry in mid-line: addiu $1,$0,1; addiu $2,$0,2; jr $31
        (
            "a line entered in its middle",
            Job {
                entry: BASE + 8,
                ..job_of(
                    2,
                    3,
                    Cached::Line16,
                    Cached::No,
                    &[0, 0, 0x2401_0001, 0x2402_0002, RETURN],
                )
            },
            12,
            0,
            Step::Exit,
        ),
        // mul $2,$4,$4; bne $2,$4,00400030; at 00400030: jr $31
        (
            "a squash while a wrong line is on its way",
            job_of(
                1,
                10,
                Cached::Line16,
                Cached::No,
                &[
                    0x7084_1002,
                    0x1444_000a,
                    0,
                    0,
                    0,
                    0,
                    0,
                    0,
                    0,
                    0,
                    0,
                    0,
                    RETURN,
                ],
            ),
            40,
            0,
            Step::Exit,
        ),
        // mul $2,$4,$4; div $4,$4; mflo $3; jr $31
        (
            "a product and a quotient",
            job_of(
                1,
                3,
                Cached::Line64,
                Cached::No,
                &[0x7084_1002, 0x0084_001a, 0x0000_1812, RETURN],
            ),
            27,
            0,
            Step::Exit,
        ),
        // lui $3,65535; lw $2,0($3); lw $5,0($3); jr $31
        (
            "two loads of the port",
            job_of(
                1,
                3,
                Cached::Line64,
                Cached::Line16,
                &[0x3c03_ffff, 0x8c62_0000, 0x8c65_0000, RETURN],
            ),
            19,
            0,
            Step::Exit,
        ),
        // lw $2,1($4); lw $5,0($4)
        (
            "a load with a trap keeps none back",
            job_of(
                1,
                3,
                Cached::Line64,
                Cached::Line16,
                &[0x8c82_0001, 0x8c85_0000],
            ),
            8,
            2,
            TRAPPED,
        ),
    ]
}

#[test]
fn jobs_take_the_cycles_counted_by_hand(rt: HostRuntime) {
    for (name, job, cycles, in_flight, end) in counts() {
        let mut run = open(rt.alloc(), job).expect(&rt, "memory");
        let mut p = Builtin::make(PredictorKind::Static);
        run.play(&mut p);
        assert_eq!(&rt; run.fast.cycles(), cycles, "{name}");
        assert_eq!(&rt; run.fast.in_flight(), in_flight, "{name}");
        assert!(&rt; run.ended == Some(end), "{name}");
    }
}

// How far the oldest entry is, if there is one.
fn oldest(run: &Run) -> Option<Status3> {
    let core = run.fast.core();
    if core.len() == 0 {
        None
    } else {
        Some(core.entry(0).status)
    }
}

// Each of the five instructions is fetched eleven cycles after the one before, and leaves the window four cycles later.
#[test]
fn the_window_after_each_cycle(rt: HostRuntime) {
    let words = &[0x2402_0007, 0x3c03_ffff, 0xac62_0000, RETURN];
    let mut run = open(rt.alloc(), job_of(1, 10, Cached::No, Cached::No, words)).expect(
        &rt, "memory",
    );
    let mut p = Builtin::make(PredictorKind::Static);
    for cycle in 0..58u32 {
        let went = run.tick(&mut p);
        let status = if cycle < 10 {
            None
        } else {
            match (cycle - 10) % 11 {
                0 | 1 => Some(Status3::Waiting),
                2 => Some(Status3::Running),
                3 => Some(Status3::Done),
                _ => None,
            }
        };
        assert!(&rt; went);
        assert!(&rt; oldest(&run) == status, "{cycle}");
    }
}

// The pcs after the commits of each cycle of "two commits in a cycle", and how many entries there are behind it: the
// last four of the eight go with the squash of the return.
#[test]
fn the_commits_of_each_cycle(rt: HostRuntime) {
    let words = &[0x2401_0001, 0x2402_0002, RETURN];
    let mut run = open(rt.alloc(), job_of(2, 3, Cached::Line64, Cached::No, words)).expect(
        &rt, "memory",
    );
    let mut p = Builtin::make(PredictorKind::Static);
    assert_eq!(&rt; run.fast.commits().len(), 0);
    let cycles: [(&[u32], usize); 9] = [
        (&[], 0),
        (&[], 0),
        (&[], 0),
        (&[], 2),
        (&[], 4),
        (&[], 6),
        (&[], 8),
        (&[BASE + 4, BASE + 8], 2),
        (&[BASE + 12, EXIT], 0),
    ];
    for (commits, len) in cycles {
        let _ = run.tick(&mut p);
        assert!(&rt; run.fast.commits() == commits);
        assert_eq!(&rt; run.fast.core().len(), len);
    }
    assert_eq!(&rt; run.state.register(2), 2);
}

// A predictor that guesses straight on, and keeps the pcs of the last four instructions that it learnt, the newest
// first.
#[derive(Drop)]
struct Noted {
    first: u32,
    second: u32,
    third: u32,
    fourth: u32,
}

impl Predictor for Noted {
    ghost use Rattle.std.specs.Prelude.{[]};

    ghost data_of = { λ n. n.first ∷ n.second ∷ n.third ∷ n.fourth ∷ [] };

    ghost guess_of = { λ numbers pc npc i. word_sum npc 4 };

    ghost learnt_of = { λ numbers pc i taken next. pc ∷ take 3 numbers };

    fn guess(&self, _pc: u32, npc: u32, _i: Instr) -> u32 {
        npc.wrapping_add(4)
    }

    fn learn(&mut self, pc: u32, _i: Instr, _taken: bool, _next: u32) {
        self.fourth = self.third;
        self.third = self.second;
        self.second = self.first;
        self.first = pc;
    }
}

// What is learnt of a job: its words, and the pcs, the newest first.
const LEARNT: [(&[u32], [u32; 4], Step); 3] = [
    // j 00400008; a slot; beq $4,$4,00400010; a slot; lui $2,64; ori $2,$2,32; jr $2; a slot; at 00400020: jr $31
    (
        &[
            0x0810_0002,
            0,
            0x1084_0001,
            0,
            0x3c02_0040,
            0x3442_0020,
            0x0040_0008,
            0,
            RETURN,
        ],
        [BASE + 0x20, BASE + 0x18, BASE + 8, 0],
        Step::Exit,
    ),
    // addu $8,$31,$0; jal 00400018; a slot; addu $31,$8,$0; jr $31; a slot; at 00400018: jr $31
    (
        &[0x03e0_4021, 0x0c10_0006, 0, 0x0100_f821, RETURN, 0, RETURN],
        [BASE + 0x10, BASE + 0x18, 0, 0],
        Step::Exit,
    ),
    // addiu $31,$0,8; jr $31, which isn't where the call came from
    (
        &[0x241f_0008, RETURN],
        [0, 0, 0, 0],
        Step::Trap(TrapKind::ReturnMismatch, BASE + 4),
    ),
];

#[test]
fn branches_returns_and_indirect_jumps_alone_are_learnt(rt: HostRuntime) {
    for (words, pcs, end) in LEARNT {
        let mut run = open(rt.alloc(), job_of(2, 3, Cached::Line64, Cached::No, words)).expect(
            &rt, "memory",
        );
        let mut p = Noted {
            first: 0,
            second: 0,
            third: 0,
            fourth: 0,
        };
        run.play(&mut p);
        assert!(&rt; run.ended == Some(end));
        assert!(&rt; [p.first, p.second, p.third, p.fourth] == pcs);
    }
}

#[test]
fn counters_of_a_branch(rt: HostRuntime) {
    // bne $8,$0,00400004 at 00400010
    let branch = Instr::Branch2 {
        m: Branch2Op::Bne,
        rs: 8,
        rt: 0,
        off: 0xfffc,
    };
    let mut p = Builtin::make(PredictorKind::Bimodal);
    let (pc, npc) = (BASE + 0x10, BASE + 0x14);
    assert_eq!(&rt; p.guess(pc, npc, branch), BASE + 0x18);
    p.learn(pc, branch, true, BASE + 4);
    assert_eq!(&rt; p.guess(pc, npc, branch), BASE + 4);
    p.learn(pc, branch, false, BASE + 0x18);
    p.learn(pc, branch, false, BASE + 0x18);
    assert_eq!(&rt; p.guess(pc, npc, branch), BASE + 0x18);
}
