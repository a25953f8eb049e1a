// The task of the demonstration.
ghost use Rattle.demonstration.specs.Demonstration.{demo_facts, demo_machine, demo_region, demo_task as demo_task_lem, demo_words};
ghost use Rattle.std.specs.Prelude.{◌≡◌, [], ◌∷◌, IfOk};
ghost use Rattle.task_text.specs.Limits.{KeepsLimits};
ghost use Rattle.task_text.specs.Texts.{IsGiven, code_span, ram_span};

use std::alloc::{AllocError, Global};
use task_text::{Source, Task};
use visa_io::{Code, FactLine, List, Machine, Region, Shape, Span};

// The machine that it runs on.
fn machine() -> Machine
    ensures { result ≡ demo_machine }
{
    Machine {
        width: 1,
        rob: 32,
        mul: 4,
        div: 16,
        mem_ps: 10_000,
        store_ps: 10_000,
        settle_ps: 100_000,
        start_ps: 0,
        icache: Some(Shape {
            sets: 8,
            ways: 1,
            line: 32,
        }),
        dcache: Some(Shape {
            sets: 8,
            ways: 1,
            line: 16,
        }),
    }
}

// Its words.
fn words(alloc: Global) -> Result<List<u32>, AllocError>
    ensures { IfOk result (λ l. l ≡ demo_words) }
{
    let words: [u32; 10] = [
        0x2489_0100,
        0x8c88_0000,
        0x1100_0003,
        0x2484_0004,
        0x1489_fffc,
        0x0048_1021,
        0x3c03_ffff,
        0xac62_0000,
        0x03e0_0008,
        0x0000_0000,
    ];
    List::copy_of(alloc, &words)
}

// Its code.
fn code(alloc: Global) -> Result<Code, AllocError>
    ensures { IfOk result (λ c. c ≡ record { spans = code_span 0x00400000 10 ∷ []; words = demo_words }) }
{
    let span = Span {
        start: 0x0040_0000,
        len: 40,
        r: true,
        w: false,
        x: true,
    };
    Ok(Code {
        spans: List::copy_of(alloc, &[span])?,
        words: words(alloc)?,
    })
}

// Its memory.
fn ram(alloc: Global) -> Result<List<Span>, AllocError>
    ensures { IfOk result (λ l. l ≡ ram_span 0x10000000 4096 ∷ []) }
{
    let span = Span {
        start: 0x1000_0000,
        len: 4096,
        r: true,
        w: true,
        x: false,
    };
    List::copy_of(alloc, &[span])
}

// Its loop.
fn regions(alloc: Global) -> Result<List<Region>, AllocError>
    ensures { IfOk result (λ l. l ≡ demo_region ∷ []) }
{
    let region = Region {
        first: 0x0040_0004,
        last: 0x0040_0014,
        header: 0x0040_0004,
        count: 64,
        counter: 4,
    };
    List::copy_of(alloc, &[region])
}

// What a register holds at an address.
fn fact(at: u32, register: u8, lo: i64, hi: i64, stride: u32) -> FactLine
    ensures { result ≡ record { at = at; register = register; lo = lo; hi = hi; stride = stride } }
{
    FactLine {
        at,
        register,
        lo,
        hi,
        stride,
    }
}

// Its facts.
fn facts(alloc: Global) -> Result<List<FactLine>, AllocError>
    ensures { IfOk result (λ l. l ≡ demo_facts) }
{
    let facts: [FactLine; 5] = [
        fact(0x0040_0000, 4, 268_435_456, 268_435_456, 1),
        fact(0x0040_0004, 4, 268_435_456, 268_435_708, 4),
        fact(0x0040_0004, 9, 268_435_712, 268_435_712, 1),
        fact(0x0040_0010, 4, 268_435_460, 268_435_712, 4),
        fact(0x0040_0010, 9, 268_435_712, 268_435_712, 1),
    ];
    List::copy_of(alloc, &facts)
}

// The task.
#[tactic(auto, unfolding(crate::specs::Demonstration::demo_task))]
fn built(alloc: Global) -> Result<Task, AllocError>
    ensures { IfOk result (λ t. t ≡ demo_task_lem) }
{
    let mut points = List::new(alloc);
    points.push(4000)?;
    points.push(1000)?;
    Ok(Task {
        machine: machine(),
        big: true,
        points,
        period_ps: 2_000_000,
        deadline_ps: 1_900_000,
        image: Source::Words(code(alloc)?),
        entry: Some(0x0040_0000),
        stack: 0x7fff_0000,
        ram: ram(alloc)?,
        input_at: 0x1000_0000,
        input_len: 256,
        out_max: 16,
        show: List::new(alloc),
        cuts: List::new(alloc),
        regions: regions(alloc)?,
        facts: facts(alloc)?,
    })
}

/// The task of the demonstration. A task text gives it.
///
/// # Errors
///
/// Where there was no memory for it.
pub fn demo_task(alloc: Global) -> Result<Task, AllocError>
    ensures task { IfOk result (λ t. t ≡ demo_task_lem) }
    ensures given { IfOk result IsGiven }
    ensures limits { IfOk result KeepsLimits }
{
    built(alloc)
}
