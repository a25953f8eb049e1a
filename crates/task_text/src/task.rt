// What a task text says.
ghost use Rattle.std.specs.Prelude.{◌≡◌, ◌++◌, ◌≤◌, length, true, OnOk};
ghost use Rattle.task_text.specs.declared.row.Row.TheVariants as row;
ghost use Rattle.task_text.specs.Table.{in_limits};
ghost use Rattle.task_text.specs.Texts.{add as add_lem, with_words, code_span, ram_span as ram_span_lem, show_span as show_span_lem, no_task};

use crate::row::{CoreRow, Extent, MemoryRow, Row, WordsRow};
use std::alloc::{AllocError, Global};
use visa_io::{Code, FactLine, List, Machine, Region, Span};

/// Where a task's code comes from.
#[derive(Debug, Drop)]
pub enum Source {
    /// The name of an image file: 1 to 255 bytes.
    Name(List<u8>),
    /// The words of the text itself, in ranges that can be read and executed.
    Words(Code),
}

/// One periodic task, as a task text gives it.
#[derive(Debug, Drop)]
pub struct Task {
    /// The machine that it runs on.
    pub machine: Machine,
    /// Whether its memory is big-endian.
    pub big: bool,
    /// The clock periods of the operating points, ps, strictly falling.
    pub points: List<u64>,
    /// The time between two releases, ps.
    pub period_ps: u64,
    /// The time from a release to its deadline, ps; at most the period.
    pub deadline_ps: u64,
    /// Its code.
    pub image: Source,
    /// The address of its first instruction. None: that of the image.
    pub entry: Option<u32>,
    /// The address in register 29 as a job opens.
    pub stack: u32,
    /// Ranges of memory that can be read and written.
    pub ram: List<Span>,
    /// The first address of the input buffer.
    pub input_at: u32,
    /// Its length in bytes.
    pub input_len: u32,
    /// The greatest number of output words of a job.
    pub out_max: u32,
    /// Ranges whose bytes a log shows.
    pub show: List<Span>,
    /// The first addresses of the sub-tasks from the second on.
    pub cuts: List<u32>,
    /// The loop regions.
    pub regions: List<Region>,
    /// The register facts, at most one per address and register.
    pub facts: List<FactLine>,
}

// Memory that can be read and written.
fn ram_span(e: Extent) -> Span
    ensures { result ≡ ram_span_lem e.start e.len }
{
    Span {
        start: e.start,
        len: e.len,
        r: true,
        w: true,
        x: false,
    }
}

// Memory that can be read.
fn show_span(e: Extent) -> Span
    ensures { result ≡ show_span_lem e.start e.len }
{
    Span {
        start: e.start,
        len: e.len,
        r: true,
        w: false,
        x: false,
    }
}

impl Source {
    // Takes the words of one line more.
    fn add_words(&mut self, alloc: Global, row: WordsRow) -> Result<(), AllocError>
        requires { length row.words ≤ 64 }
        ensures { OnOk result (self.new ≡ with_words self.old row.start row.words) }
    {
        let span = Span {
            start: row.start,
            len: row.words.len() as u32 * 4,
            r: true,
            w: false,
            x: true,
        };
        match self {
            Source::Name(_) => {
                let mut spans = List::new(alloc);
                spans.push(span)?;
                *self = Source::Words(Code {
                    spans,
                    words: row.words,
                });
                Ok(())
            }
            Source::Words(code) => {
                code.spans.push(span)?;
                add_all(&mut code.words, row.words.as_slice())
            }
        }
    }
}

// Appends words.
fn add_all(words: &mut List<u32>, more: &[u32]) -> Result<(), AllocError>
    ensures { OnOk result (words.new ≡ words.old ++ more.now) }
{
    for w in more {
        words.push(*w)?;
    }
    Ok(())
}

impl Task {
    // The task of no line.
    pub(crate) fn new(alloc: Global) -> Task
        ensures { result ≡ no_task }
    {
        let machine = Machine {
            width: 0,
            rob: 0,
            mul: 0,
            div: 0,
            mem_ps: 0,
            store_ps: 0,
            settle_ps: 0,
            start_ps: 0,
            icache: None,
            dcache: None,
        };
        Task {
            machine,
            big: false,
            points: List::new(alloc),
            period_ps: 0,
            deadline_ps: 0,
            image: Source::Name(List::new(alloc)),
            entry: None,
            stack: 0,
            ram: List::new(alloc),
            input_at: 0,
            input_len: 0,
            out_max: 0,
            show: List::new(alloc),
            cuts: List::new(alloc),
            regions: List::new(alloc),
            facts: List::new(alloc),
        }
    }

    fn set_core(&mut self, c: CoreRow)
        ensures { self.new ≡ add_lem (row.Core c) self.old }
    {
        self.machine.width = c.width;
        self.machine.rob = c.rob;
        self.machine.mul = c.mul;
        self.machine.div = c.div;
    }

    fn set_memory(&mut self, m: MemoryRow)
        ensures { self.new ≡ add_lem (row.Memory m) self.old }
    {
        self.machine.mem_ps = m.mem_ps;
        self.machine.store_ps = m.store_ps;
        self.machine.settle_ps = m.settle_ps;
        self.machine.start_ps = m.start_ps;
    }

    // Takes what one row more says.
    #[tactic(auto, using(crate::proofs::RowLimits::words_short))]
    pub(crate) fn add(&mut self, alloc: Global, row: Row) -> Result<(), AllocError>
        requires { in_limits row ≡ true }
        ensures { OnOk result (self.new ≡ add_lem row self.old) }
    {
        match row {
            Row::Version => {}
            Row::Order(big) => self.big = big,
            Row::Core(c) => self.set_core(c),
            Row::Memory(m) => self.set_memory(m),
            Row::Icache(s) => self.machine.icache = s,
            Row::Dcache(s) => self.machine.dcache = s,
            Row::Point(p) => self.points.push(p)?,
            Row::Time(t) => {
                self.period_ps = t.period_ps;
                self.deadline_ps = t.deadline_ps;
            }
            Row::Image(n) => self.image = Source::Name(n),
            Row::Words(w) => self.image.add_words(alloc, w)?,
            Row::Entry(a) => self.entry = a,
            Row::Stack(a) => self.stack = a,
            Row::Ram(e) => self.ram.push(ram_span(e))?,
            Row::Input(e) => {
                self.input_at = e.start;
                self.input_len = e.len;
            }
            Row::Output(n) => self.out_max = n,
            Row::Show(e) => self.show.push(show_span(e))?,
            Row::Cut(a) => self.cuts.push(a)?,
            Row::Loop(r) => self.regions.push(r)?,
            Row::Fact(f) => self.facts.push(f)?,
        }
        Ok(())
    }
}
