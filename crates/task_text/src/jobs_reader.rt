// The reader of a jobs text: what it keeps of the lines so far, and one line more.
ghost use Rattle.std.specs.Prelude.{◌≡◌, ◌++◌, ◌∷◌, [], true, ◌<◌, ◌^◌, map, length, codes, Some, None, cond, OnOk};
ghost use Rattle.std.specs.Option.{option_map};
ghost use Rattle.std.specs.Str.{bytes_eq};
ghost use Rattle.text_fields.specs.Lines.{fields as fields_lem};
ghost use Rattle.task_text.specs.JobsTexts.{past as past_row, job, version as version_row};
ghost use Rattle.task_text.specs.JobsReading.{opening, are_pairs as are_pairs_lem, is_input as is_input_lem, bytes_of, version_of, past_of as past_of_lem, job_of, limited, took_state, fields_state, judge_state, Judges};

use crate::jobs::{Jobs, Past, Piece};
use crate::reader::{is_plain, is_skipped};
use crate::task::Task;
use std::alloc::{AllocError, Global};
use text_fields::{fields, hex_digit_value, is_hex_digit, number};
use visa_io::List;

// One field more than the longest line has: `past`, a sub-task and its cycles.
const MOST_FIELDS: usize = 4;

// Why a line was not taken.
#[derive(Clone, Copy, Debug)]
pub(crate) enum Untaken {
    Refused,
    Memory,
}

// Whether the version stood, and the jobs so far.
#[derive(Debug, Drop)]
pub(crate) struct JobsReader {
    pub(crate) opened: bool,
    pub(crate) jobs: Jobs,
}

fn is_one(v: &[u8]) -> bool
    ensures { result ≡ bytes_eq v.now (codes "1") }
{
    v == b"1".as_slice()
}

fn is_dash(h: &[u8]) -> bool
    ensures { result ≡ bytes_eq h.now (codes "-") }
{
    h == b"-".as_slice()
}

fn is_version_word(f: &[u8]) -> bool
    ensures { result ≡ bytes_eq f.now (codes "visa-jobs") }
{
    f == b"visa-jobs".as_slice()
}

fn is_past_word(f: &[u8]) -> bool
    ensures { result ≡ bytes_eq f.now (codes "past") }
{
    f == b"past".as_slice()
}

fn is_job_word(f: &[u8]) -> bool
    ensures { result ≡ bytes_eq f.now (codes "job") }
{
    f == b"job".as_slice()
}

// The past count of two numbers, if the task has the sub-task.
#[tactic(auto, unfolding(crate::specs::JobsTexts::in_limits))]
fn past_value(task: &Task, sub: u64, cycles: u64) -> Option<Past>
    ensures { option_map past_row result ≡ limited task.now (Some (past_row (record { sub = sub; cycles = cycles }))) }
{
    if sub > 0xffff_ffff || cycles > 1_000_000_000_000_000_000 {
        return None;
    }
    if 1 <= sub && sub - 1 <= task.cuts.len() as u64 {
        Some(Past {
            sub: sub as u32,
            cycles,
        })
    } else {
        None
    }
}

#[tactic(auto, unfolding(crate::specs::JobsReading::past_of))]
fn past_of(task: &Task, s: &[u8], c: &[u8]) -> Option<Past>
    ensures { option_map past_row result ≡ limited task.now (past_of_lem (s.now ∷ c.now ∷ [])) }
{
    let sub = number(s)?;
    let cycles = number(c)?;
    past_value(task, sub, cycles)
}

// Whether all bytes are pairs of hexadecimal digits.
fn are_pairs(h: &[u8]) -> bool
    ensures { result ≡ are_pairs_lem h.now }
{
    let mut rest = h;
    while let [a, b, more @ ..] = rest {
        if !is_hex_digit(*a) || !is_hex_digit(*b) {
            return false;
        }
        rest = more;
    }
    rest.is_empty()
}

#[tactic(auto, unfolding(crate::specs::JobsReading::is_input))]
fn is_input(h: &[u8]) -> bool
    ensures { result ≡ is_input_lem h.now }
{
    !h.is_empty() && are_pairs(h)
}

// Appends the bytes that pairs of digits write.
fn add_bytes(bytes: &mut List<u8>, h: &[u8]) -> Result<(), AllocError>
    requires { are_pairs_lem h.now ≡ true }
    ensures { OnOk result (bytes.new ≡ bytes.old ++ bytes_of h.now) }
{
    let mut rest = h;
    while let [a, b, more @ ..] = rest {
        let byte = hex_digit_value(*a) * 16 + hex_digit_value(*b);
        bytes.push(byte as u8)?;
        rest = more;
    }
    Ok(())
}

impl JobsReader {
    // Before the first line.
    pub(crate) fn new(alloc: Global) -> JobsReader
        ensures { result ≡ opening }
    {
        JobsReader {
            opened: false,
            jobs: Jobs {
                past: List::new(alloc),
                inputs: List::new(alloc),
                bytes: List::new(alloc),
            },
        }
    }

    // Takes the version.
    #[tactic(auto, unfolding(crate::specs::JobsReading::stands))]
    fn open(&mut self) -> Result<(), Untaken>
        ensures { Judges result (took_state self.old (Some version_row)) self.new }
    {
        if self.opened {
            return Err(Untaken::Refused);
        }
        self.opened = true;
        Ok(())
    }

    #[tactic(auto, unfolding(crate::specs::JobsReading::version_of, crate::specs::JobsTexts::in_limits))]
    fn take_version(&mut self, task: &Task, others: &[&[u8]]) -> Result<(), Untaken>
        ensures { Judges result (took_state self.old (limited task.now (version_of (map (λ x. x.now) others.now)))) self.new }
    {
        match others {
            [v] => if is_one(v) {
                self.open()
            } else {
                Err(Untaken::Refused)
            },
            _ => Err(Untaken::Refused),
        }
    }

    // Takes a past count.
    #[tactic(auto, unfolding(crate::specs::JobsReading::stands))]
    fn add_past(&mut self, past: Past) -> Result<(), Untaken>
        ensures { Judges result (took_state self.old (Some (past_row past))) self.new }
    {
        if self.opened && self.jobs.inputs.len() == 0 && self.jobs.past.len() < 1024 {
            match self.jobs.past.push(past) {
                Ok(()) => Ok(()),
                Err(_) => Err(Untaken::Memory),
            }
        } else {
            Err(Untaken::Refused)
        }
    }

    fn take_numbers(&mut self, task: &Task, s: &[u8], c: &[u8]) -> Result<(), Untaken>
        ensures { Judges result (took_state self.old (limited task.now (past_of_lem (s.now ∷ c.now ∷ [])))) self.new }
    {
        match past_of(task, s, c) {
            Some(past) => self.add_past(past),
            None => Err(Untaken::Refused),
        }
    }

    #[tactic(auto, unfolding(crate::specs::JobsReading::past_of))]
    fn take_past(&mut self, task: &Task, others: &[&[u8]]) -> Result<(), Untaken>
        ensures { Judges result (took_state self.old (limited task.now (past_of_lem (map (λ x. x.now) others.now)))) self.new }
    {
        match others {
            [s, c] => self.take_numbers(task, s, c),
            _ => Err(Untaken::Refused),
        }
    }

    // Takes an input of no bytes.
    #[tactic(auto, unfolding(crate::specs::JobsReading::stands))]
    fn add_empty(&mut self) -> Result<(), Untaken>
        ensures { Judges result (took_state self.old (Some (job []))) self.new }
    {
        if self.opened && self.jobs.inputs.len() < 10_000 {
            let piece = Piece {
                from: self.jobs.bytes.len() as u64,
                len: 0,
            };
            match self.jobs.inputs.push(piece) {
                Ok(()) => Ok(()),
                Err(_) => Err(Untaken::Memory),
            }
        } else {
            Err(Untaken::Refused)
        }
    }

    // Takes an input that fits the buffer.
    #[tactic(auto, unfolding(crate::specs::JobsReading::stands), using(crate::proofs::JobsLaws::bytes_count))]
    fn add_input(&mut self, h: &[u8]) -> Result<(), Untaken>
        requires pairs { are_pairs_lem h.now ≡ true }
        requires short { length h.now < 2 ^ 33 }
        ensures { Judges result (took_state self.old (Some (job (bytes_of h.now)))) self.new }
    {
        if !self.opened || self.jobs.inputs.len() >= 10_000 {
            return Err(Untaken::Refused);
        }
        let piece = Piece {
            from: self.jobs.bytes.len() as u64,
            len: (h.len() / 2) as u32,
        };
        if self.jobs.inputs.push(piece).is_err() || add_bytes(&mut self.jobs.bytes, h).is_err() {
            return Err(Untaken::Memory);
        }
        Ok(())
    }

    #[tactic(auto, using(crate::proofs::JobsLaws::input_fits, crate::proofs::JobsLaws::pairs_of))]
    fn take_input(&mut self, task: &Task, h: &[u8]) -> Result<(), Untaken>
        requires { is_input_lem h.now ≡ true }
        ensures { Judges result (took_state self.old (limited task.now (Some (job (bytes_of h.now))))) self.new }
    {
        if h.len() / 2 <= task.input_len as usize {
            self.add_input(h)
        } else {
            Err(Untaken::Refused)
        }
    }

    #[tactic(auto, unfolding(crate::specs::JobsReading::job_of, crate::specs::JobsTexts::in_limits))]
    fn take_one(&mut self, task: &Task, h: &[u8]) -> Result<(), Untaken>
        ensures { Judges result (took_state self.old (limited task.now (job_of (h.now ∷ [])))) self.new }
    {
        if is_dash(h) {
            self.add_empty()
        } else if is_input(h) {
            self.take_input(task, h)
        } else {
            Err(Untaken::Refused)
        }
    }

    #[tactic(auto, unfolding(crate::specs::JobsReading::job_of))]
    fn take_job(&mut self, task: &Task, others: &[&[u8]]) -> Result<(), Untaken>
        ensures { Judges result (took_state self.old (limited task.now (job_of (map (λ x. x.now) others.now)))) self.new }
    {
        match others {
            [h] => self.take_one(task, h),
            _ => Err(Untaken::Refused),
        }
    }

    // Takes the fields of a line.
    #[tactic(auto, unfolding(crate::specs::JobsReading::fields_state, crate::specs::JobsReading::row_of))]
    fn take_fields(&mut self, task: &Task, line: &[&[u8]]) -> Result<(), Untaken>
        ensures { Judges result (fields_state task.now self.old (map (λ x. x.now) line.now)) self.new }
    {
        match line {
            [] => Err(Untaken::Refused),
            [first, others @ ..] => {
                if is_version_word(first) {
                    self.take_version(task, others)
                } else if is_past_word(first) {
                    self.take_past(task, others)
                } else if is_job_word(first) {
                    self.take_job(task, others)
                } else {
                    Err(Untaken::Refused)
                }
            }
        }
    }

    // Splits a line that says something.
    #[tactic(auto, using(crate::proofs::Longest::state_cut))]
    fn take_split(&mut self, alloc: Global, task: &Task, line: &[u8]) -> Result<(), Untaken>
        ensures { Judges result (fields_state task.now self.old (fields_lem line.now)) self.new }
    {
        match fields(alloc, line, MOST_FIELDS) {
            Ok(fields) => self.take_fields(task, &fields),
            Err(_) => Err(Untaken::Memory),
        }
    }

    // Takes one line. After an Err the reader is of no use.
    #[tactic(auto, unfolding(crate::specs::JobsReading::judge_state))]
    pub(crate) fn judge(&mut self, alloc: Global, task: &Task, line: &[u8]) -> Result<(), Untaken>
        ensures { Judges result (judge_state task.now self.old line.now) self.new }
    {
        if is_plain(line) {
            if is_skipped(line) {
                Ok(())
            } else {
                self.take_split(alloc, task, line)
            }
        } else {
            Err(Untaken::Refused)
        }
    }
}
