// The reader of a task text: what it keeps of the lines so far, and one line more.
ghost use Rattle.std.specs.Prelude.{◌≡◌, true, ◌∷◌, map, IfOk, OnOk, Some, Ok, not, nat_eq, ◌&&◌, nat_lt};
ghost use Rattle.std.specs.List.{list_all};
ghost use Rattle.text_fields.specs.Lines.{fields as fields_lem};
ghost use Rattle.task_text.specs.Gives.{opening, Gives, Judges, agrees_with_task as agrees_with_task_lem, has_words as has_words_lem, taken, counted, named, judged, judge as judge_lem};
ghost use Rattle.task_text.specs.SeenFacts.{AreKeysOf};
ghost use Rattle.task_text.specs.Table.{in_limits};
ghost use Rattle.task_text.specs.Texts.{add as add_lem, is_plain as is_plain_lem, is_skipped as is_skipped_lem};
ghost use Rattle.task_text.specs.Reading.{parsed, keyword_of as keyword_of_lem};

use crate::address_lines::{cut, entry, input, output, ram, show, stack};
use crate::cache_lines::{dcache, icache};
use crate::code_lines::{image, without_memory, words};
use crate::fact_keys::FactKeys;
use crate::fact_lines::{fact, region};
use crate::fault::{LineKind, ReadError};
use crate::keyword::{keyword_of, next_count};
use crate::machine_lines::{core, memory, order, point, time, version};
use crate::row::{Keyword, Row};
use crate::task::{Source, Task};
use std::alloc::{AllocError, Global};
use text_fields::{fields, is_printable};

// One field more than the longest line has: its keyword, an address and 64 words.
const MOST_FIELDS: usize = 67;

// The newest keyword, how often it has stood, and the task so far.
#[derive(Debug, Drop)]
pub(crate) struct Reader {
    pub(crate) newest: Option<Keyword>,
    pub(crate) times: u32,
    pub(crate) task: Task,
}

// Whether all bytes are 20 to 7e.
#[tactic(auto, unfolding(crate::specs::Texts::is_plain))]
pub(crate) fn is_plain(line: &[u8]) -> bool
    ensures { result ≡ is_plain_lem line.now }
{
    line.iter().all(|b| is_printable(*b))
}

// Whether a line is empty or begins with `#`.
#[tactic(auto, unfolding(crate::specs::Texts::is_skipped))]
pub(crate) fn is_skipped(line: &[u8]) -> bool
    ensures { result ≡ is_skipped_lem line.now }
{
    match line {
        [] => true,
        [first, ..] => *first == b'#',
    }
}

// The row of the fields after a keyword.
fn parse(alloc: Global, key: Keyword, others: &[&[u8]]) -> Result<Row, ReadError>
    ensures { Gives result (parsed key (map (λ x. x.now) others.now)) }
{
    match key {
        Keyword::Version => without_memory(version(others)),
        Keyword::Order => without_memory(order(others)),
        Keyword::Core => without_memory(core(others)),
        Keyword::Memory => without_memory(memory(others)),
        Keyword::Icache => without_memory(icache(others)),
        Keyword::Dcache => without_memory(dcache(others)),
        Keyword::Point => without_memory(point(others)),
        Keyword::Time => without_memory(time(others)),
        Keyword::Image => image(alloc, others),
        Keyword::Words => words(alloc, others),
        Keyword::Entry => without_memory(entry(others)),
        Keyword::Stack => without_memory(stack(others)),
        Keyword::Ram => without_memory(ram(others)),
        Keyword::Input => without_memory(input(others)),
        Keyword::Output => without_memory(output(others)),
        Keyword::Show => without_memory(show(others)),
        Keyword::Cut => without_memory(cut(others)),
        Keyword::Loop => without_memory(region(others)),
        Keyword::Fact => without_memory(fact(others)),
    }
}

// The same, and the row is within its limits.
#[tactic(auto, using(crate::proofs::RowLimits::parsed_low))]
fn parse_low(alloc: Global, key: Keyword, others: &[&[u8]]) -> Result<Row, ReadError>
    ensures row { Gives result (parsed key (map (λ x. x.now) others.now)) }
    ensures limits { IfOk result (λ r. in_limits r ≡ true) }
{
    parse(alloc, key, others)
}

// Whether a period is less than all earlier ones.
fn falls(points: &[u64], p: u64) -> bool
    ensures { result ≡ list_all (λ q. nat_lt p q) points.now }
{
    points.iter().all(|q| p < *q)
}

fn has_words(image: &Source) -> bool
    ensures { result ≡ has_words_lem image.now }
{
    match image {
        Source::Name(_) => false,
        Source::Words(_) => true,
    }
}

// Whether a row agrees with the task so far.
#[tactic(auto, using(crate::proofs::SeenFacts::lacks_is), unfolding(crate::specs::Gives::agrees_with_task))]
fn agrees_with_task(task: &Task, keys: &FactKeys, row: &Row) -> bool
    requires keys { AreKeysOf keys.now task.now.facts }
    requires limits { in_limits row.now ≡ true }
    ensures { result ≡ agrees_with_task_lem task.now row.now }
{
    match row {
        Row::Point(p) => falls(task.points.as_slice(), *p),
        Row::Entry(None) => !has_words(&task.image),
        Row::Fact(f) => keys.lacks(*f),
        _ => true,
    }
}

impl Reader {
    // Before the first line.
    pub(crate) fn new(alloc: Global) -> Reader
        ensures { result ≡ opening }
    {
        Reader {
            newest: None,
            times: 0,
            task: Task::new(alloc),
        }
    }

    // Takes a row that was parsed.
    fn take(
        &mut self,
        alloc: Global,
        keys: &mut FactKeys,
        key: Keyword,
        times: u32,
        row: Row,
    ) -> Result<(), ReadError>
        requires limits { in_limits row ≡ true }
        requires keys { AreKeysOf keys.old self.old.task.facts }
        ensures state { Judges result (taken self.old key times (Ok row)) self.new }
        ensures keys { OnOk result (AreKeysOf keys.new self.new.task.facts) }
    {
        if !agrees_with_task(&self.task, keys, &row) {
            return Err(ReadError::Line(LineKind::Value));
        }
        if keys.note(&row).is_err() {
            return Err(ReadError::Memory);
        }
        match self.task.add(alloc, row) {
            Ok(()) => {
                self.newest = Some(key);
                self.times = times;
                Ok(())
            }
            Err(_) => Err(ReadError::Memory),
        }
    }

    // Takes the fields after a keyword that may stand here.
    fn take_fields(
        &mut self,
        alloc: Global,
        keys: &mut FactKeys,
        key: Keyword,
        times: u32,
        others: &[&[u8]],
    ) -> Result<(), ReadError>
        requires { AreKeysOf keys.old self.old.task.facts }
        ensures state { Judges result (taken self.old key times (parsed key (map (λ x. x.now) others.now))) self.new }
        ensures keys { OnOk result (AreKeysOf keys.new self.new.task.facts) }
    {
        match parse_low(alloc, key, others) {
            Ok(row) => self.take(alloc, keys, key, times, row),
            Err(error) => Err(error),
        }
    }

    // Takes the fields after a keyword.
    fn take_keyword(
        &mut self,
        alloc: Global,
        keys: &mut FactKeys,
        key: Keyword,
        others: &[&[u8]],
    ) -> Result<(), ReadError>
        requires { AreKeysOf keys.old self.old.task.facts }
        ensures state { Judges result (named self.old (Some key) (map (λ x. x.now) others.now)) self.new }
        ensures keys { OnOk result (AreKeysOf keys.new self.new.task.facts) }
    {
        match next_count(self.newest, self.times, key) {
            Some(times) => self.take_fields(alloc, keys, key, times, others),
            None => Err(ReadError::Line(LineKind::Word)),
        }
    }

    // Takes the fields of a line.
    #[tactic(auto, unfolding(crate::specs::Gives::judged))]
    fn take_all(
        &mut self,
        alloc: Global,
        keys: &mut FactKeys,
        line: &[&[u8]],
    ) -> Result<(), ReadError>
        requires { AreKeysOf keys.old self.old.task.facts }
        ensures state { Judges result (judged self.old (map (λ x. x.now) line.now)) self.new }
        ensures keys { OnOk result (AreKeysOf keys.new self.new.task.facts) }
    {
        match line {
            [] => Err(ReadError::Line(LineKind::Word)),
            [first, others @ ..] => match keyword_of(first) {
                Some(key) => self.take_keyword(alloc, keys, key, others),
                None => Err(ReadError::Line(LineKind::Word)),
            },
        }
    }

    // Splits a line that says something.
    #[tactic(auto, using(crate::proofs::Longest::judged_cut))]
    fn take_split(
        &mut self,
        alloc: Global,
        keys: &mut FactKeys,
        line: &[u8],
    ) -> Result<(), ReadError>
        requires { AreKeysOf keys.old self.old.task.facts }
        ensures state { Judges result (judged self.old (fields_lem line.now)) self.new }
        ensures keys { OnOk result (AreKeysOf keys.new self.new.task.facts) }
    {
        match fields(alloc, line, MOST_FIELDS) {
            Ok(fields) => self.take_all(alloc, keys, &fields),
            Err(_) => Err(ReadError::Memory),
        }
    }

    // Takes one line. After an Err the reader is of no use.
    #[tactic(auto, unfolding(crate::specs::Gives::judge))]
    pub(crate) fn judge(
        &mut self,
        alloc: Global,
        keys: &mut FactKeys,
        line: &[u8],
    ) -> Result<(), ReadError>
        requires { AreKeysOf keys.old self.old.task.facts }
        ensures state { Judges result (judge_lem self.old line.now) self.new }
        ensures keys { OnOk result (AreKeysOf keys.new self.new.task.facts) }
    {
        if is_plain(line) {
            if is_skipped(line) {
                Ok(())
            } else {
                self.take_split(alloc, keys, line)
            }
        } else {
            Err(ReadError::Line(LineKind::Bytes))
        }
    }
}
