// Refusals of texts.

/// What is wrong with a line, by the first test that fails.
#[derive(Clone, Copy, Debug, PartialEq, Eq)]
pub enum LineKind {
    /// A byte other than 20 to 7e.
    Bytes,
    /// No keyword that can stand here.
    Word,
    /// The wrong number or form of fields.
    Field,
    /// Any other fault of a line.
    Value,
    /// No line: the text stops early.
    End,
}

/// Why a text is no task.
#[derive(Clone, Copy, Debug, PartialEq, Eq)]
pub enum TaskFault {
    /// The first line that no task can continue, counted from 1.
    Line { number: u64, kind: LineKind },
    /// There was no memory for the task.
    Memory,
}

/// Why a text is no jobs text of a task.
#[derive(Clone, Copy, Debug, PartialEq, Eq)]
pub enum JobsFault {
    /// The first line that no jobs text can continue, counted from 1, or the number of the last line plus one.
    Line { number: u64 },
    /// There was no memory for the jobs.
    Memory,
}

// Why a line was not taken.
#[derive(Clone, Copy, Debug)]
pub(crate) enum ReadError {
    Line(LineKind),
    Memory,
}
