// What a run of the program answers.
ghost use Rattle.std.specs.Prelude.{◌≡◌};

use admission::Refusal;
use mips_elf::ElfError;
use task_layout::LayoutFault;
use task_text::LineKind;

/// What a file is read for.
#[derive(Clone, Copy, Debug, PartialEq, Eq)]
pub enum Role {
    /// The task text.
    Task,
    /// The image that the task names.
    Image,
    /// The jobs text.
    Jobs,
}

/// Why an image is refused. Want of memory is no such cause: it has a status of its own.
#[derive(Clone, Copy, Debug, PartialEq, Eq)]
pub enum ImageKind {
    /// The file is no executable that is taken.
    Elf(ElfError),
    /// The task can't be laid out with it.
    Layout(LayoutFault),
}

/// How a call of the program ended.
#[derive(Clone, Copy, Debug, PartialEq, Eq)]
pub enum Status {
    /// Every job ran and its lines were written.
    Done,
    /// The words are no command.
    Usage,
    /// A file couldn't be read.
    ReadFault { role: Role },
    /// The task text is no task's: the first line that no task can continue, counted from 1, and the first test that it
    /// fails.
    TaskText { line: u64, kind: LineKind },
    /// The image is refused.
    ImageRefused(ImageKind),
    /// The task isn't admitted. Want of memory is no such refusal: it has a status of its own.
    Refused(Refusal),
    /// The jobs text is none of the task: the first line that no jobs text can continue, counted from 1.
    JobsText { line: u64 },
    /// The sink failed.
    WriteFault,
    /// Memory ran out.
    Memory,
    /// A file has more than 8388608 bytes.
    Long { role: Role },
}

impl Status {
    ghost use Rattle.visa_cli.specs.Status.{number_of};

    /// The exit status of the program.
    pub fn number(&self) -> u8
        ensures { result ≡ number_of self.now }
    {
        match self {
            Status::Done => 0,
            Status::Usage => 1,
            Status::ReadFault { role: _ } => 2,
            Status::TaskText { line: _, kind: _ } => 3,
            Status::ImageRefused(_) => 4,
            Status::Refused(_) => 5,
            Status::JobsText { line: _ } => 6,
            Status::WriteFault => 7,
            Status::Memory => 8,
            Status::Long { role: _ } => 9,
        }
    }
}
