// The status that the fault of a stage has. Want of memory has one status, wherever it comes.
ghost use Rattle.std.specs.Prelude.{◌≡◌};
ghost use Rattle.visa_cli.specs.Stages.{elf_status as elf_status_lem, file_status as file_status_lem, jobs_status as jobs_status_lem, layout_status as layout_status_lem, refusal_status as refusal_status_lem, task_status as task_status_lem};

use crate::status::{ImageKind, Role, Status};
use admission::Refusal;
use mips_elf::ElfError;
use task_layout::LayoutFault;
use task_text::{JobsFault, TaskFault};
use visa_io::FileFault;

pub fn file_status(role: Role, fault: FileFault) -> Status
    ensures { result ≡ file_status_lem role fault }
{
    match fault {
        FileFault::Failed => Status::ReadFault { role },
        FileFault::Long => Status::Long { role },
        FileFault::Memory => Status::Memory,
    }
}

pub fn task_status(fault: TaskFault) -> Status
    ensures { result ≡ task_status_lem fault }
{
    match fault {
        TaskFault::Line { number, kind } => Status::TaskText { line: number, kind },
        TaskFault::Memory => Status::Memory,
    }
}

pub fn elf_status(fault: ElfError) -> Status
    ensures { result ≡ elf_status_lem fault }
{
    match fault {
        ElfError::Memory => Status::Memory,
        other => Status::ImageRefused(ImageKind::Elf(other)),
    }
}

pub fn layout_status(fault: LayoutFault) -> Status
    ensures { result ≡ layout_status_lem fault }
{
    match fault {
        LayoutFault::Memory => Status::Memory,
        other => Status::ImageRefused(ImageKind::Layout(other)),
    }
}

pub fn refusal_status(refusal: Refusal) -> Status
    ensures { result ≡ refusal_status_lem refusal }
{
    match refusal {
        Refusal::Memory => Status::Memory,
        other => Status::Refused(other),
    }
}

pub fn jobs_status(fault: JobsFault) -> Status
    ensures { result ≡ jobs_status_lem fault }
{
    match fault {
        JobsFault::Line { number } => Status::JobsText { line: number },
        JobsFault::Memory => Status::Memory,
    }
}
