// The text of a task is written, keyword by keyword.
ghost use Rattle.std.specs.Prelude.{◌≡◌, ◌++◌, OnOk, IfOk};
ghost use Rattle.std.specs.List.{flat_map};
ghost use Rattle.task_text.specs.declared.row.Keyword.TheVariants as k;
ghost use Rattle.task_text.specs.Texts.{IsGiven, IsTask};
ghost use Rattle.task_text.specs.Writing.{row_text, image_rows, words_rows, code_rows, section_text, text_of};

use crate::row::Keyword;
use crate::task::{Source, Task};
use crate::writing::{
    push_core, push_cuts, push_entry, push_facts, push_image, push_input, push_memory, push_order,
    push_output, push_points, push_ram, push_regions, push_shape, push_show, push_stack, push_time,
    push_version, push_words,
};
use std::alloc::{AllocError, Global};
use visa_io::{Code, List};

// The rows of code, a row for each range.
fn push_code(out: &mut Vec<u8>, code: &Code) -> Result<(), AllocError>
    ensures { OnOk result (out.new.items ≡ out.old.items ++ flat_map row_text (code_rows code.now.spans code.now.words)) }
{
    let mut rest = code.words.as_slice();
    for s in code.spans.as_slice() {
        let count = rest.len().min((s.len / 4) as usize);
        push_words(out, s.start, &rest[..count])?;
        rest = &rest[count..];
    }
    Ok(())
}

fn push_image_rows(out: &mut Vec<u8>, image: &Source) -> Result<(), AllocError>
    ensures { OnOk result (out.new.items ≡ out.old.items ++ flat_map row_text (image_rows image.now)) }
{
    match image {
        Source::Name(n) => push_image(out, n.as_slice()),
        Source::Words(_) => Ok(()),
    }
}

fn push_words_rows(out: &mut Vec<u8>, image: &Source) -> Result<(), AllocError>
    ensures { OnOk result (out.new.items ≡ out.old.items ++ flat_map row_text (words_rows image.now)) }
{
    match image {
        Source::Name(_) => Ok(()),
        Source::Words(code) => push_code(out, code),
    }
}

// The rows of a keyword.
#[tactic(auto, unfolding(crate::specs::Writing::section_text), using(crate::proofs::Joined::text_rules))]
fn push_section(out: &mut Vec<u8>, task: &Task, key: Keyword) -> Result<(), AllocError>
    ensures { OnOk result (out.new.items ≡ out.old.items ++ section_text task.now key) }
{
    match key {
        Keyword::Version => push_version(out),
        Keyword::Order => push_order(out, task.big),
        Keyword::Core => push_core(out, task.machine),
        Keyword::Memory => push_memory(out, task.machine),
        Keyword::Icache => push_shape(out, Keyword::Icache, task.machine.icache),
        Keyword::Dcache => push_shape(out, Keyword::Dcache, task.machine.dcache),
        Keyword::Point => push_points(out, task.points.as_slice()),
        Keyword::Time => push_time(out, task.period_ps, task.deadline_ps),
        Keyword::Image => push_image_rows(out, &task.image),
        Keyword::Words => push_words_rows(out, &task.image),
        Keyword::Entry => push_entry(out, task.entry),
        Keyword::Stack => push_stack(out, task.stack),
        Keyword::Ram => push_ram(out, task.ram.as_slice()),
        Keyword::Input => push_input(out, task.input_at, task.input_len),
        Keyword::Output => push_output(out, task.out_max),
        Keyword::Show => push_show(out, task.show.as_slice()),
        Keyword::Cut => push_cuts(out, task.cuts.as_slice()),
        Keyword::Loop => push_regions(out, task.regions.as_slice()),
        Keyword::Fact => push_facts(out, task.facts.as_slice()),
    }
}

// The rows of some keywords.
fn push_sections(out: &mut Vec<u8>, task: &Task, keys: &[Keyword]) -> Result<(), AllocError>
    ensures { OnOk result (out.new.items ≡ out.old.items ++ flat_map (section_text task.now) keys.now) }
{
    for key in keys {
        push_section(out, task, *key)?;
    }
    Ok(())
}

// The rows of all keywords.
#[tactic(auto, unfolding(crate::specs::Writing::text_of))]
fn push_task(out: &mut Vec<u8>, task: &Task) -> Result<(), AllocError>
    ensures { OnOk result (out.new.items ≡ out.old.items ++ text_of task.now) }
{
    push_sections(
        out,
        task,
        &[
            Keyword::Version,
            Keyword::Order,
            Keyword::Core,
            Keyword::Memory,
            Keyword::Icache,
            Keyword::Dcache,
            Keyword::Point,
            Keyword::Time,
            Keyword::Image,
            Keyword::Words,
            Keyword::Entry,
            Keyword::Stack,
            Keyword::Ram,
            Keyword::Input,
            Keyword::Output,
            Keyword::Show,
            Keyword::Cut,
            Keyword::Loop,
            Keyword::Fact,
        ],
    )
}

/// The text of a task. Read again it is the task, where some text gives it.
#[tactic(auto, using(crate::proofs::Written::text_back))]
pub fn task_text(alloc: Global, task: &Task) -> Result<List<u8>, AllocError>
    ensures text { IfOk result (λ bytes. bytes ≡ text_of task.now) }
    ensures back { IsGiven task.now → IfOk result (λ bytes. IsTask bytes task.now) }
{
    let mut out = Vec::new(alloc);
    push_task(&mut out, task)?;
    Ok(List::from_vec(out))
}
