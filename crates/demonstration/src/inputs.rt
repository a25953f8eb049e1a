// The jobs of the demonstration.
ghost use Rattle.demonstration.specs.Demonstration.{demo_jobs as demo_jobs_lem, demo_task, drawn, input_from, words as words_lem, words_end};
ghost use Rattle.std.specs.Int.{to_be_bytes, w32};
ghost use Rattle.std.specs.Prelude.{◌≡◌, ◌++◌, ◌≤◌, ◌<◌, ◌^◌, length, true, IfOk, OnOk};
ghost use Rattle.task_text.specs.JobInputs.{AreInputsOf};
ghost use Rattle.task_text.specs.JobsTexts.{add as add_lem, job as job_row};
ghost use Rattle.task_text.specs.WordsImage.{words_bytes};

use crate::generator::{draw, word_count, word_of, words_start};
use std::alloc::{AllocError, Global};
use task_text::{Jobs, Piece};
use visa_io::List;

// Puts bytes behind.
fn push_all(bytes: &mut List<u8>, more: &[u8]) -> Result<(), AllocError>
    ensures { OnOk result (bytes.new ≡ bytes.old ++ more.now) }
{
    for b in more {
        bytes.push(*b)?;
    }
    Ok(())
}

// Puts a word behind, big-endian.
fn push_word(bytes: &mut List<u8>, word: u32) -> Result<(), AllocError>
    ensures { OnOk result (bytes.new ≡ bytes.old ++ to_be_bytes w32 word) }
{
    push_all(bytes, &word.to_be_bytes())
}

// Puts the words of so many draws behind. The result is the number that they leave.
fn push_words(bytes: &mut List<u8>, count: u32, start: u32) -> Result<u32, AllocError>
    ensures bytes { OnOk result (bytes.new ≡ bytes.old ++ words_bytes true (words_lem count start)) }
    ensures number { IfOk result (λ x. x ≡ drawn count start) }
{
    let mut number = start;
    for _k in 0..count {
        number = draw(number);
        push_word(bytes, word_of(number))?;
    }
    Ok(number)
}

// Takes a job, counted from 1, whose draws begin at a number. The result is the number that they leave.
fn push_job(jobs: &mut Jobs, job: u32, start: u32) -> Result<u32, AllocError>
    ensures jobs { OnOk result (jobs.new ≡ add_lem (job_row (input_from job start)) jobs.old) }
    ensures number { IfOk result (λ x. x ≡ words_end job start) }
{
    let count = word_count(job, start);
    let piece = Piece {
        from: jobs.bytes.len() as u64,
        len: 4 * count,
    };
    let number = push_words(&mut jobs.bytes, count, words_start(job, start))?;
    jobs.inputs.push(piece)?;
    Ok(number)
}

// The jobs with a seed.
#[tactic(auto, unfolding(crate::specs::Demonstration::demo_jobs))]
fn made(alloc: Global, seed: u32) -> Result<Jobs, AllocError>
    ensures { IfOk result (λ j. j ≡ demo_jobs_lem seed) }
{
    let mut jobs = Jobs {
        past: List::new(alloc),
        inputs: List::new(alloc),
        bytes: List::new(alloc),
    };
    let mut number = seed;
    for k in 0..200u32 {
        number = push_job(&mut jobs, k + 1, number)?;
    }
    Ok(jobs)
}

/// The jobs of the demonstration with a seed: 200, their inputs one after the other.
///
/// # Errors
///
/// Where there was no memory for them.
pub fn demo_jobs(alloc: Global, seed: u32) -> Result<Jobs, AllocError>
    ensures jobs { IfOk result (λ j. j ≡ demo_jobs_lem seed) }
    ensures inputs { IfOk result (AreInputsOf demo_task) }
{
    made(alloc, seed)
}
