// The command in a first word, names and the value of the option.
ghost use Rattle.std.specs.Prelude.{◌≡◌, option_map};
ghost use Rattle.std.specs.Str.{bytes_eq};
ghost use Rattle.command_line.specs.Commands.{simple as simple_lem, check as check_lem, run as run_lem, list as list_lem, demo as demo_lem, seen};
ghost use Rattle.command_line.specs.Reading.{names_seen, kind_of as kind_of_lem, predictor_of as predictor_of_lem, seed_of as seed_of_lem, command_of as command_of_lem, of_one, of_two};

use crate::forms::{Command, PredictorKind};
use crate::verb::Verb;
use text_fields::number_up_to;

// The names behind the first word, in order.
#[derive(Clone, Copy)]
pub(crate) enum Names<'a> {
    Zero,
    One(&'a str),
    Two(&'a str, &'a str),
}

// Whether the word is this text.
fn is_text(word: &[u8], text: &[u8]) -> bool
    ensures { result ≡ bytes_eq word.now text.now }
{
    word == text
}

// The predictor of this name.
#[tactic(auto, unfolding(crate::specs::Reading::kind_of))]
fn kind_of(word: &[u8]) -> Option<PredictorKind>
    ensures { result ≡ kind_of_lem word.now }
{
    if is_text(word, b"static") {
        Some(PredictorKind::Static)
    } else if is_text(word, b"bimodal") {
        Some(PredictorKind::Bimodal)
    } else if is_text(word, b"gshare") {
        Some(PredictorKind::Gshare)
    } else {
        None
    }
}

fn predictor_of(value: Option<&[u8]>) -> Option<PredictorKind>
    ensures { result ≡ predictor_of_lem (option_map (λ v. v.now) value.entry) }
{
    match value {
        None => Some(PredictorKind::Static),
        Some(word) => kind_of(word),
    }
}

// The number of a demonstration.
#[tactic(auto, unfolding(crate::specs::Reading::seed_of))]
fn seed_of(word: &str) -> Option<u32>
    ensures { result ≡ seed_of_lem word.now }
{
    let seed = number_up_to(word.as_bytes(), 4_294_967_295)?;
    Some(seed as u32)
}

fn simple(names: Names<'_>) -> Option<Command<'_>>
    ensures { option_map seen result ≡ of_two (λ t j. Some (simple_lem t j)) (names_seen names.entry) }
{
    match names {
        Names::Two(task, jobs) => Some(Command::Simple { task, jobs }),
        Names::Zero => None,
        Names::One(_) => None,
    }
}

fn check(names: Names<'_>) -> Option<Command<'_>>
    ensures { option_map seen result ≡ of_one (λ t. Some (check_lem t)) (names_seen names.entry) }
{
    match names {
        Names::One(task) => Some(Command::Check { task }),
        Names::Zero => None,
        Names::Two(_, _) => None,
    }
}

fn run<'a>(names: Names<'a>, value: Option<&'a [u8]>) -> Option<Command<'a>>
    ensures { option_map seen result
        ≡ of_two (λ t j. option_map (run_lem t j) (predictor_of_lem (option_map (λ v. v.now) value.entry)))
        (names_seen names.entry) }
{
    match names {
        Names::Two(task, jobs) => {
            let predictor = predictor_of(value)?;
            Some(Command::Run {
                task,
                jobs,
                predictor,
            })
        }
        Names::Zero => None,
        Names::One(_) => None,
    }
}

fn list(names: Names<'_>) -> Option<Command<'_>>
    ensures { option_map seen result ≡ of_one (λ t. Some (list_lem t)) (names_seen names.entry) }
{
    match names {
        Names::One(task) => Some(Command::List { task }),
        Names::Zero => None,
        Names::Two(_, _) => None,
    }
}

fn demo(names: Names<'_>) -> Option<Command<'_>>
    ensures { option_map seen result ≡ of_one (λ n. option_map demo_lem (seed_of_lem n)) (names_seen names.entry) }
{
    match names {
        Names::One(number) => {
            let seed = seed_of(number)?;
            Some(Command::Demo { seed })
        }
        Names::Zero => None,
        Names::Two(_, _) => None,
    }
}

// The command of a first word.
pub(crate) fn command_of<'a>(
    verb: Verb,
    names: Names<'a>,
    value: Option<&'a [u8]>,
) -> Option<Command<'a>>
    ensures { option_map seen result
        ≡ command_of_lem verb (names_seen names.entry) (option_map (λ v. v.now) value.entry) }
{
    match verb {
        Verb::Simple => simple(names),
        Verb::Check => check(names),
        Verb::Run => run(names, value),
        Verb::List => list(names),
        Verb::Demo => demo(names),
    }
}
