// The parser of `clap`, and the command in what it found.
ghost use Rattle.std.specs.Prelude.{◌≡◌, codes, false, option_map, ◌≢◌, IfOk, OnErr, Some, None};
ghost use Rattle.clap.specs.Words.{App, app_of, first_of, found_of, rows_of, subcommand_rows_of};
ghost use Rattle.clap.specs.declared.builder.command.Command.TheViews.{out-Command as fields_of};
ghost use Rattle.command_line.specs.Commands.{seen};
ghost use Rattle.command_line.specs.Reading.{names_seen};
ghost use Rattle.command_line.specs.Parser.{bare_app, one_app, two_app, run_app, simple_and_check, parser_app, in_order as in_order_lem, names_found as names_found_lem, command_in as command_in_lem, command_found as command_found_lem};

use crate::command::{Names, command_of};
use crate::forms::Command;
use crate::verb::verb_of;
use clap::error::ErrorKind;
use clap::{Arg, ArgMatches};
use std::alloc::{AllocError, Global};

// A subcommand with no arguments yet.
fn bare<'a>(alloc: Global, name: &'a str) -> clap::Command<'a>
    ensures app { app_of result ≡ bare_app name.now }
    ensures local { (fields_of result).has_globals ≡ false }
{
    clap::Command::new(alloc, name).disable_help_flag(true)
}

// A subcommand with one name.
fn with_one<'a>(alloc: Global, name: &'a str) -> Result<clap::Command<'a>, AllocError>
    ensures { IfOk result (λ r. (app_of r ≡ one_app name.now) × ((fields_of r).has_globals ≡ false)) }
{
    let task = Arg::new(alloc, "task");
    let command = bare(alloc, name).arg(task)?;
    Ok(command)
}

// A subcommand with two names.
fn with_two<'a>(alloc: Global, name: &'a str) -> Result<clap::Command<'a>, AllocError>
    ensures { IfOk result (λ r. (app_of r ≡ two_app name.now) × ((fields_of r).has_globals ≡ false)) }
{
    let jobs = Arg::new(alloc, "jobs");
    let command = with_one(alloc, name)?.arg(jobs)?;
    Ok(command)
}

// A subcommand with two names and the option.
fn with_predictor<'a>(alloc: Global, name: &'a str) -> Result<clap::Command<'a>, AllocError>
    ensures { IfOk result (λ r. (app_of r ≡ run_app name.now) × ((fields_of r).has_globals ≡ false)) }
{
    let predictor = Arg::new(alloc, "predictor").long("predictor");
    let command = with_two(alloc, name)?.arg(predictor)?;
    Ok(command)
}

fn with_simple_and_check<'a>(alloc: Global) -> Result<clap::Command<'a>, AllocError>
    ensures { IfOk result (λ r. app_of r ≡ simple_and_check) }
{
    let simple = with_two(alloc, "simple")?;
    let check = with_one(alloc, "check")?;
    let command = clap::Command::new(alloc, "visa")
        .no_binary_name(true)
        .disable_help_flag(true)
        .disable_help_subcommand(true)
        .disable_version_flag(true)
        .subcommand_required(true)
        .subcommand(simple)?
        .subcommand(check)?;
    Ok(command)
}

// The parser of the whole command line.
pub(crate) fn parser<'a>(alloc: Global) -> Result<clap::Command<'a>, AllocError>
    ensures { IfOk result (λ r. app_of r ≡ parser_app) }
{
    let run = with_predictor(alloc, "run")?;
    let list = with_one(alloc, "list")?;
    let demo = with_one(alloc, "demo")?;
    let command = with_simple_and_check(alloc)?
        .subcommand(run)?
        .subcommand(list)?
        .subcommand(demo)?;
    Ok(command)
}

fn in_order<'a>(task: Option<&'a str>, jobs: Option<&'a str>) -> Names<'a>
    ensures { names_seen result
        ≡ in_order_lem (option_map (λ t. t.now) task.entry) (option_map (λ t. t.now) jobs.entry) }
{
    match task {
        None => Names::Zero,
        Some(first) => behind_first(first, jobs),
    }
}

fn behind_first<'a>(first: &'a str, jobs: Option<&'a str>) -> Names<'a>
    ensures { names_seen result ≡ in_order_lem (Some first.now) (option_map (λ t. t.now) jobs.entry) }
{
    match jobs {
        None => Names::One(first),
        Some(second) => Names::Two(first, second),
    }
}

// The first value of an argument.
fn text_of<'a>(matches: &ArgMatches<'a>, id: &str) -> Option<&'a str>
    ensures { option_map (λ t. t.now) result ≡ first_of id.now (rows_of (found_of matches.now)) }
{
    matches.get_str(id)
}

fn names_found<'a>(matches: &ArgMatches<'a>) -> Names<'a>
    ensures { names_seen result ≡ names_found_lem (rows_of (found_of matches.now)) }
{
    in_order(text_of(matches, "task"), text_of(matches, "jobs"))
}

fn value_found<'a>(matches: &ArgMatches<'a>) -> Option<&'a [u8]>
    ensures { option_map (λ v. v.now) result ≡ first_of (codes "predictor") (rows_of (found_of matches.now)) }
{
    match text_of(matches, "predictor") {
        Some(value) => Some(value.as_bytes()),
        None => None,
    }
}

fn command_in<'a>(name: &str, matches: &ArgMatches<'a>) -> Option<Command<'a>>
    ensures { option_map seen result ≡ command_in_lem name.now (rows_of (found_of matches.now)) }
{
    let verb = verb_of(name)?;
    command_of(verb, names_found(matches), value_found(matches))
}

// A refusal of the words is that of no command, and another error is want of memory.
pub(crate) fn refused<'a>(kind: ErrorKind) -> Result<Option<Command<'a>>, AllocError>
    ensures memory { OnErr result (kind ≡ ErrorKind.OutOfMemory) }
    ensures other { IfOk result (λ r. (r ≡ None) × (kind ≢ ErrorKind.OutOfMemory)) }
{
    match kind {
        ErrorKind::OutOfMemory => Err(AllocError),
        _ => Ok(None),
    }
}

pub(crate) fn command_found<'a>(matches: &ArgMatches<'a>) -> Option<Command<'a>>
    ensures { option_map seen result ≡ command_found_lem (subcommand_rows_of matches.now) }
{
    let (name, inner) = matches.subcommand()?;
    command_in(name, inner)
}
