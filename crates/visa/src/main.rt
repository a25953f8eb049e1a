//! `visa` bounds and simulates one hard real-time task on a virtual simple architecture.
#![tactic(auto)]

mod reasons;

use crate::reasons::{Watched, meaning};
use std::env::Env;
use std::process::ExitCode;
use std::{env, io};
use visa_cli::{ArgumentsFault, run_program};
use visa_io::{Files, HostFiles, HostSink};

fn arguments<R: Env + AllocGlobal>(rt: &R) -> Result<Vec<String>, ArgumentsFault> {
    match env::args(rt) {
        Ok(arguments) => arguments
            .collect(rt.alloc())
            .map_err(|_| ArgumentsFault::Memory),
        Err(error) if error.kind() == io::ErrorKind::OutOfMemory => Err(ArgumentsFault::Memory),
        Err(_) => Err(ArgumentsFault::NotText),
    }
}

// Tells standard error what a status means, and for a read that failed its name and the system's reason. Where that can't be written,
// nothing is said.
fn explain<F: Files, R: Eprint + std::rt::Files>(rt: &R, status: u8, files: &Watched<'_, F, R>) {
    let _told = match (status, files.name(), files.reason()) {
        (0, _, _) => Ok(()),
        (2, Some(name), Some(reason)) => eprintln!(rt; "visa: {name}: {reason}"),
        (2, Some(name), None) => eprintln!(rt; "visa: {name}: {}", meaning(2)),
        _ => eprintln!(rt; "visa: {}", meaning(status)),
    };
}

fn main(rt: HostRuntime) -> ExitCode {
    let arguments = arguments(&rt);
    let mut files = Watched::new(HostFiles::new(&rt), &rt);
    let mut sink = HostSink::new(io::writer(&rt));
    let status = run_program(rt.alloc(), arguments, &mut files, &mut sink);
    explain(&rt, status, &files);
    ExitCode::from(status)
}
