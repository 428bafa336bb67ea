//! Rewrites a Sentry envelope in its normal form, and removes items by their type.
//!
//! `sentry_env [-k] [-f PATH] KIND..` reads an envelope from the file PATH, or from standard input
//! without `-f`, and removes the items whose type is one of the KINDs. `-k` keeps the envelope
//! header when items are removed. Exit status: 0 if an envelope was written, 1 if no item is left,
//! 2 if the input is no envelope or can't be read, 3 for a usage error, 4 if an allocation or a
//! write failed.
#![tactic(auto)]

mod args;
mod ending;
mod laws;
mod read_all;
mod run;

use args::{Args, program_args};
use ending::{Outcome, RunError, ending, usage};
use rand_core::SeedableRng;
use rand_pcg::Pcg32;
use run::run;
use sentry_program::clock::{moment_after, seed_at, time_since_1970};
pub(crate) use sentry_types::protocol::v7::ItemKind as Kind;
use sentry_types::protocol::v7::{CountedReader, CountedWriter};
use std::alloc::AllocError;
use std::fs;
use std::io::Read;
use std::process::ExitCode;

// Runs the program for its arguments.
fn answer_call(rt: &HostRuntime, args: &Args) -> Result<Outcome, RunError> {
    match &args.path {
        Some(path) => match fs::open(rt, path.as_str()) {
            Ok(file) => rewrite(rt, args, file),
            Err(_) => Err(RunError::Read),
        },
        None => rewrite(rt, args, rt.stdin()),
    }
}

// Rewrites a source to standard output, with the table of losses on standard error.
fn rewrite<R: Read>(rt: &HostRuntime, args: &Args, source: R) -> Result<Outcome, RunError>
where
    R: Drop,
{
    let time = time_since_1970(rt);
    let mut ids = Pcg32::seed_from_u64(seed_at(time));
    let mut reader = CountedReader::new(source);
    let mut out = CountedWriter::new(rt.stdout());
    let mut table = CountedWriter::new(rt.stderr());
    run(
        rt.alloc(),
        &mut reader,
        &args.kinds,
        args.keep,
        moment_after(time),
        &mut ids,
        &mut out,
        &mut table,
    )
}

// Returns the exit status and the line for standard error.
fn end_of_call(rt: &HostRuntime, call: Result<Option<Args>, AllocError>) -> (u8, &'static str) {
    match call {
        Ok(Some(args)) => ending(&answer_call(rt, &args)),
        Ok(None) => usage(),
        Err(_) => ending(&Err(RunError::Memory)),
    }
}

fn main(rt: HostRuntime) -> ExitCode {
    let (status, line) = end_of_call(&rt, program_args(&rt));
    if !line.is_empty() {
        let _ = rt.eprintln(line);
    }
    ExitCode::from(status)
}
