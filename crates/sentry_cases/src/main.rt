//! Checks the libraries by cases: lines of standard input, each a name, what is given, and the
//! wanted answer, with tabs between them. A line that begins with `#` names the group of the cases
//! after it.
//!
//! Each wrong case is printed with its group and with what was answered, and at the end how many
//! cases there were. The exit status is 0 where all answers are as wanted, 1 where some aren't, 2
//! where the cases can't be read, and 3 where an allocation fails.
#![tactic(auto)]

mod answer;
mod asked;
mod auths;
mod built;
mod bytes;
mod case;
mod contexts;
mod counting;
mod dsns;
mod envelopes;
mod equal;
mod events;
mod filters;
mod form;
mod forwarding;
mod headers;
mod ids;
mod ledger;
mod made;
mod mending;
mod moments;
mod numbers;
mod parts;
mod records;
mod said;
mod texts;
mod trees;
mod typed;
mod words;

use case::{Case, fault};
use std::io;
use std::io::{BufRead, BufReader, BufWriter, ErrorKind, Write};
use std::process::ExitCode;

/// Answers all cases, and gives the count of those that are wrong.
fn answer_all(rt: &HostRuntime) -> io::Result<u64> {
    let alloc = rt.alloc();
    let mut out = BufWriter::new(alloc, rt.stdout())?;
    let mut group = String::new(alloc);
    let mut cases: u64 = 0;
    let mut wrong: u64 = 0;
    for line in BufReader::new(alloc, rt.stdin())?.lines(alloc) {
        let line = line?;
        if let Some(name) = line.as_str().strip_prefix("#") {
            group.clear();
            group.push_str(name.trim())?;
            continue;
        }
        cases = cases.saturating_add(1);
        if let Some(answer) = fault(alloc, &Case::new(line.as_str()))? {
            wrong = wrong.saturating_add(1);
            let told = format!(in alloc; "{group}: {line}\n    answered {answer}\n")?;
            out.write_all(told.as_bytes())?;
        }
    }
    out.write_all(format!(in alloc; "{cases} cases, {wrong} wrong\n")?.as_bytes())?;
    out.flush()?;
    Ok(wrong)
}

fn main(rt: HostRuntime) -> ExitCode {
    match answer_all(&rt) {
        Ok(0) => ExitCode::from(0),
        Ok(_) => ExitCode::from(1),
        Err(error) if error.kind() == ErrorKind::OutOfMemory => ExitCode::from(3),
        Err(_) => ExitCode::from(2),
    }
}
