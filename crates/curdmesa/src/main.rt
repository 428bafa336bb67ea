//! Shows Sentry envelopes, checks them, and takes them apart.
//!
//! `curdmesa COMMAND ..` with one of the commands `show`, `check`, `select`, `mend`, `normalize`,
//! `cat` and `make`. Exit status: 0 for success; 1 if `check` refuses an envelope, `select` leaves no
//! item, `mend --strict` has to change something, or `cat` finds no such item; 2 if the input of
//! another command is no envelope; 3 for a usage error; 4 if an allocation, a read or a write failed.
#![tactic(auto)]

mod args;
mod cat;
mod check;
mod command;
mod ending;
mod input;
mod make;
mod mend;
mod normalize;
mod select;

use args::{Call, Options, read_call};
use check::{check_envelope, show_envelope, status_of_both};
use command::{Command, PROGRAM, VERSION};
use ending::{Failure, failure_text, status_of, wrong_text};
use input::{STANDARD_INPUT, program_words, read_input};
use rand_core::SeedableRng;
use rand_pcg::Pcg32;
use sentry_forward::ForwardError;
use sentry_framing::ItemFrame;
use sentry_framing::sending::send_plain;
use sentry_making::make_envelope;
use sentry_program::clock::{moment_after, seed_at, time_since_1970};
use std::alloc::AllocError;
use std::env;
use std::io::IsTerminal;
use std::process::ExitCode;

// Writes bytes to standard output.
fn print(rt: &HostRuntime, bytes: &[u8]) -> Result<(), Failure<'static>> {
    send_plain(bytes, &mut rt.stdout())?;
    Ok(())
}

// Writes a text to standard error. If that fails, there is nowhere to say so.
fn complain(rt: &HostRuntime, text: &[u8]) {
    let _ = send_plain(text, &mut rt.stderr());
}

// Tells of a failure on standard error, and returns the exit status.
fn fail(rt: &HostRuntime, failure: &Failure<'_>) -> u8 {
    match failure_text(rt.alloc(), failure) {
        Ok(text) => {
            complain(rt, &text);
            status_of(failure)
        }
        Err(_) => {
            complain(rt, b"curdmesa: out of memory\n");
            status_of(&Failure::Memory)
        }
    }
}

// The file of a command that reads one.
fn file<'a>(options: &Options<'a>) -> &'a str {
    match options.files.first() {
        Some(file) => *file,
        None => STANDARD_INPUT,
    }
}

// Whether standard output is a terminal, and the environment doesn't ask for text without colors.
fn wants_colors(rt: &HostRuntime) -> bool {
    let asked_not = match env::var(rt, "NO_COLOR") {
        Ok(value) => !value.is_empty(),
        Err(_) => false,
    };
    !asked_not && rt.stdout().is_terminal()
}

fn show_file<'a>(rt: &HostRuntime, options: &Options<'a>) -> Result<u8, Failure<'a>> {
    let bytes = read_input(rt, file(options), options.base64)?;
    let colors = match options.color {
        Some(colors) => colors,
        None => wants_colors(rt),
    };
    let answer = show_envelope(rt.alloc(), &bytes, options.json, colors)?;
    print(rt, &answer.text)?;
    Ok(answer.status)
}

// Checks a file.
fn check_file<'a>(
    rt: &HostRuntime,
    options: &Options<'a>,
    file: &'a str,
) -> Result<u8, Failure<'a>> {
    let bytes = read_input(rt, file, options.base64)?;
    let answer = check_envelope(rt.alloc(), file, &bytes)?;
    if !options.quiet {
        print(rt, &answer.text)?;
    }
    Ok(answer.status)
}

// Checks each file; the status is the highest. A file that can't be read doesn't stop the others.
fn check_files<'a>(rt: &HostRuntime, options: &Options<'a>) -> Result<u8, Failure<'a>> {
    if options.files.is_empty() {
        return check_file(rt, options, STANDARD_INPUT);
    }
    let mut status = 0;
    for file in &options.files {
        let checked = match check_file(rt, options, *file) {
            Ok(status) => status,
            // The lines of the next files couldn't be written either.
            Err(Failure::Write) => return Err(Failure::Write),
            Err(failure) => fail(rt, &failure),
        };
        status = status_of_both(status, checked);
    }
    Ok(status)
}

fn select_items<'a>(rt: &HostRuntime, options: &Options<'a>) -> Result<u8, Failure<'a>> {
    let path = file(options);
    let bytes = read_input(rt, path, options.base64)?;
    let selected = match select::select(rt.alloc(), &bytes, &options.selection) {
        Ok(selected) => selected,
        Err(ForwardError::TooManyItems) => return Err(Failure::Memory),
        Err(ForwardError::Envelope(error)) => {
            return Err(Failure::unframed(rt.alloc(), path, &bytes, &error));
        }
    };
    let table = select::table_of_losses(rt.alloc(), &selected)?;
    let status = match selected.nonempty_parts() {
        Some(_) => {
            selected.to_writer(&mut rt.stdout())?;
            0
        }
        None => 1,
    };
    complain(rt, table.as_bytes());
    Ok(status)
}

fn mend_envelope<'a>(rt: &HostRuntime, options: &Options<'a>) -> Result<u8, Failure<'a>> {
    let path = file(options);
    let bytes = read_input(rt, path, options.base64)?;
    let time = time_since_1970(rt);
    let mut ids = Pcg32::seed_from_u64(seed_at(time));
    let rules = mend::rules(options.all, options.header_id);
    let mended = match mend::mend_text(rt.alloc(), &bytes, moment_after(time), &mut ids, rules) {
        Ok(mended) => mended,
        Err(refusal) => {
            return Err(Failure::refused(rt.alloc(), path, &bytes, &refusal.error));
        }
    };
    complain(rt, mended.notes.as_bytes());
    if options.strict && !mended.notes.is_empty() {
        return Ok(1);
    }
    print(rt, &mended.text)?;
    Ok(0)
}

fn normalize_envelope<'a>(rt: &HostRuntime, options: &Options<'a>) -> Result<u8, Failure<'a>> {
    let path = file(options);
    let bytes = read_input(rt, path, options.base64)?;
    let time = time_since_1970(rt);
    let mut ids = Pcg32::seed_from_u64(seed_at(time));
    match normalize::normal_form(rt.alloc(), &bytes, moment_after(time), &mut ids) {
        Ok(text) => {
            text.send_plain(&mut rt.stdout())?;
            Ok(0)
        }
        Err(error) => Err(Failure::refused(rt.alloc(), path, &bytes, &error)),
    }
}

fn cat_payload<'a>(rt: &HostRuntime, options: &Options<'a>) -> Result<u8, Failure<'a>> {
    let number = options.number.unwrap_or(0);
    if number == 0 {
        return Err(Failure::NoItem(number));
    }
    let path = file(options);
    let bytes = read_input(rt, path, options.base64)?;
    match cat::payload(rt.alloc(), &bytes, number) {
        Ok(Some(payload)) => {
            print(rt, payload)?;
            Ok(0)
        }
        Ok(None) => Err(Failure::NoItem(number)),
        Err(error) => Err(Failure::unframed(rt.alloc(), path, &bytes, &error)),
    }
}

// The item header and the content of a file.
#[derive(Drop)]
struct Part {
    header: Vec<u8>,
    payload: Vec<u8>,
}

fn read_parts<'a>(rt: &HostRuntime, options: &Options<'a>) -> Result<Vec<Part>, Failure<'a>> {
    let mut parts = Vec::new(rt.alloc());
    for file in &options.events {
        parts.push(Part {
            header: Vec::from_slice(rt.alloc(), make::EVENT)?,
            payload: read_input(rt, *file, options.base64)?,
        })?;
    }
    for file in &options.attachments {
        parts.push(Part {
            header: make::attachment_header(rt.alloc(), *file)?,
            payload: read_input(rt, *file, options.base64)?,
        })?;
    }
    Ok(parts)
}

fn make_of_files<'a>(rt: &HostRuntime, options: &Options<'a>) -> Result<u8, Failure<'a>> {
    let parts = read_parts(rt, options)?;
    let mut items = Vec::with_capacity(rt.alloc(), parts.len())?;
    for part in &parts {
        items.push(ItemFrame {
            header: &part.header,
            payload: &part.payload,
        })?;
    }
    // Events come first.
    let event: &[u8] = match parts.first() {
        Some(part) if !options.events.is_empty() => &part.payload,
        _ => b"",
    };
    let header = make::header_line(rt.alloc(), event)?;
    match make_envelope(rt.alloc(), &header, &items) {
        Ok(text) => {
            print(rt, &text)?;
            Ok(0)
        }
        // The headers are objects, so only an allocation can fail.
        Err(_) => Err(Failure::Memory),
    }
}

fn run<'a>(rt: &HostRuntime, command: Command, options: &Options<'a>) -> Result<u8, Failure<'a>> {
    match command {
        Command::Show => show_file(rt, options),
        Command::Check => check_files(rt, options),
        Command::Select => select_items(rt, options),
        Command::Mend => mend_envelope(rt, options),
        Command::Normalize => normalize_envelope(rt, options),
        Command::Cat => cat_payload(rt, options),
        Command::Make => make_of_files(rt, options),
    }
}

fn answer_call<'a>(rt: &HostRuntime, call: &Call<'a>) -> Result<u8, Failure<'a>> {
    match call {
        Call::Help(command) => {
            let text = match command {
                Some(command) => command.help(),
                None => PROGRAM,
            };
            print(rt, text.as_bytes())?;
            Ok(0)
        }
        Call::Version => {
            print(rt, VERSION.as_bytes())?;
            Ok(0)
        }
        Call::Run(command, options) => run(rt, *command, options),
        Call::Wrong(wrong) => {
            complain(rt, wrong_text(rt.alloc(), wrong)?.as_bytes());
            Ok(3)
        }
    }
}

// Runs the program for its arguments.
fn answer_words(rt: &HostRuntime, words: &[String]) -> u8 {
    match read_words(rt, words) {
        Ok(call) => match answer_call(rt, &call) {
            Ok(status) => status,
            Err(failure) => fail(rt, &failure),
        },
        Err(_) => fail(rt, &Failure::Memory),
    }
}

fn read_words<'a>(rt: &HostRuntime, words: &'a [String]) -> Result<Call<'a>, AllocError> {
    let mut texts = Vec::with_capacity(rt.alloc(), words.len())?;
    for word in words {
        texts.push(word.as_str())?;
    }
    read_call(rt.alloc(), &texts)
}

fn main(rt: HostRuntime) -> ExitCode {
    let status = match program_words(&rt) {
        Ok(words) => answer_words(&rt, &words),
        Err(failure) => fail(&rt, &failure),
    };
    ExitCode::from(status)
}
