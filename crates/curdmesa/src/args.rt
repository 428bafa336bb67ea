//! The command line.

use crate::command::Command;
use crate::select::Selection;
use std::alloc::{AllocError, Global};

/// A parsed command line.
#[derive(Drop)]
pub enum Call<'a> {
    /// Print the help text of a command; of the program if `None`.
    Help(Option<Command>),
    /// Print the version.
    Version,
    /// Run a command.
    Run(Command, Options<'a>),
    /// A usage error.
    Wrong(Wrong<'a>),
}

/// The options and files of a command. Those that the command doesn't have aren't set.
#[derive(Drop)]
pub struct Options<'a> {
    /// Files, in order; standard input if there are none.
    pub files: Vec<&'a str>,
    /// Whether the input is base64.
    pub base64: bool,
    /// Whether JSON is printed.
    pub json: bool,
    /// Whether colors are printed; if `None`, on a terminal alone.
    pub color: Option<bool>,
    /// Whether nothing is printed.
    pub quiet: bool,
    /// Whether a note is a failure.
    pub strict: bool,
    /// Whether what doesn't fit is taken out.
    pub all: bool,
    /// Whether events and transactions without an id get the header's.
    pub header_id: bool,
    /// Number of the item, from 1.
    pub number: Option<usize>,
    /// Which items are kept.
    pub selection: Selection<'a>,
    /// Files of events.
    pub events: Vec<&'a str>,
    /// Files of attachments.
    pub attachments: Vec<&'a str>,
}

/// A usage error.
#[derive(Clone, Copy)]
pub struct Wrong<'a> {
    /// What is wrong.
    pub reason: Reason,
    /// The word that is wrong; empty if one is missing.
    pub word: &'a str,
    /// The command whose usage it is; `None` if no command is named.
    pub command: Option<Command>,
}

/// The reason of a usage error.
#[derive(Clone, Copy, Debug)]
pub enum Reason {
    /// No command.
    NoCommand,
    /// Not a command.
    UnknownCommand,
    /// Not an option of the command.
    UnknownOption,
    /// An option without its value.
    NoValue,
    /// An option with a value that it doesn't take.
    UnneededValue,
    /// A value that isn't a number.
    NoNumber,
    /// An item number of 0.
    NumberZero,
    /// A value of `--color` that isn't one of the three.
    NoColor,
    /// A second file where one is read.
    SecondFile,
    /// A file where none is read.
    NoFile,
    /// Option `-n` is missing.
    NoItemNumber,
    /// No event and no attachment.
    NoPart,
}

// An option of a command.
#[derive(Clone, Copy, Debug)]
enum Setting {
    Base64,
    Json,
    Color,
    Quiet,
    Strict,
    All,
    HeaderId,
    Number,
    Keep,
    Drop,
    MaxBytes,
    Event,
    Attachment,
}

impl Setting {
    // Parses an option of a command; `None` if the command has no such option.
    fn of_word(command: Command, word: &str) -> Option<Setting> {
        if word == "--base64" {
            return Some(Setting::Base64);
        }
        match command {
            Command::Show => match word {
                "--json" => Some(Setting::Json),
                "--color" => Some(Setting::Color),
                _ => None,
            },
            Command::Check => match word {
                "-q" | "--quiet" => Some(Setting::Quiet),
                _ => None,
            },
            Command::Select => match word {
                "--keep" => Some(Setting::Keep),
                "--drop" => Some(Setting::Drop),
                "--max-bytes" => Some(Setting::MaxBytes),
                _ => None,
            },
            Command::Mend => match word {
                "--strict" => Some(Setting::Strict),
                "--all" => Some(Setting::All),
                "--header-id" => Some(Setting::HeaderId),
                _ => None,
            },
            Command::Normalize => None,
            Command::Cat => match word {
                "-n" => Some(Setting::Number),
                _ => None,
            },
            Command::Make => match word {
                "--event" => Some(Setting::Event),
                "--attachment" => Some(Setting::Attachment),
                _ => None,
            },
        }
    }

    fn takes_value(self) -> bool {
        match self {
            Setting::Color | Setting::Number => true,
            Setting::Keep | Setting::Drop | Setting::MaxBytes => true,
            Setting::Event | Setting::Attachment => true,
            _ => false,
        }
    }
}

impl<'a> Options<'a> {
    fn new(alloc: Global) -> Options<'a> {
        Options {
            files: Vec::new(alloc),
            base64: false,
            json: false,
            color: None,
            quiet: false,
            strict: false,
            all: false,
            header_id: false,
            number: None,
            selection: Selection::new(alloc),
            events: Vec::new(alloc),
            attachments: Vec::new(alloc),
        }
    }

    // Sets an option without a value.
    fn set(&mut self, setting: Setting) {
        match setting {
            Setting::Base64 => self.base64 = true,
            Setting::Json => self.json = true,
            Setting::Quiet => self.quiet = true,
            Setting::Strict => self.strict = true,
            Setting::All => self.all = true,
            Setting::HeaderId => self.header_id = true,
            _ => {}
        }
    }

    // Sets an option with a value. Returns what is wrong with the value, if anything.
    fn set_value(
        &mut self,
        setting: Setting,
        value: &'a str,
    ) -> Result<Option<Reason>, AllocError> {
        match setting {
            Setting::Keep => self.selection.keep.push(value)?,
            Setting::Drop => self.selection.drop.push(value)?,
            Setting::Event => self.events.push(value)?,
            Setting::Attachment => self.attachments.push(value)?,
            Setting::Color => {
                self.color = match value {
                    "always" => Some(true),
                    "never" => Some(false),
                    "auto" => None,
                    _ => return Ok(Some(Reason::NoColor)),
                };
            }
            _ => {
                let Ok(number) = value.parse::<usize>() else {
                    return Ok(Some(Reason::NoNumber));
                };
                return Ok(self.set_number(setting, number));
            }
        }
        Ok(None)
    }

    // Sets an option whose value is a number. Returns what is wrong with the number, if anything.
    fn set_number(&mut self, setting: Setting, number: usize) -> Option<Reason> {
        match setting {
            Setting::MaxBytes => self.selection.max_bytes = Some(number),
            _ => {
                if number == 0 {
                    return Some(Reason::NumberZero);
                }
                self.number = Some(number);
            }
        }
        None
    }
}

// Whether a word begins with a hyphen and has more than that.
fn is_option(word: &str) -> bool {
    match word.as_bytes() {
        [first, _, ..] => *first == b'-',
        _ => false,
    }
}

// Splits `--NAME=VALUE`, and the value from a short option: `-n2`.
fn split_value(word: &str) -> (&str, Option<&str>) {
    if word.starts_with("--") {
        return match word.split_once('=') {
            Some((name, value)) => (name, Some(value)),
            None => (word, None),
        };
    }
    match word.split_at_checked(2) {
        Some((name, value)) if !value.is_empty() => (name, Some(value)),
        _ => (word, None),
    }
}

// What is read of the words behind a command.
#[derive(Drop)]
struct Reading<'a> {
    command: Command,
    options: Options<'a>,
    // The option whose value comes next, and its word.
    awaiting: Option<(Setting, &'a str)>,
    // Whether all further words are files.
    only_files: bool,
}

impl<'a> Reading<'a> {
    fn new(alloc: Global, command: Command) -> Reading<'a> {
        Reading {
            command,
            options: Options::new(alloc),
            awaiting: None,
            only_files: false,
        }
    }

    fn wrong(&self, reason: Reason, word: &'a str) -> Wrong<'a> {
        Wrong {
            reason,
            word,
            command: Some(self.command),
        }
    }

    // Reads the value of an option. Returns what is wrong with it, if anything.
    fn value(&mut self, setting: Setting, value: &'a str) -> Result<Option<Wrong<'a>>, AllocError> {
        match self.options.set_value(setting, value)? {
            Some(reason) => Ok(Some(self.wrong(reason, value))),
            None => Ok(None),
        }
    }

    // Reads an option. Returns what is wrong with it, if anything.
    fn option(&mut self, word: &'a str) -> Result<Option<Wrong<'a>>, AllocError> {
        let (name, value) = split_value(word);
        let Some(setting) = Setting::of_word(self.command, name) else {
            return Ok(Some(self.wrong(Reason::UnknownOption, word)));
        };
        match value {
            Some(value) if setting.takes_value() => self.value(setting, value),
            Some(_) => Ok(Some(self.wrong(Reason::UnneededValue, name))),
            None => {
                if setting.takes_value() {
                    self.awaiting = Some((setting, word));
                } else {
                    self.options.set(setting);
                }
                Ok(None)
            }
        }
    }

    // Reads a word. Returns what is wrong with it, if anything.
    fn word(&mut self, word: &'a str) -> Result<Option<Wrong<'a>>, AllocError> {
        if let Some((setting, _)) = self.awaiting {
            self.awaiting = None;
            return self.value(setting, word);
        }
        if self.only_files || !is_option(word) {
            self.options.files.push(word)?;
            return Ok(None);
        }
        if word == "--" {
            self.only_files = true;
            return Ok(None);
        }
        self.option(word)
    }

    // Returns the call that was read.
    fn call(self) -> Call<'a> {
        match self.awaiting {
            Some((_, word)) => Call::Wrong(self.wrong(Reason::NoValue, word)),
            None => complete(self.command, self.options),
        }
    }
}

fn usage_error<'a>(reason: Reason, word: &'a str, command: Option<Command>) -> Call<'a> {
    Call::Wrong(Wrong {
        reason,
        word,
        command,
    })
}

// Returns a call of a command, or what it lacks or has too much.
fn complete<'a>(command: Command, options: Options<'a>) -> Call<'a> {
    match command {
        Command::Cat if options.number.is_none() => {
            return usage_error(Reason::NoItemNumber, "", Some(command));
        }
        Command::Check => {}
        Command::Make => {
            if let Some(file) = options.files.first() {
                return usage_error(Reason::NoFile, *file, Some(command));
            }
            if options.events.is_empty() && options.attachments.is_empty() {
                return usage_error(Reason::NoPart, "", Some(command));
            }
        }
        _ => {
            if let Some(second) = options.files.get(1) {
                return usage_error(Reason::SecondFile, *second, Some(command));
            }
        }
    }
    Call::Run(command, options)
}

// Parses a command and the words behind it.
fn read_command<'a>(
    alloc: Global,
    command: Command,
    words: &[&'a str],
) -> Result<Call<'a>, AllocError> {
    if words.iter().any(|word| *word == "--help" || *word == "-h") {
        return Ok(Call::Help(Some(command)));
    }
    let mut reading = Reading::new(alloc, command);
    for word in words {
        if let Some(wrong) = reading.word(*word)? {
            return Ok(Call::Wrong(wrong));
        }
    }
    Ok(reading.call())
}

// Parses the words behind `help`.
fn read_help<'a>(words: &[&'a str]) -> Call<'a> {
    let Some(word) = words.first() else {
        return Call::Help(None);
    };
    match Command::of_word(*word) {
        Some(command) => Call::Help(Some(command)),
        None => usage_error(Reason::UnknownCommand, *word, None),
    }
}

/// Parses the arguments after the program's name. A usage error is a call too.
///
/// # Errors
///
/// `AllocError` if an allocation fails.
pub fn read_call<'a>(alloc: Global, words: &[&'a str]) -> Result<Call<'a>, AllocError> {
    let Some((first, rest)) = words.split_first() else {
        return Ok(usage_error(Reason::NoCommand, "", None));
    };
    let word = *first;
    match word {
        "--help" | "-h" => return Ok(Call::Help(None)),
        "--version" => return Ok(Call::Version),
        "help" => return Ok(read_help(rest)),
        _ => {}
    }
    match Command::of_word(word) {
        Some(command) => read_command(alloc, command, rest),
        None if is_option(word) => Ok(usage_error(Reason::UnknownOption, word, None)),
        None => Ok(usage_error(Reason::UnknownCommand, word, None)),
    }
}
