//! Text for a terminal.

ghost use Rattle.std.specs.Prelude.{◌≡◌, IfSome, IfOk, OnOk, string_bytes};
ghost use Rattle.sentry_show.specs.Screen.{IsPage, IsPrinted, IsVisible, PushesLine, columns_of};

use std::alloc::{AllocError, Global};
use unicode_width::UnicodeWidthChar;

/// Columns of a terminal.
pub const COLUMNS: usize = 80;

// What stands where a text was cut.
const CUT: char = '…';

// The columns that a character takes; `None` for a control character, and any other that takes
// none, such as those that change the direction of text.
fn columns_of(c: char) -> Option<usize>
    ensures visible { IfSome result (λ _. IsVisible c) }
    ensures columns { IfSome result (λ columns. columns_of c ≡ columns) }
{
    if c.is_control() {
        return None;
    }
    match c.width() {
        Some(0) => None,
        width => width,
    }
}

// What stands for a character that takes no columns.
fn picture_of(c: char) -> char {
    match c {
        '\n' => '␊',
        '\t' => '␉',
        '\r' => '␍',
        '\u{1b}' => '␛',
        _ => '�',
    }
}

// What stands for a character on the screen, and its columns; `None` if nothing does.
fn shown(c: char) -> Option<(char, usize)>
    ensures visible { IfSome result (λ x. IsVisible x.0) }
    ensures columns { IfSome result (λ x. columns_of x.0 ≡ x.1) }
{
    if let Some(columns) = columns_of(c) {
        return Some((c, columns));
    }
    let picture = picture_of(c);
    let columns = columns_of(picture)?;
    Some((picture, columns))
}

// Appends what stands for a character, if it takes at most `room` columns. Returns what it takes.
#[tactic(auto, using(crate::proofs::ScreenLemmas::pushes_one, crate::proofs::ScreenLemmas::pushes_nothing))]
fn push_char(out: &mut String, c: char, room: usize) -> Result<usize, AllocError>
    ensures { IfOk result (λ taken.
        PushesLine room taken (string_bytes out.old) (string_bytes out.new)) }
{
    match shown(c) {
        Some((c, columns)) if columns <= room => {
            out.push(c)?;
            Ok(columns)
        }
        _ => Ok(0),
    }
}

/// Returns whether a text takes at most so many columns.
pub fn fits(text: &str, columns: usize) -> bool {
    let mut room = columns;
    for c in text.chars() {
        match shown(c) {
            Some((_, columns)) if columns <= room => room -= columns,
            _ => return false,
        }
    }
    true
}

// Appends as many characters of a text as take `room` columns. Returns what they take.
#[tactic(auto, using(crate::proofs::ScreenLemmas::pushes_nothing, crate::proofs::ScreenLemmas::pushes_step, crate::proofs::ScreenLemmas::pushes_end))]
fn push_front(out: &mut String, text: &str, room: usize) -> Result<usize, AllocError>
    ensures { IfOk result (λ taken.
        PushesLine room taken (string_bytes out.old) (string_bytes out.new)) }
{
    let mut left = room;
    for c in text.chars() {
        let taken = push_char(out, c, left)?;
        if taken == 0 {
            return Ok(room - left);
        }
        left -= taken;
    }
    Ok(room - left)
}

/// Appends a text, with what stands for characters that take no columns, such as `␊` for a line
/// feed. Only as much is appended as takes `columns` columns; `…` stands for the rest. Returns what
/// is taken.
#[tactic(auto, using(crate::proofs::ScreenLemmas::pushes_cut))]
pub fn push_fitting(out: &mut String, text: &str, columns: usize) -> Result<usize, AllocError>
    ensures { IfOk result (λ taken.
        PushesLine columns taken (string_bytes out.old) (string_bytes out.new)) }
{
    if fits(text, columns) {
        return push_front(out, text, columns);
    }
    let taken = push_front(out, text, columns.saturating_sub(1))?;
    let cut = push_char(out, CUT, columns - taken)?;
    Ok(taken + cut)
}

/// Appends a text as [`push_fitting`] does, in full.
pub fn push_visible(out: &mut String, text: &str) -> Result<(), AllocError> {
    push_fitting(out, text, usize::MAX)?;
    Ok(())
}

/// Appends a text as [`push_fitting`] does, and spaces up to `columns` columns.
pub fn push_cell(out: &mut String, text: &str, columns: usize) -> Result<(), AllocError> {
    let taken = push_fitting(out, text, columns)?;
    for _ in taken..columns {
        out.push(' ')?;
    }
    Ok(())
}

/// How a line is told apart from others, where colours are allowed.
#[derive(Clone, Copy)]
pub enum Tone {
    /// As text is.
    Plain,
    /// Bold: a heading.
    Heading,
    /// Green: accepted.
    Good,
    /// Red: refused.
    Bad,
}

// What ends a tone.
const RESET: &str = "\u{1b}[0m";

impl Tone {
    ghost use Rattle.std.specs.Prelude.{◌≡◌};
    ghost use Rattle.sentry_show.specs.Screen.{tone_text};

    // The sequence that begins the tone.
    fn as_str(self) -> &'static str
        ensures { result.now ≡ tone_text self }
    {
        match self {
            Tone::Plain => "",
            Tone::Heading => "\u{1b}[1m",
            Tone::Good => "\u{1b}[32m",
            Tone::Bad => "\u{1b}[31m",
        }
    }
}

// Returns a line as it is printed.
#[tactic(auto, using(crate::proofs::ScreenLemmas::printed_plain, crate::proofs::ScreenLemmas::printed_in_tone))]
fn printed(
    alloc: Global,
    colors: bool,
    columns: usize,
    tone: Tone,
    text: &str,
) -> Result<String, AllocError>
    ensures { IfOk result (λ line. IsPrinted colors columns (string_bytes line)) }
{
    let mut line = String::new(alloc);
    if !colors || tone.as_str().is_empty() {
        push_fitting(&mut line, text, columns)?;
        return Ok(line);
    }
    line.push_str(tone.as_str())?;
    push_fitting(&mut line, text, columns)?;
    line.push_str(RESET)?;
    Ok(line)
}

// Appends a line as it is printed, and its line feed.
#[tactic(auto, using(crate::proofs::ScreenLemmas::page_and_line))]
fn push_printed(
    out: &mut String,
    colors: bool,
    columns: usize,
    line: &Line,
) -> Result<(), AllocError>
    requires { IsPage colors columns (string_bytes out.old) }
    ensures { OnOk result (IsPage colors columns (string_bytes out.new)) }
{
    let alloc = *out.allocator();
    let mut text = printed(alloc, colors, columns, line.tone, &line.text)?;
    text.push('\n')?;
    out.push_str(&text)?;
    Ok(())
}

/// A line for a terminal.
#[derive(Drop)]
pub struct Line {
    /// How it is told apart.
    pub tone: Tone,
    /// Its text, of any characters.
    pub text: String,
}

/// Lines for a terminal.
#[derive(Drop)]
pub struct Page {
    lines: Vec<Line>,
}

impl Page {
    ghost use Rattle.std.specs.Prelude.{IfOk};
    ghost use Rattle.sentry_show.specs.Screen.{IsPage};

    /// Creates a page without lines.
    pub fn new(alloc: Global) -> Page {
        Page {
            lines: Vec::new(alloc),
        }
    }

    /// Appends a line. `AllocError` if an allocation fails.
    pub fn line(&mut self, tone: Tone, text: &str) -> Result<(), AllocError> {
        let alloc = *self.lines.allocator();
        let text = String::from_str(alloc, text)?;
        self.lines.push(Line { tone, text })?;
        Ok(())
    }

    /// Returns the text of the page. A line is cut where it takes more than `columns` columns, and
    /// `…` stands for the rest; what stands for control characters are pictures, such as `␊`. With
    /// `colors` each line stands between the sequences of its tone.
    ///
    /// # Errors
    ///
    /// `AllocError` if an allocation fails.
    #[tactic(auto, using(crate::proofs::ScreenLemmas::page_without_lines))]
    pub fn render(&self, alloc: Global, colors: bool, columns: usize) -> Result<Vec<u8>, AllocError>
        ensures { IfOk result (λ text. IsPage colors columns text.items) }
    {
        let mut text = String::new(alloc);
        for line in &self.lines {
            push_printed(&mut text, colors, columns, line)?;
        }
        Ok(text.into_bytes())
    }
}
