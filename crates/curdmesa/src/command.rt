//! The commands and their help texts.

/// A command of the program.
#[derive(Clone, Copy, Debug, PartialEq, Eq)]
pub enum Command {
    /// `show`.
    Show,
    /// `check`.
    Check,
    /// `select`.
    Select,
    /// `mend`.
    Mend,
    /// `normalize`.
    Normalize,
    /// `cat`.
    Cat,
    /// `make`.
    Make,
}

/// The line that `--version` prints.
pub const VERSION: &str = "curdmesa 0.2.0\n";

/// The help text of the program.
pub const PROGRAM: &str = "\
usage: curdmesa COMMAND [OPTION].. [FILE]

Shows Sentry envelopes, checks them, and takes them apart.

  show       what is in an envelope, and whether it is accepted
  check      whether envelopes are accepted: a line a file, or a line a fault
  select     an envelope without some of its items, byte for byte
  mend       an envelope with the items that can be read, repaired if need be
  normalize  an envelope in its normal form
  cat        the payload of one item
  make       an envelope of an event and attachments

Without FILE, or if FILE is -, standard input is read. With --base64 the input
is base64. Compressed input has to be unpacked first: zcat FILE | curdmesa show

Exit status: 0 success; 1 check: refused, select: no item is left, mend
--strict: a change, cat: no such item; 2 the input is refused; 3 usage error;
4 a read, a write or an allocation failed.

curdmesa COMMAND --help, or -h, tells more of a command; curdmesa --version,
which version this is.

  $ curdmesa show error.envelope
";

const SHOW: &str = "\
usage: curdmesa show [--json] [--color WHEN] [--base64] [FILE]

Shows an envelope: whether it is accepted, and each fault if it is not; its
header; a table of its items; what its events and transactions tell; and what
would be lost if all items were dropped. Lines have at most 80 columns, and
control characters are escaped.

  --json        print one JSON document
  --color WHEN  always, never or auto: colors on a terminal, unless NO_COLOR is
                set
  --base64      the input is base64

Exit status: 0 if the envelope is accepted, 2 if it is refused.

  $ curdmesa show error.envelope
";

const CHECK: &str = "\
usage: curdmesa check [-q] [--base64] [FILE]..

Tells whether each file is an envelope that is accepted: every item has a known
type, and its payload reads as that type. Prints a line for a file that is
accepted, and for one that is refused a line for each fault.

  -q, --quiet   print nothing
  --base64      the input is base64

Exit status: 0 if all are accepted, 1 if one is refused.

  $ curdmesa check error.envelope crash.envelope
";

const SELECT: &str = "\
usage: curdmesa select [--keep TYPE].. [--drop TYPE].. [--max-bytes N]
                       [--base64] [FILE]

Writes an envelope without some of its items. What is left is byte for byte what
was read; payloads are not parsed, and items of any type pass.

  --keep TYPE    drop items of other types than those that are kept
  --drop TYPE    drop items of this type
  --max-bytes N  drop items whose payload is longer than N bytes
  --base64       the input is base64

The losses of the dropped items go to standard error, a line for each data
category and reason: category, reason or none, quantity.

Exit status: 0 if an envelope was written; 1 if no item is left, and nothing was
written; 2 if the input is no envelope.

  $ curdmesa select --drop attachment crash.envelope > small.envelope
";

const MEND: &str = "\
usage: curdmesa mend [--strict] [--all] [--header-id] [--base64] [FILE]

Writes the envelope of the items that can be read, in normal form. An item that
is refused is changed at as few places as let it read, or left out. Standard
error has a line for each change.

  --strict      write nothing if anything has to change
  --all         take out what does not fit; without it, only the form of values
                changes, and an item that needs more is left out
  --header-id   give events and transactions without an id the header's
  --base64      the input is base64

Exit status: 0 if an envelope was written, 1 if --strict forbids it, 2 if the
header line is refused.

  $ curdmesa mend old.envelope > new.envelope
";

const NORMALIZE: &str = "\
usage: curdmesa normalize [--base64] [FILE]

Writes an envelope in its normal form: the members that the protocol has, in the
order of their keys, and item headers that state the length of the payload. An
absent id is drawn, and an absent timestamp is now.

  --base64      the input is base64

Exit status: 0 if it was written, 2 if the envelope is refused.

  $ curdmesa normalize error.envelope > normal.envelope
";

const CAT: &str = "\
usage: curdmesa cat -n N [--base64] [FILE]

Writes the payload of item N, from 1, without the line feeds around it.

  -n N          number of the item
  --base64      the input is base64

Exit status: 0 if it was written, 1 if there is no such item, 2 if the input is
no envelope up to that item.

  $ curdmesa cat -n 2 crash.envelope > minidump.dmp
";

const MAKE: &str = "\
usage: curdmesa make [--event FILE].. [--attachment FILE].. [--base64]

Writes an envelope of the content of these files: first the events, then the
attachments under the names of their files. An event is written as it is;
curdmesa check tells whether it reads. The envelope header has the event_id of
the first event, if that states one.

  --event FILE       JSON of an event
  --attachment FILE  any content
  --base64           the files are base64

Exit status: 0 if it was written.

  $ curdmesa make --event event.json --attachment log.txt > new.envelope
";

impl Command {
    /// Parses the name of a command; `None` if there is no such command.
    pub fn of_word(word: &str) -> Option<Command> {
        match word {
            "show" => Some(Command::Show),
            "check" => Some(Command::Check),
            "select" => Some(Command::Select),
            "mend" => Some(Command::Mend),
            "normalize" => Some(Command::Normalize),
            "cat" => Some(Command::Cat),
            "make" => Some(Command::Make),
            _ => None,
        }
    }

    /// Returns the name.
    pub fn name(self) -> &'static str {
        match self {
            Command::Show => "show",
            Command::Check => "check",
            Command::Select => "select",
            Command::Mend => "mend",
            Command::Normalize => "normalize",
            Command::Cat => "cat",
            Command::Make => "make",
        }
    }

    /// Returns the help text.
    pub fn help(self) -> &'static str {
        match self {
            Command::Show => SHOW,
            Command::Check => CHECK,
            Command::Select => SELECT,
            Command::Mend => MEND,
            Command::Normalize => NORMALIZE,
            Command::Cat => CAT,
            Command::Make => MAKE,
        }
    }
}
