//! Reading of JSON lines that fills absent timestamps and ids.

ghost use Rattle.std.specs.Prelude.{◌≡◌, IfErr, IfOk, IfSome, None, Ok, Some, codes};
ghost use Rattle.sentry_tables.specs.Cell.{octets};
ghost use Rattle.sentry_tables.specs.Passed.{PassesTextAt};
ghost use Rattle.sentry_tables.specs.Reading.{Only, ReadsTextAt, ShownAt, RefusedAt, TextRefusedAt, TextShownAt};
ghost use Rattle.sentry_moments.specs.Moments.{moment_cell};
ghost use Rattle.sentry_envelope.specs.NormalText.{IsValuePassed, PassesValue};
ghost use Rattle.sentry_envelope.specs.SentryProfile.{held_at, event_says_id, SaysId, transaction_says_id};

use bumpalo::Bump;
use rand_core::Rng;
use sentry_event::{EXTRA, Event, ReadApart, Transaction};
use sentry_identifiers::Simple;
use sentry_json::{Node, Parsed, Writer};
use sentry_moments::Moment;
use sentry_rows::FromTreeAt;
use sentry_tables::{LineReader, ReadCodec, ReadsNode, TreeError, read_tree};
use std::alloc::{AllocError, Global};
use uuid::Uuid;

// Reads a node with the current time and a generator of ids.
#[derive(Drop)]
struct AtMoment<'r, R> {
    now: Moment,
    ids: &'r mut R,
}

impl<'r, T: FromTreeAt, R: Rng> ReadsNode<T> for AtMoment<'r, R> {
    ghost shown = { λ reader d value. ShownAt (moment_cell reader.now) T.kind d (T.cell_of value) };

    ghost refused = { λ reader d. RefusedAt (moment_cell reader.now) T.kind d };

    fn read<N: Node>(self, alloc: Global, node: &N) -> Result<T, TreeError> {
        T::from_node(alloc, node, self.now, self.ids)
    }
}

// Reads a value from a line with the caller's reader; `now` fills absent timestamps, `ids` absent
// ids.
//
// # Errors
//
// - `Misfit` if the line isn't one JSON text without floats that reads as the type.
// - `Memory` if an allocation fails.
#[tactic(auto, using(sentry_tables::proofs::Texts::text_read_by_at))]
pub(crate) fn read_at<'a, T: FromTreeAt, R: Rng>(
    lines: &mut LineReader<'a>,
    line: &'a [u8],
    now: Moment,
    ids: &mut R,
) -> Result<T, TreeError>
    ensures { ReadsTextAt (moment_cell now) T.kind T.cell_of line.now result }
{
    lines.read_by(line, AtMoment { now, ids })
}

// Reads a value from a long line, its additional data apart from its other members.
//
// `None` if the line isn't long or can't be read so: `read_at` decides then. `AllocError` if an
// allocation fails.
fn read_long_at<'a, T: ReadApart, R: Rng>(
    lines: &mut LineReader<'a>,
    line: &'a [u8],
    now: Moment,
    ids: &mut R,
) -> Result<Option<T>, AllocError>
    ensures { IfOk result (λ read. IfSome read (λ value.
        TextShownAt (moment_cell now) T.kind line.now (T.cell_of value))) }
{
    let reader = AtMoment { now, ids };
    let read: Option<(T, _)> = lines.read_apart(line, T::keys(), EXTRA, reader)?;
    let Some((value, extra)) = read else {
        return Ok(None);
    };
    Ok(Some(value.with_extra(extra)))
}

// As `read_at`. Of a long line, neither additional data nor members that the type doesn't know
// leave tokens.
//
// # Errors
//
// As of `read_at`.
pub(crate) fn read_apart_at<'a, T: ReadApart, R: Rng>(
    lines: &mut LineReader<'a>,
    line: &'a [u8],
    now: Moment,
    ids: &mut R,
) -> Result<T, TreeError>
    ensures { ReadsTextAt (moment_cell now) T.kind T.cell_of line.now result }
{
    match read_long_at(lines, line, now, ids)? {
        Some(value) => Ok(value),
        None => read_at(lines, line, now, ids),
    }
}

// Writes the value that a line shows as JSON text; `now` fills absent timestamps, `ids` absent ids.
// What can be is written as it is read, and no value made of it.
//
// # Errors
//
// As of `read_at`; part of the text may have been written.
#[tactic(auto, using(sentry_tables::proofs::Passing::line_passed_at))]
pub(crate) fn pass_at<'a, T: FromTreeAt, R: Rng>(
    lines: &mut LineReader<'a>,
    line: &'a [u8],
    now: Moment,
    ids: &mut R,
    out: &mut Writer,
) -> Result<(), TreeError>
    ensures { PassesTextAt (moment_cell now) T.kind line.now result out.old out.new }
{
    let alloc = lines.alloc();
    match lines.parse(line)? {
        Parsed::Root(root) => T::pass(alloc, &root, now, ids, out),
        Parsed::Float => Err(TreeError::Misfit),
        Parsed::Other => pass_as_tree_at::<T, R>(alloc, line, now, ids, out),
    }
}

// The same of any line, which is read as a tree. Not inlined: few lines come here.
#[cold]
#[inline(never)]
#[tactic(auto, using(sentry_tables::proofs::Passing::line_passed_at, sentry_tables::proofs::Passing::line_unread_at))]
fn pass_as_tree_at<T: FromTreeAt, R: Rng>(
    alloc: Global,
    line: &[u8],
    now: Moment,
    ids: &mut R,
    out: &mut Writer,
) -> Result<(), TreeError>
    ensures { PassesTextAt (moment_cell now) T.kind line.now result out.old out.new }
{
    let tree = read_tree(alloc, line)?;
    T::pass(alloc, &&tree, now, ids, out)
}

// A type of values that give their envelope an event id.
pub(crate) trait Main: ReadApart {
    // Returns the id of the event or transaction.
    fn id(&self) -> Uuid
        ensures { octets result ≡
            held_at (codes "event_id") Self.kind (Self.cell_of self.now) };

    // the first row at the key `event_id` draws ids that are absent
    ghost says_id: { SaysId (codes "event_id") Self.Member.kind };
}

impl<'e> Main for Box<Event<'e>> {
    ghost says_id = { event_says_id };

    #[tactic(auto, unfolding(sentry_event::specs::Events::event_fields))]
    fn id(&self) -> Uuid {
        self.as_ref().event_id
    }
}

impl<'e> Main for Box<Transaction<'e>> {
    ghost says_id = { transaction_says_id };

    #[tactic(auto, unfolding(sentry_event::specs::Transactions::transaction_fields))]
    fn id(&self) -> Uuid {
        self.as_ref().event_id
    }
}

// As `pass_at`, and fills an absent id with that of the value.
#[tactic(auto, using(crate::proofs::Rewriting::passes_main, crate::proofs::Rewriting::none_passed))]
pub(crate) fn pass_main<'a, T: Main, R: Rng>(
    lines: &mut LineReader<'a>,
    line: &'a [u8],
    now: Moment,
    ids: &mut R,
    id: &mut Option<Uuid>,
    out: &mut Writer,
) -> Result<(), TreeError>
    ensures { PassesValue (held_at (codes "event_id") T.kind) (moment_cell now) T.kind line.now
        result id.old id.new out.old out.new }
{
    if id.is_some() {
        return pass_at::<T, R>(lines, line, now, ids, out);
    }
    if let Some(given) = pass_given::<T, R>(lines, line, now, ids, out)? {
        *id = Some(given);
        return Ok(());
    }
    let value: T = read_apart_at(lines, line, now, ids)?;
    value.write(out)?;
    *id = Some(value.id());
    Ok(())
}

// Writes the event or transaction of a line that says its id, and returns the id; `None` if
// nothing was written, since a value has to be made of the line.
#[tactic(auto, using(crate::proofs::GivenIds::given_passed, crate::proofs::GivenIds::refused_line))]
fn pass_given<'a, T: Main, R: Rng>(
    lines: &mut LineReader<'a>,
    line: &'a [u8],
    now: Moment,
    ids: &mut R,
    out: &mut Writer,
) -> Result<Option<Uuid>, TreeError>
    ensures passed { IfOk result (λ given. IfSome given (λ id.
        IsValuePassed (held_at (codes "event_id") T.kind) (moment_cell now) T.kind line.now
        None (Some id) out.old out.new)) }
    ensures none { result ≡ Ok None → out.new ≡ out.old }
    ensures refused { IfErr result (λ e. Only e (TextRefusedAt (moment_cell now) T.kind line.now)) }
{
    let alloc = lines.alloc();
    let Parsed::Root(root) = lines.parse(line)? else {
        return Ok(None);
    };
    let Some(member) = root.get("event_id") else {
        return Ok(None);
    };
    let read: Result<Uuid, TreeError> = Simple::from_node(alloc, &member);
    let Ok(id) = read else {
        return Ok(None);
    };
    T::pass(alloc, &root, now, ids, out)?;
    Ok(Some(id))
}

/// Reads a value from a JSON line; `now` fills absent timestamps, `ids` absent ids.
///
/// # Errors
///
/// - `Misfit` if the line isn't one JSON text without floats that reads as the type.
/// - `Memory` if an allocation fails.
#[inline(never)]
pub fn read_line_at<T: FromTreeAt, R: Rng>(
    alloc: Global,
    line: &[u8],
    now: Moment,
    ids: &mut R,
) -> Result<T, TreeError>
    ensures { ReadsTextAt (moment_cell now) T.kind T.cell_of line.now result }
{
    let texts = Bump::new(alloc);
    read_at(&mut LineReader::new(alloc, &texts), line, now, ids)
}
