//! A ledger of losses: a client that reports, and memory that is refused.

ghost use Rattle.std.specs.Prelude.{◌≡◌, IfErr, IfOk, IfSome, OnErr};
ghost use Rattle.sentry_reports.specs.ReportSums.{report_sum};
ghost use Rattle.sentry_reports.specs.declared.category.Category.{Category as Categories};
ghost use Rattle.sentry_reports.specs.declared.reason.Reason.{Reason as Reasons};
ghost use Rattle.sentry_ledger.specs.Held.{quantity_held};

use crate::envelopes::memory::read_at_last;
use crate::envelopes::read;
use crate::wanted::{told, wanted};
use sentry_types::IndexedEnum;
use sentry_types::protocol::v7::client_report::{
    Category, ItemLoss, Ledger, LedgerFull, Reason, Report, Step, StepAnswer, filter_recorded,
    run_steps,
};
use sentry_types::protocol::v7::{Envelope, EnvelopeItem, Moment, text_of};
use std::alloc::{AllocError, Global};
use std::test::Fail;

/// An event, and an attachment of twelve bytes.
const EVENT_AND_ATTACHMENT: &[u8] =
    b"{}\n{\"type\":\"event\"}\n{\"event_id\":\"22d00b3fd1b14b5d8d2049d138cd8a9c\",\"timestamp\":1}\n{\"type\":\"attachment\"}\ntwelve bytes";

fn errors(quantity: u64, reason: Option<Reason>) -> ItemLoss {
    ItemLoss {
        category: Category::Error,
        quantity,
        reason,
    }
}

/// How much is held of all pairs together, cut at 2^64-1.
fn all_held(ledger: &Ledger) -> u64 {
    let mut all: u64 = 0;
    for category in Category::VARIANTS {
        for reason in Reason::VARIANTS {
            all = all.saturating_add(ledger.held(*category, *reason));
        }
    }
    all
}

/// A ledger with one error for each reason, whose report takes memory several times.
fn nine_errors() -> Result<Ledger, LedgerFull> {
    let mut ledger = Ledger::new();
    for reason in Reason::VARIANTS {
        ledger.record(errors(1, Some(*reason)), Reason::SampleRate)?;
    }
    Ok(ledger)
}

/// The losses of a client, which reports them once a minute.
#[derive(Drop)]
struct Losses {
    ledger: Ledger,
    /// The second from which on a report is due.
    due: u64,
}

impl Losses {
    /// Takes attachments out of an envelope and records the losses. Returns what is left, and how
    /// many losses are refused.
    fn without_attachments(
        &mut self,
        alloc: Global,
        envelope: Envelope,
    ) -> Result<(Option<Envelope>, u64), Envelope>
        ensures { IfErr result (λ back. (back ≡ envelope) × (self.new ≡ self.old)) }
    {
        let keeps = |item: &EnvelopeItem| !matches!(item, EnvelopeItem::Attachment(_));
        filter_recorded(alloc, envelope, keeps, Reason::BeforeSend, &mut self.ledger)
    }

    /// Returns a report of all losses, if one is due.
    fn report(&mut self, alloc: Global, now: Moment) -> Result<Option<Report>, AllocError>
        ensures reported { IfOk result (λ given. IfSome given (λ report.
            (category : Categories) (reason : Reasons) →
            report_sum category reason report.items
            ≡ quantity_held self.old.ledger category reason)) }
        ensures refused { OnErr result (self.new ≡ self.old) }
    {
        if now.secs() < self.due {
            return Ok(None);
        }
        let report = self.ledger.flush(alloc, now)?;
        self.due = now.secs().saturating_add(60);
        Ok(report)
    }
}

/// The texts of the reports that are due at these seconds.
fn reported(alloc: Global, losses: &mut Losses, seconds: &[u64]) -> Result<Vec<u8>, Fail> {
    let mut texts = Vec::new(alloc);
    for secs in seconds {
        let now = Moment::new(*secs, 0).ok_or("moment")?;
        if let Some(report) = losses.report(alloc, now)? {
            texts.extend_from_slice(&text_of(alloc, &report)?)?;
        }
    }
    Ok(texts)
}

const REPORT: &str =
    "{\"discarded_events\":[{\"category\":\"attachment\",\"quantity\":12,\"reason\":\"before_send\"}],\"timestamp\":60}";

#[test]
fn a_client_reports_what_it_drops(rt: HostRuntime) -> Result<(), Fail> {
    let alloc = rt.alloc();
    let mut losses = Losses {
        ledger: Ledger::default(),
        due: 60,
    };
    let envelope = read(alloc, EVENT_AND_ATTACHMENT)?;
    let left = told(losses.without_attachments(alloc, envelope));
    let texts = reported(alloc, &mut losses, &[59, 60, 61, 120])?;
    let sent = texts.as_slice() == REPORT.as_bytes()
        && losses.ledger.is_empty()
        && losses.due == 180;
    wanted(left == Some((false, 0)) && sent)
}

// Where an allocation fails, the answer says so and all is held as before; the next call is
// answered.
// These tests pass with none refused, and with each request refused in turn (`rt try --test
// --fail-alloc N`).

/// How many items the report of a ledger has, at the second try after a refusal that changed
/// nothing.
fn flushed_at_last(alloc: Global, ledger: &mut Ledger, now: Moment) -> Result<usize, Fail> {
    let held = all_held(ledger);
    let report = match ledger.flush(alloc, now) {
        Ok(report) => report,
        Err(_) if all_held(ledger) == held => ledger.flush(alloc, now)?,
        Err(_) => return Err("lost".into()),
    };
    match report {
        Some(report) => Ok(report.discarded_events().len()),
        None => Ok(0),
    }
}

#[test]
fn refused_when_flushing(rt: HostRuntime) -> Result<(), Fail> {
    let mut ledger = nine_errors()?;
    let now = Moment::new(1, 0).ok_or("moment")?;
    let items = flushed_at_last(rt.alloc(), &mut ledger, now)?;
    wanted(items == 9 && ledger.is_empty())
}

/// How many losses are held after a flush and a loss, and whether the flush was answered by a
/// report.
fn run_at_last(alloc: Global, ledger: &mut Ledger, now: Moment) -> Result<(bool, u64), Fail> {
    let held = all_held(ledger);
    let steps = [
        Step::Flush(now),
        Step::Add(errors(1, None), Reason::SampleRate),
    ];
    let answers = match run_steps(alloc, ledger, &steps) {
        Ok(answers) => answers,
        Err(_) if all_held(ledger) == held => run_steps(alloc, ledger, &steps)?,
        Err(_) => return Err("lost".into()),
    };
    match answers.as_slice() {
        [StepAnswer::Flushed(_), StepAnswer::Accepted] => Ok((true, all_held(ledger))),
        [StepAnswer::NoMemory, StepAnswer::Accepted] => Ok((false, all_held(ledger))),
        _ => Err("other answers".into()),
    }
}

#[test]
fn refused_when_running_steps(rt: HostRuntime) -> Result<(), Fail> {
    let mut ledger = nine_errors()?;
    let now = Moment::new(1, 0).ok_or("moment")?;
    let (flushed, held) = run_at_last(rt.alloc(), &mut ledger, now)?;
    wanted(held == if flushed { 1 } else { 10 })
}

/// Keeps no item.
fn keeps_none(_item: &EnvelopeItem) -> bool {
    false
}

/// What is told of an envelope that a filter takes out, after a refusal that recorded nothing at
/// the second try.
fn recorded_at_last(alloc: Global, envelope: Envelope, ledger: &mut Ledger) -> Option<(bool, u64)> {
    match filter_recorded(alloc, envelope, keeps_none, Reason::SampleRate, ledger) {
        Err(envelope) => {
            if ledger.is_empty() {
                told(filter_recorded(alloc, envelope, keeps_none, Reason::SampleRate, ledger))
            } else {
                drop(envelope);
                None
            }
        }
        answer => told(answer),
    }
}

#[test]
fn refused_when_recording_a_filter(rt: HostRuntime) -> Result<(), Fail> {
    let mut ledger = Ledger::new();
    let envelope = read_at_last(rt.alloc(), EVENT_AND_ATTACHMENT)?;
    let told = recorded_at_last(rt.alloc(), envelope, &mut ledger);
    wanted(told == Some((true, 0)) && all_held(&ledger) == 13)
}
