//! A relay that drops frames by what they hold, and records what is lost.

ghost use Rattle.std.specs.Prelude.{◌≡◌, IfOk, OnErr};
ghost use Rattle.sentry_ledger.specs.RecordedFrames.{RecordsFrames};

use crate::wanted::wanted;
use rand_pcg::Pcg32;
use sentry_types::protocol::v7::client_report::{
    Category, ForwardFailed, Ledger, Reason, forward_recorded,
};
use sentry_types::protocol::v7::{
    AnyFrame, EnvelopeItem, ForwardRules, Forwarded, ItemKind, Moment, read_item,
};
use std::alloc::Global;
use std::test::Fail;

/// What a relay doesn't forward.
#[derive(Clone, Copy)]
struct Rules<'r> {
    /// The release whose events are dropped.
    release: &'r str,
    /// The size of the largest attachment that is forwarded, in bytes.
    largest: usize,
}

impl Rules<'_> {
    /// Whether an item is an event of the release.
    fn refuse(&self, item: EnvelopeItem) -> bool {
        let refused = match &item {
            EnvelopeItem::Event(event) => {
                matches!(&event.release, Some(name) if name.as_str() == self.release)
            }
            _ => false,
        };
        drop(item);
        refused
    }

    /// Whether to forward a frame. An event that can't be read is forwarded, and so is an item of
    /// any other type.
    fn admit(&self, alloc: Global, frame: &AnyFrame<'_>, now: Moment, ids: &mut Pcg32) -> bool {
        match frame.kind() {
            Some(ItemKind::Event) => {
                match read_item(alloc, frame.header, frame.payload, now, ids) {
                    Ok(item) => !self.refuse(item),
                    Err(_) => true,
                }
            }
            Some(ItemKind::Attachment) => frame.payload.len() <= self.largest,
            _ => true,
        }
    }
}

/// Forwards an envelope by rules, and records the losses of what is dropped. Returns what is
/// forwarded, and how many losses are refused.
fn relay<'a>(
    alloc: Global,
    rules: &Rules<'_>,
    bytes: &'a [u8],
    now: Moment,
    ids: &mut Pcg32,
    ledger: &mut Ledger,
) -> Result<(Forwarded<'a>, u64), ForwardFailed<'a>>
    ensures recorded { IfOk result (λ done. RecordsFrames
        ledger.old ledger.new Reason.EventProcessor done.0.dropped.items done.1) }
    ensures unchanged { OnErr result (ledger.new ≡ ledger.old) }
{
    let mut keeps = |frame: &AnyFrame<'_>| rules.admit(alloc, frame, now, ids);
    let all = ForwardRules::new();
    forward_recorded(
        alloc,
        bytes,
        all,
        &mut keeps,
        Reason::EventProcessor,
        ledger,
    )
}

/// Two events of releases, one that can't be read, two attachments, and types without a reader.
const MIXED: &str = concat!(
    "{\"sent_at\":1.5}\n",
    "{\"type\":\"event\"}\n{\"release\":\"shop@1\",\"timestamp\":1}\n",
    "{\"type\":\"event\"}\n{\"release\":\"shop@2\",\"timestamp\":1}\n",
    "{\"type\":\"event\"}\n{\"release\":\"shop@1\",\"timestamp\":1.5,\"level\":\"?\"}\n",
    "{\"type\":\"attachment\",\"length\":4}\nab\nc\n",
    "{\"type\":\"attachment\",\"length\":5}\nab\ncd\n",
    "{\"type\":\"profile\",\"x\":0.5}\n{\"version\":\"1\"}\n",
    " {\"type\":\"span\"}\n{}"
);

/// What is forwarded of them by the rules of the test.
const FORWARDED: &str = concat!(
    "{\"sent_at\":1.5}\n",
    "{\"type\":\"event\"}\n{\"release\":\"shop@2\",\"timestamp\":1}\n",
    "{\"type\":\"event\"}\n{\"release\":\"shop@1\",\"timestamp\":1.5,\"level\":\"?\"}\n",
    "{\"type\":\"attachment\",\"length\":4}\nab\nc\n",
    "{\"type\":\"profile\",\"x\":0.5}\n{\"version\":\"1\"}\n",
    " {\"type\":\"span\"}\n{}"
);

/// Whether the rules leave this text of that, and this is lost.
fn leaves(alloc: Global, text: &str, left: &str, errors: u64, attached: u64) -> bool {
    let rules = Rules {
        release: "shop@1",
        largest: 4,
    };
    let now = Moment::new(0, 0).unwrap();
    let mut ledger = Ledger::new();
    let Ok((forwarded, 0)) = relay(
        alloc,
        &rules,
        text.as_bytes(),
        now,
        &mut Pcg32::new(42, 54),
        &mut ledger,
    ) else {
        return false;
    };
    let reason = Reason::EventProcessor;
    matches!(forwarded.to_vec(alloc), Ok(bytes) if bytes.as_slice() == left.as_bytes())
        && ledger.held(Category::Error, reason) == errors
        && ledger.held(Category::Attachment, reason) == attached
}

#[test]
fn frames_are_dropped_by_what_they_hold(rt: HostRuntime) -> Result<(), Fail> {
    let alloc = rt.alloc();
    wanted(leaves(alloc, MIXED, FORWARDED, 1, 5))?;
    wanted(leaves(alloc, FORWARDED, FORWARDED, 0, 0))
}
