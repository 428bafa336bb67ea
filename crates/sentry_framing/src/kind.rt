//! Item types.

/// The type of an item: `type` in its item header.
///
/// <https://develop.sentry.dev/sdk/data-model/envelope-items/>
#[derive(Clone, Copy, Debug, PartialEq, Eq)]
pub enum ItemKind {
    /// `event`: an event, such as an error.
    Event,
    /// `session`: a session update.
    SessionUpdate,
    /// `sessions`: session aggregates, which count sessions in groups.
    SessionAggregates,
    /// `transaction`: a transaction, with its spans.
    Transaction,
    /// `attachment`: a file sent along with an event.
    Attachment,
    /// `check_in`: a check-in of a monitor.
    MonitorCheckIn,
    /// `user_report`: feedback of a user on an event.
    UserReport,
    /// `replay_recording`: a part of a recorded session.
    ReplayRecording,
    /// `log`: a container of logs.
    Logs,
    /// `trace_metric`: a container of metrics.
    Metrics,
    /// `client_report`: counts of what a client didn't send.
    ClientReport,
}

impl ItemKind {
    ghost use Rattle.std.specs.Prelude.{◌≡◌, option_map};
    ghost use Rattle.sentry_framing.specs.ItemHeader.{place_of};
    ghost use Rattle.sentry_framing.specs.ItemWords.{item_words, kind_of_word, kind_place, kind_word};

    /// All item types.
    pub const ALL: &'static [ItemKind] = &[
        ItemKind::Event,
        ItemKind::SessionUpdate,
        ItemKind::SessionAggregates,
        ItemKind::Transaction,
        ItemKind::Attachment,
        ItemKind::MonitorCheckIn,
        ItemKind::UserReport,
        ItemKind::ReplayRecording,
        ItemKind::Logs,
        ItemKind::Metrics,
        ItemKind::ClientReport,
    ];

    /// Returns the word for the type in item headers.
    pub fn as_str(&self) -> &'static str
        ensures { result.now ≡ kind_word self.now }
    {
        match self {
            ItemKind::Event => "event",
            ItemKind::SessionUpdate => "session",
            ItemKind::SessionAggregates => "sessions",
            ItemKind::Transaction => "transaction",
            ItemKind::Attachment => "attachment",
            ItemKind::MonitorCheckIn => "check_in",
            ItemKind::UserReport => "user_report",
            ItemKind::ReplayRecording => "replay_recording",
            ItemKind::Logs => "log",
            ItemKind::Metrics => "trace_metric",
            ItemKind::ClientReport => "client_report",
        }
    }

    /// Returns the item type that a word names; `None` for an unknown word.
    pub fn from_word(word: &str) -> Option<ItemKind>
        ensures kind { result ≡ kind_of_word word.now }
        ensures place { option_map kind_place result ≡ place_of word.now item_words }
    {
        match word {
            "event" => Some(ItemKind::Event),
            "session" => Some(ItemKind::SessionUpdate),
            "sessions" => Some(ItemKind::SessionAggregates),
            "transaction" => Some(ItemKind::Transaction),
            "attachment" => Some(ItemKind::Attachment),
            "check_in" => Some(ItemKind::MonitorCheckIn),
            "user_report" => Some(ItemKind::UserReport),
            "replay_recording" => Some(ItemKind::ReplayRecording),
            "log" => Some(ItemKind::Logs),
            "trace_metric" => Some(ItemKind::Metrics),
            "client_report" => Some(ItemKind::ClientReport),
            _ => None,
        }
    }
}
