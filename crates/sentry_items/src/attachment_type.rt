//! Attachment types.

use sentry_tables::{AsText, Formed, Room, Spelled, TreeError, Way};
use std::alloc::{AllocError, Global};

/// The type of an attachment: `attachment_type` in its item header.
///
/// Sentry processes each known type in its own way:
/// <https://develop.sentry.dev/sdk/data-model/envelope-items/#attachment>.
///
/// Two types are equal if they are the same variant with the same text: a custom type whose text is
/// a known word isn't equal to the known type.
#[derive(Debug, Default, Drop, PartialEq, Eq)]
pub enum AttachmentType {
    /// A file without special meaning: `event.attachment`, the default.
    #[default]
    Attachment,
    /// A minidump, from which Sentry creates an event: `event.minidump`.
    Minidump,
    /// An Apple crash report, from which Sentry creates an event: `event.applecrashreport`.
    AppleCrashReport,
    /// The context file of an Unreal Engine crash: `unreal.context`.
    UnrealContext,
    /// The log file of an Unreal Engine crash: `unreal.logs`.
    UnrealLogs,
    /// Any other type, by its text.
    Custom(String),
}

impl AttachmentType {
    ghost use Rattle.std.specs.Prelude.{◌≡◌, IfOk};
    ghost use Rattle.sentry_items.specs.AttachmentWords.{attachment_type_of, attachment_type_text, IsAttachmentType};
    ghost use Rattle.sentry_items.specs.View.{attachment_type_cell};

    /// Returns the type's text in an item header.
    pub fn as_str(&self) -> &str
        ensures text { result.now ≡ attachment_type_text (attachment_type_cell self.now) }
        ensures stored { IsAttachmentType (attachment_type_cell self.now) }
    {
        match self {
            AttachmentType::Attachment => "event.attachment",
            AttachmentType::Minidump => "event.minidump",
            AttachmentType::AppleCrashReport => "event.applecrashreport",
            AttachmentType::UnrealContext => "unreal.context",
            AttachmentType::UnrealLogs => "unreal.logs",
            AttachmentType::Custom(text) => text.as_str(),
        }
    }

    /// Returns the type that a text names: a known type if the text is its word, a custom type
    /// otherwise.
    ///
    /// # Errors
    ///
    /// `AllocError` if the allocation of a custom text fails.
    pub fn from_text(alloc: Global, text: &str) -> Result<AttachmentType, AllocError>
        ensures { IfOk result (λ ty. attachment_type_cell ty ≡ attachment_type_of text.now) }
    {
        match text {
            "event.attachment" => Ok(AttachmentType::Attachment),
            "event.minidump" => Ok(AttachmentType::Minidump),
            "event.applecrashreport" => Ok(AttachmentType::AppleCrashReport),
            "unreal.context" => Ok(AttachmentType::UnrealContext),
            "unreal.logs" => Ok(AttachmentType::UnrealLogs),
            _ => Ok(AttachmentType::Custom(String::from_str(alloc, text)?)),
        }
    }

    /// Clones the type. `AllocError` if the allocation of a custom text fails.
    pub fn clone(&self) -> Result<AttachmentType, AllocError>
        ensures { IfOk result (λ ty. attachment_type_cell ty ≡ attachment_type_cell self.now) }
    {
        match self {
            AttachmentType::Attachment => Ok(AttachmentType::Attachment),
            AttachmentType::Minidump => Ok(AttachmentType::Minidump),
            AttachmentType::AppleCrashReport => Ok(AttachmentType::AppleCrashReport),
            AttachmentType::UnrealContext => Ok(AttachmentType::UnrealContext),
            AttachmentType::UnrealLogs => Ok(AttachmentType::UnrealLogs),
            AttachmentType::Custom(text) => Ok(AttachmentType::Custom(text.clone()?)),
        }
    }
}

impl Formed for AttachmentType {
    type Form = AsText;
}

impl Spelled for AttachmentType {
    ghost use Rattle.sentry_items.specs.AttachmentWords.{attachment_type_spelling};
    ghost use Rattle.sentry_items.specs.View.{attachment_type_cell};

    ghost spelling = { attachment_type_spelling };

    ghost cell_of = { attachment_type_cell };

    fn of_text(alloc: Global, text: &str) -> Result<AttachmentType, TreeError> {
        Ok(AttachmentType::from_text(alloc, text)?)
    }

    fn text<'a>(&'a self, _room: &'a mut Room) -> Result<&'a str, AllocError> {
        Ok(self.as_str())
    }

    #[tactic(auto, using(sentry_tables::proofs::Ways::made_same, sentry_tables::proofs::Ways::made_normal))]
    fn respell(&self, way: Way) -> Result<AttachmentType, AllocError> {
        match way {
            Way::Same => self.clone(),
            Way::Normal(_) => match self {
                AttachmentType::Custom(text) => {
                    AttachmentType::from_text(*text.allocator(), text.as_str())
                }
                known => known.clone(),
            },
        }
    }

    fn hold(&self) {
        let _text = self.as_str();
    }
}
