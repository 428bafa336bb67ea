//! JSON of texts.
ghost use Rattle.std.specs.Prelude.{◌≡◌, ◌++◌, IfOk, OnOk, Some};
ghost use Rattle.json.specs.Print.{print, quoted};
ghost use Rattle.serde_json.specs.Data.{string};
ghost use Rattle.serde_json.specs.Read.{read};
ghost use Rattle.sentry_making.specs.Texts.{event_tokens, member_tokens};

use sentry_json::Writer;
use std::alloc::{AllocError, Global};

/// A member of a JSON object: a key and a text.
#[derive(Clone, Copy)]
pub struct TextMember<'a> {
    /// The key.
    pub key: &'a str,
    /// The value.
    pub value: &'a str,
}

/// Writes a text as a JSON string: in quotes, with the shortest escapes.
///
/// # Errors
///
/// `AllocError` if an allocation fails.
#[tactic(auto, using(crate::proofs::JsonTexts::string_reads))]
pub fn json_text(alloc: Global, text: &str) -> Result<Vec<u8>, AllocError>
    ensures text { IfOk result (λ json. json.items ≡ quoted text.now) }
    ensures reads { IfOk result (λ json. read json.items ≡ Some (string text.now)) }
{
    let mut writer = Writer::new(Vec::new(alloc));
    writer.string(text)?;
    Ok(writer.into_inner())
}

// Writes the members of an object.
fn write_members(writer: &mut Writer, members: &[TextMember<'_>]) -> Result<(), AllocError>
    ensures tokens { OnOk result
        (writer.new.tokens ≡ writer.old.tokens ++ member_tokens members.now) }
    ensures before { OnOk result (writer.new.before ≡ writer.old.before) }
{
    for member in members {
        writer.key(member.key)?;
        writer.string(member.value)?;
    }
    Ok(())
}

/// Makes the payload of an event: a JSON object of members, and of tags as the object `tags`.
///
/// # Errors
///
/// `AllocError` if an allocation fails.
pub fn event_payload(
    alloc: Global,
    members: &[TextMember<'_>],
    tags: &[TextMember<'_>],
) -> Result<Vec<u8>, AllocError>
    ensures { IfOk result (λ json. json.items ≡ print (event_tokens members.now tags.now)) }
{
    let mut writer = Writer::new(Vec::new(alloc));
    writer.begin_object()?;
    write_members(&mut writer, members)?;
    writer.key("tags")?;
    writer.begin_object()?;
    write_members(&mut writer, tags)?;
    writer.end_object()?;
    writer.end_object()?;
    Ok(writer.into_inner())
}
