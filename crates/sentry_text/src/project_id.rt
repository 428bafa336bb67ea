//! Ids of projects and organizations.

ghost use Rattle.std.specs.Prelude.{◌≡◌, ◌↔◌, [], IfOk, IsErrOf, Some, decimal};
ghost use Rattle.sentry_text.specs.Number.{ReadsAs, number_of};
ghost use Rattle.sentry_text.specs.ProjectId.{project_text, organization_value};
ghost use Rattle.sentry_text.specs.ProjectTree.{project_cell, project_spelling, organization_cell, organization_kind, organization_spelling, organization_text_kind};
ghost use Rattle.sentry_text.specs.declared.project_id.ParseProjectIdError.TheVariants.{Memory};
ghost use Rattle.sentry_tables.specs.Spelling.{ReadsSpelling};

use crate::number::{ParseNumberError, parse_number};
use sentry_json::{Node, Writer};
use sentry_tables::spelled::print_into;
use sentry_tables::{
    AsText, Codec, Formed, FromTree, Member, ReadCodec, Room, Spelled, TreeError, Way,
};
use serde_json::Value;
use std::alloc::{AllocError, Global};
use std::fmt;
use std::str::FromStr;
use thiserror::Error;

/// Project id: any text, such as the end of a DSN's path.
///
/// <https://develop.sentry.dev/sdk/overview/#parsing-the-dsn>
#[derive(Debug, Drop, PartialEq, Eq, PartialOrd, Ord, Hash)]
pub struct ProjectId {
    text: String,
}

/// The error of [`ProjectId::from_str`].
#[derive(Debug, Drop, PartialEq, Eq, PartialOrd, Ord, Error)]
pub enum ParseProjectIdError {
    /// The text is empty.
    #[error("empty or missing project id")]
    EmptyValue,
    /// An allocation failed.
    #[error("out of memory")]
    Memory,
}

impl From<AllocError> for ParseProjectIdError {
    ghost from_gives = { λ _ e. e ≡ Memory };

    fn from(_error: AllocError) -> ParseProjectIdError {
        ParseProjectIdError::Memory
    }
}

impl ProjectId {
    /// Creates a project id from any text.
    ///
    /// # Errors
    ///
    /// `AllocError` if an allocation fails.
    pub fn new(alloc: Global, text: &str) -> Result<ProjectId, AllocError>
        ensures { IfOk result (λ id. project_text id ≡ text.now) }
    {
        Ok(ProjectId {
            text: String::from_str(alloc, text)?,
        })
    }

    /// Parses a project id: any text that is not empty.
    ///
    /// # Errors
    ///
    /// `EmptyValue` exactly if the text is empty; `Memory` if an allocation fails.
    pub fn from_str(alloc: Global, text: &str) -> Result<ProjectId, ParseProjectIdError>
        ensures ok { IfOk result (λ id. project_text id ≡ text.now) }
        ensures empty { IsErrOf result ParseProjectIdError.EmptyValue ↔ (text.now ≡ []) }
    {
        if text.is_empty() {
            return Err(ParseProjectIdError::EmptyValue);
        }
        Ok(ProjectId::new(alloc, text)?)
    }

    /// Returns the id as text.
    pub fn value(&self) -> &str
        ensures { result.now ≡ project_text self.now }
    {
        self.text.as_str()
    }

    /// Clones the id.
    ///
    /// # Errors
    ///
    /// `AllocError` if an allocation fails.
    pub fn clone(&self) -> Result<ProjectId, AllocError>
        ensures { IfOk result (λ id. project_text id ≡ project_text self.now) }
    {
        Ok(ProjectId {
            text: self.text.clone()?,
        })
    }
}

impl fmt::Display for ProjectId {
    ghost output = { λ id. Some (project_text id) };

    fn fmt<W: fmt::Write>(&self, f: &mut fmt::Formatter<W>) -> fmt::Result {
        f.write_str(self.value())
    }
}

/// In a JSON tree, the empty string is also a project id.
impl Formed for ProjectId {
    type Form = AsText;
}

impl Spelled for ProjectId {
    ghost spelling = { project_spelling };

    ghost cell_of = { project_cell };

    fn of_text(alloc: Global, text: &str) -> Result<ProjectId, TreeError> {
        Ok(ProjectId::new(alloc, text)?)
    }

    fn text<'a>(&'a self, _room: &'a mut Room) -> Result<&'a str, AllocError> {
        Ok(self.value())
    }

    #[tactic(auto, using(sentry_tables::proofs::Ways::unchanged))]
    fn respell(&self, _way: Way) -> Result<ProjectId, AllocError> {
        self.clone()
    }

    fn hold(&self) {
        let _text = self.value();
    }
}

/// Organization id: a number of at most 64 bits.
///
/// Parsed from decimal digits with an optional `+` before them. The id is the `org_id` of a trace:
/// <https://develop.sentry.dev/sdk/telemetry/traces/dynamic-sampling-context/>.
#[derive(Clone, Copy, Debug, PartialEq)]
pub struct OrganizationId(u64);

impl OrganizationId {
    /// Returns the id as a number.
    pub fn value(&self) -> u64
        ensures { result ≡ organization_value self.now }
    {
        self.0
    }
}

impl From<u64> for OrganizationId {
    ghost from_gives = { λ n id. organization_value id ≡ n };

    fn from(number: u64) -> OrganizationId {
        OrganizationId(number)
    }
}

impl FromStr for OrganizationId {
    type Err = ParseNumberError;

    ghost from_str_gives = { ReadsAs (number_of 10) organization_value };

    /// Parses a decimal number, with an optional `+` before the digits.
    ///
    /// # Errors
    ///
    /// `ParseNumberError` if the text is no such number or the number has more than 64 bits.
    fn from_str(text: &str) -> Result<OrganizationId, ParseNumberError> {
        Ok(OrganizationId(parse_number(text, 10)?))
    }
}

impl fmt::Display for OrganizationId {
    ghost output = { λ id. Some (decimal (organization_value id)) };

    fn fmt<W: fmt::Write>(&self, f: &mut fmt::Formatter<W>) -> fmt::Result {
        write!(f, "{}", self.value())
    }
}

/// An organization id is a number in a JSON tree.
impl Member for OrganizationId {
    ghost kind = { organization_kind };

    ghost cell_of = { organization_cell };

    fn to_tree(&self, alloc: Global) -> Result<Value, AllocError> {
        self.value().to_tree(alloc)
    }

    fn write(&self, out: &mut Writer) -> Result<(), AllocError> {
        self.value().write(out)
    }

    #[tactic(auto, using(sentry_tables::proofs::Ways::unchanged))]
    fn remake(&self, _way: Way) -> Result<OrganizationId, AllocError> {
        Ok(*self)
    }

    fn is_null_tree(&self) -> bool {
        false
    }

    fn is_plain(&self) -> bool {
        self.value().is_plain()
    }
}

impl FromTree for OrganizationId {
    fn from_node<N: Node>(alloc: Global, node: &N) -> Result<OrganizationId, TreeError> {
        Ok(OrganizationId(u64::from_node(alloc, node)?))
    }
}

/// The JSON form of an organization id as a string of decimal digits.
///
/// A `+` before the digits is accepted when the id is read, and never written.
pub struct OrganizationText;

impl OrganizationId {
    // The id that a text spells.
    fn of_text(text: &str) -> Result<OrganizationId, TreeError>
        ensures { ReadsSpelling organization_spelling organization_cell text.now result }
    {
        text.parse().map_err(|_| TreeError::Misfit)
    }

    // The text of the id, in `room`.
    #[tactic(auto, using(crate::proofs::Lengths::decimal_size))]
    fn text<'a>(&self, room: &'a mut Room) -> Result<&'a str, AllocError>
        ensures { IfOk result (λ s. s.now ≡ decimal (organization_value self.now)) }
    {
        let _number = self.0;
        print_into(self, room)
    }
}

impl Codec<OrganizationId> for OrganizationText {
    ghost kind = { organization_text_kind };

    ghost cell_of = { organization_cell };

    #[tactic(auto, using(sentry_tables::proofs::Spellings::text_tree))]
    fn to_tree(id: &OrganizationId, alloc: Global) -> Result<Value, AllocError> {
        let mut room = Room::new();
        Value::try_from_str(alloc, id.text(&mut room)?)
    }

    #[tactic(auto, using(sentry_tables::proofs::Spellings::spelling_wrote))]
    fn write(id: &OrganizationId, out: &mut Writer) -> Result<(), AllocError> {
        let mut room = Room::new();
        out.string(id.text(&mut room)?)
    }

    #[tactic(auto, using(sentry_tables::proofs::Ways::unchanged))]
    fn remake(id: &OrganizationId, _way: Way) -> Result<OrganizationId, AllocError> {
        Ok(*id)
    }

    fn is_null_tree(_id: &OrganizationId) -> bool {
        false
    }

    fn is_plain(id: &OrganizationId) -> bool {
        let _number = id.0;
        true
    }
}

impl ReadCodec<OrganizationId> for OrganizationText {
    #[tactic(auto, using(sentry_tables::proofs::Spellings::text_read, sentry_tables::proofs::Spellings::not_text))]
    fn from_node<N: Node>(_alloc: Global, node: &N) -> Result<OrganizationId, TreeError> {
        OrganizationId::of_text(node.as_str().ok_or(TreeError::Misfit)?)
    }
}
