//! Template information: locations of errors in templates.
#![tactic(auto, unfolding(crate::specs::Frames::template_fields))]

ghost use Rattle.sentry_frames.specs.Frames.{template_fields, template_in_order};

use sentry_rows::{AsTable, Copier, CopyTable, ReadTable, Sink, Source, Table};
use sentry_tables::{Formed, Member};
use std::alloc::{AllocError, Global};

/// The location of an error in a template.
///
/// <https://develop.sentry.dev/sdk/data-model/event-payloads/template/>
#[derive(Debug, Drop, PartialEq)]
pub struct TemplateInfo {
    /// Name of the template file.
    pub filename: Option<String>,
    /// Absolute path of the template file.
    pub abs_path: Option<String>,
    /// Line number in the template file.
    pub lineno: Option<u64>,
    /// Column number in the template line.
    pub colno: Option<u64>,
    /// Template lines before the line `lineno`.
    pub pre_context: Vec<String>,
    /// Template line at `lineno`.
    pub context_line: Option<String>,
    /// Template lines after the line `lineno`.
    pub post_context: Vec<String>,
}

impl TemplateInfo {
    ghost use Rattle.std.specs.Prelude.{◌≡◌, IfOk};
    ghost use Rattle.sentry_tables.specs.Defaults.{IsDefault};
    ghost use Rattle.sentry_frames.specs.Frames.{template_cell};

    /// Creates template information with no fields set.
    #[tactic(auto, unfolding(crate::specs::Frames::template_fields))]
    pub fn default_in(alloc: Global) -> TemplateInfo
        ensures { IsDefault template_fields result }
    {
        TemplateInfo {
            filename: None,
            abs_path: None,
            lineno: None,
            colno: None,
            pre_context: Vec::new(alloc),
            context_line: None,
            post_context: Vec::new(alloc),
        }
    }

    /// Clones the template information. `AllocError` if an allocation fails.
    pub fn clone(&self) -> Result<TemplateInfo, AllocError>
        ensures { IfOk result (λ copy. template_cell copy ≡ template_cell self.now) }
    {
        self.copy()
    }
}

impl Formed for TemplateInfo {
    type Form = AsTable;
}

impl Table for TemplateInfo {
    ghost lines = { template_fields };

    fn rows<S: Sink>(&self, to: &mut S) {
        to.optional("abs_path", &self.abs_path);
        to.optional("colno", &self.colno);
        to.optional("context_line", &self.context_line);
        to.optional("filename", &self.filename);
        to.optional("lineno", &self.lineno);
        to.list("post_context", &self.post_context);
        to.list("pre_context", &self.pre_context);
    }

    ghost ordered = { template_in_order };
}

impl ReadTable for TemplateInfo {
    fn read<S: Source>(from: &mut S) -> TemplateInfo {
        TemplateInfo {
            abs_path: from.optional("abs_path"),
            colno: from.optional("colno"),
            context_line: from.optional("context_line"),
            filename: from.optional("filename"),
            lineno: from.optional("lineno"),
            post_context: from.list("post_context"),
            pre_context: from.list("pre_context"),
        }
    }
}

impl CopyTable for TemplateInfo {
    fn copy_rows(&self, copies: &mut Copier) -> Result<TemplateInfo, AllocError> {
        Ok(TemplateInfo {
            abs_path: copies.optional(&self.abs_path),
            colno: copies.optional(&self.colno),
            context_line: copies.optional(&self.context_line),
            filename: copies.optional(&self.filename),
            lineno: copies.optional(&self.lineno),
            post_context: copies.list(&self.post_context),
            pre_context: copies.list(&self.pre_context),
        })
    }
}
