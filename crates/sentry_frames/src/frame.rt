//! Stack frames.
#![tactic(auto, unfolding(crate::specs::Frames::frame_fields))]

ghost use Rattle.sentry_frames.specs.Frames.{frame_fields, frame_in_order};

use sentry_rows::{AsTable, Copier, CopyTable, ReadTable, Sink, Source, Table};
use sentry_tables::{Formed, Member};
use sentry_text::Addr;
use serde_json::{Map, Value};
use std::alloc::{AllocError, Global};

/// A stack frame: one call of a stack trace.
///
/// <https://develop.sentry.dev/sdk/data-model/event-payloads/stacktrace/>
#[derive(Debug, Drop, PartialEq)]
pub struct Frame {
    /// Function name, with the class name if the language includes one.
    pub function: Option<String>,
    /// Symbol name in the executable, which may be mangled.
    pub symbol: Option<String>,
    /// Module name, with the class name if the language counts classes as modules.
    pub module: Option<String>,
    /// Package that contains the module: a library, a JAR or an assembly.
    pub package: Option<String>,
    /// Name of the source file.
    pub filename: Option<String>,
    /// Absolute path of the source file.
    pub abs_path: Option<String>,
    /// Line number in the source file.
    pub lineno: Option<u64>,
    /// Column number in the source line.
    pub colno: Option<u64>,
    /// Source lines before the line `lineno`.
    pub pre_context: Vec<String>,
    /// Source line at `lineno`.
    pub context_line: Option<String>,
    /// Source lines after the line `lineno`.
    pub post_context: Vec<String>,
    /// Whether the function belongs to the application and not to a library.
    pub in_app: Option<bool>,
    /// Local variables, by name.
    pub vars: Map<String, Value>,
    /// Start address of the image that contains the function.
    pub image_addr: Option<Addr>,
    /// Address of the instruction.
    pub instruction_addr: Option<Addr>,
    /// Start address of the symbol.
    pub symbol_addr: Option<Addr>,
    /// Addressing mode, the base of the addresses: `abs`, `rel:DEBUG_ID` or `rel:IMAGE_INDEX`;
    /// an absent mode means `abs`.
    pub addr_mode: Option<String>,
}

impl Frame {
    ghost use Rattle.std.specs.Prelude.{◌≡◌, IfOk};
    ghost use Rattle.sentry_tables.specs.Defaults.{IsDefault};
    ghost use Rattle.sentry_frames.specs.Frames.{frame_cell};

    /// Creates a frame with no fields set.
    #[tactic(auto, unfolding(crate::specs::Frames::frame_fields))]
    pub fn default_in(alloc: Global) -> Frame
        ensures { IsDefault frame_fields result }
    {
        Frame {
            function: None,
            symbol: None,
            module: None,
            package: None,
            filename: None,
            abs_path: None,
            lineno: None,
            colno: None,
            pre_context: Vec::new(alloc),
            context_line: None,
            post_context: Vec::new(alloc),
            in_app: None,
            vars: Map::new(alloc),
            image_addr: None,
            instruction_addr: None,
            symbol_addr: None,
            addr_mode: None,
        }
    }

    /// Clones the frame. `AllocError` if an allocation fails.
    pub fn clone(&self) -> Result<Frame, AllocError>
        ensures { IfOk result (λ copy. frame_cell copy ≡ frame_cell self.now) }
    {
        self.copy()
    }
}

impl Formed for Frame {
    type Form = AsTable;
}

impl Table for Frame {
    ghost lines = { frame_fields };

    fn rows<S: Sink>(&self, to: &mut S) {
        to.optional("abs_path", &self.abs_path);
        to.optional("addr_mode", &self.addr_mode);
        to.optional("colno", &self.colno);
        to.optional("context_line", &self.context_line);
        to.optional("filename", &self.filename);
        to.optional("function", &self.function);
        to.optional("image_addr", &self.image_addr);
        to.optional("in_app", &self.in_app);
        to.optional("instruction_addr", &self.instruction_addr);
        to.optional("lineno", &self.lineno);
        to.optional("module", &self.module);
        to.optional("package", &self.package);
        to.list("post_context", &self.post_context);
        to.list("pre_context", &self.pre_context);
        to.optional("symbol", &self.symbol);
        to.optional("symbol_addr", &self.symbol_addr);
        to.map("vars", &self.vars);
    }

    ghost ordered = { frame_in_order };
}

impl ReadTable for Frame {
    fn read<S: Source>(from: &mut S) -> Frame {
        Frame {
            abs_path: from.optional("abs_path"),
            addr_mode: from.optional("addr_mode"),
            colno: from.optional("colno"),
            context_line: from.optional("context_line"),
            filename: from.optional("filename"),
            function: from.optional("function"),
            image_addr: from.optional("image_addr"),
            in_app: from.optional("in_app"),
            instruction_addr: from.optional("instruction_addr"),
            lineno: from.optional("lineno"),
            module: from.optional("module"),
            package: from.optional("package"),
            post_context: from.list("post_context"),
            pre_context: from.list("pre_context"),
            symbol: from.optional("symbol"),
            symbol_addr: from.optional("symbol_addr"),
            vars: from.map("vars"),
        }
    }
}

impl CopyTable for Frame {
    fn copy_rows(&self, copies: &mut Copier) -> Result<Frame, AllocError> {
        Ok(Frame {
            abs_path: copies.optional(&self.abs_path),
            addr_mode: copies.optional(&self.addr_mode),
            colno: copies.optional(&self.colno),
            context_line: copies.optional(&self.context_line),
            filename: copies.optional(&self.filename),
            function: copies.optional(&self.function),
            image_addr: copies.optional(&self.image_addr),
            in_app: copies.optional(&self.in_app),
            instruction_addr: copies.optional(&self.instruction_addr),
            lineno: copies.optional(&self.lineno),
            module: copies.optional(&self.module),
            package: copies.optional(&self.package),
            post_context: copies.list(&self.post_context),
            pre_context: copies.list(&self.pre_context),
            symbol: copies.optional(&self.symbol),
            symbol_addr: copies.optional(&self.symbol_addr),
            vars: copies.map(&self.vars)?,
        })
    }
}
