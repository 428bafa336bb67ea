//! Lines of JSON: parsing onto a tape, access to trees on a tape or in a `serde_json` value, and
//! writing.
//!
//! `specs/` defines the tree of a line, sound trees and balanced texts; [`laws`] states their laws.
#![tactic(auto)]

mod escape;
pub mod keys;
pub mod laws;
pub mod node;
pub mod object;
mod tape;
mod writer;

pub use escape::{long_escape, short_escape};
pub use keys::is_among;
pub use node::Node;
pub use object::{Named, Object};
pub use tape::{Parsed, Scalar, Tape, TapeNode, Visitor, leading_integer, look_up, run_len};
pub use writer::Writer;
