//! Field tables: one theory of reading and writing for all protocol types; and the values of
//! fields.
//!
//! A kind is a scalar, a list, a map, or a table of rows: key, rule and kind. `specs/` says which
//! trees show which values, what is written for a value, and its normal form; `specs/Laws.antt`
//! states eighteen laws, and `proofs/Laws.antt` proves them for each lawful kind. The crates above
//! add scalars and tables, and state the laws at their own kinds.
//!
//! A field's type with one JSON form is a [`Member`]; a [`Codec`] is a form that is chosen per
//! field. [`spelled`] has the form of values that are JSON strings. [`read`] reads values from JSON
//! trees, and [`draw`] draws absent ones. [`line`] reads a value from a line of JSON, and [`text`]
//! writes a value as compact text.
#![tactic(auto)]

pub mod any;
pub mod boxed;
pub mod codec;
pub mod draw;
pub mod error;
pub mod leaves;
pub mod line;
pub mod lists;
pub mod member;
pub mod pass;
pub mod read;
pub mod spelled;
pub mod text;
pub mod tree;
pub mod unsigned;
pub mod way;
pub mod word;

pub use boxed::AsBoxed;
pub use codec::{Codec, Own};
pub use draw::Drawn;
pub use error::TreeError;
pub use line::{LineReader, ReadsNode, read_line, read_tree, whole};
pub use member::{Formed, Member};
pub use read::{FromTree, ReadCodec};
pub use spelled::{AsText, Room, Spelled};
pub use text::{text_of, write_text};
pub use unsigned::{AsUnsigned, Unsigned};
pub use way::Way;
pub use word::{AsWord, Word};
