//! Tables: types whose values are written row by row as the members of a JSON object.
//!
//! A [`Table`] gives its rows to a [`Sink`]: a JSON tree ([`tree`]), JSON text ([`text`]), either
//! with a tag and additional members merged in ([`beside`]), or a test whether the rows are plain
//! ([`plain`]). [`Values`] is a list that is written under the key `values`.
#![tactic(auto)]

pub mod beside;
pub mod kept;
pub mod laws;
pub mod plain;
pub mod sink;
pub mod table;
pub mod text;
pub mod tree;
pub mod values;

pub use sink::Sink;
pub use table::Table;
pub use values::{AsValues, Values};
