//! Tables: protocol types that are read, written and copied row by row.
//!
//! A table writes its rows to a [`Sink`], or tests with one whether they are plain; takes them from
//! a [`Source`], such as a [`Reader`]; and copies them with a [`Copier`]. The codecs [`AsTable`] and
//! [`AsKept`] combine the three for a member of another table. The types that a row may hold are in
//! `sentry_tables`.
#![tactic(auto)]

mod case_map;
pub mod cased;
mod copier;
mod draw;
mod form;
mod pass;
mod pass_row;
mod passer;
mod read;
mod reader;
mod rows;
mod source;
pub mod tagged;
mod taken;
mod timed;

pub use case_map::{AsCaseMap, CasedByKey};
pub use cased::{AsCase, CaseSink, Cased, ReadCased, ReadCasedAt};
pub use copier::{Copier, CopyTable};
pub use form::{AsKept, AsTable, DefaultedTable};
pub use pass::{pass_table, pass_table_at};
pub use passer::Passer;
pub use read::{KeptTable, ReadTable, ReadTableAt};
pub use reader::Reader;
pub use rows::MadeCodec;
pub use sentry_tables::Drawn;
pub use sentry_writing::{Sink, Table, Values, table, text, tree, values};
pub use source::Source;
pub use timed::{FromTreeAt, ReadCodecAt};
