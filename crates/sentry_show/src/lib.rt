//! What an envelope tells: a page for a terminal, a JSON document, and lines of faults.
#![tactic(auto)]

pub mod checking;
pub mod document;
pub mod faults;
pub mod fields;
mod losses;
pub mod numbers;
pub mod page;
pub mod screen;
pub mod spans;
pub mod survey;

pub use checking::check;
pub use document::show_json;
pub use page::show_text;
pub use survey::Shown;
