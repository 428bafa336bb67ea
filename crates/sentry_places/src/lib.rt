//! Places of JSON that don't fit a type, and repairs of them: notes of byte ranges, with what
//! stands there instead.
#![tactic(auto)]

mod donors;
pub mod honest;
mod likely;
pub mod needed;
pub mod note;
pub mod oracle;
pub mod scan;
pub mod search;
pub mod splicing;
pub mod syntax;
mod table;

pub use honest::{Times, are_honest};
pub use needed::splice_without;
pub use note::{Found, Note, Place, Repair, Repairs, Wanted};
pub use oracle::Oracle;
pub use search::{Searched, find_faults};
pub use splicing::{push_rest, push_spliced};
pub use syntax::{Break, Expected, broken_at};
