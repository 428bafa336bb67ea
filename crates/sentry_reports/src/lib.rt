//! Client reports: data categories, discard reasons, losses, and reports with their sums.
#![tactic(auto)]

pub mod category;
pub mod item;
pub mod item_loss;
pub mod kept_sums;
pub mod laws;
pub mod reason;
pub mod report;
pub mod report_rows;

pub use category::Category;
pub use item::Item;
pub use item_loss::ItemLoss;
pub use reason::Reason;
pub use report::Report;
pub use report_rows::ReportRows;
