//! The text of a report, and the lines that are told of a query that ended a search.
#![tactic(auto)]

pub mod asked;
pub mod report;

pub use asked::{Asked, spent_line, text_over_line, too_large_line};
pub use report::{OUTPUT_LIMIT, ReportError, Word, report_text, status_of};
