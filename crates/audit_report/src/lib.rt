//! What a disk holds, for a person or a program to read: how many events stand where, whether its two segments tell one
//! story, and the destination records of those that ended.
//!
//! A disk is seen by what its image holds (`checkpoint`): a report says of it the live segment's generation, the counts of
//! its table, and what the older segment folds to beside the live snapshot. Nothing here writes.
#![tactic(auto)]

mod auditing;
mod counting;
pub mod examples;
mod explaining;
mod figures_json;
mod figuring;
mod numbers;
mod older;
mod records;
mod report;

pub use auditing::{audit, inspect};
pub use explaining::explain;
pub use figures_json::json_line;
pub use figuring::figures;
pub use numbers::Figures;
pub use records::all_records;
pub use report::{Older, Report, in_force_line};
