//! What each call of a hall does, decided before anything changes: at most one command, the calls of environments, and the
//! replies.
//!
//! A hall's run is a list of its calls. What is meant is said over such lists: the history, the calls of environments, and
//! what became of slots. It needs no broker: a plan is made from a table and the environments. The crate above uses that
//! each plan is what the definitions say, and that what is prepared for it can be done without memory.
#![tactic(auto)]

mod answering;
mod calling_environments;
mod changes;
mod drawing;
mod environment_status;
mod environments;
mod error;
pub mod examples;
mod finding_unheld;
mod fitting;
mod issued;
pub mod laws;
mod plan;
mod planner;
mod planning_callers;
mod planning_environments;
mod planning_ticks;
mod preparing;

pub use changes::Changes;
pub use drawing::drawn_id;
pub use environment_status::EnvironmentStatus;
pub use environments::Environments;
pub use error::HallError;
pub use fitting::fits;
pub use issued::Issued;
pub use plan::Plan;
pub use planner::plan_request;
pub use planning_ticks::plan_tick;
pub use preparing::{Prepared, prepare};
