//! The loops of a committer and of a ticker: which steps each turn makes, whatever they are made on.
//!
//! What a loop works on is a value with a trait of its steps, `Committing` or `Ticking`. The trait's ghost member `leads`
//! says which steps lead from one of its values to another. The crates above use that a loop makes the steps that its gate
//! asks for, in their order, and no others, and that only a loop makes what shows that it ran. That it ends is said nowhere.
#![tactic(auto)]

mod committer;
mod gate;
mod ticker;

pub use committer::{CommitterRan, Committing, commit_all};
pub use gate::{Gate, Turn, WhenPending};
pub use ticker::{TickerRan, Ticking, tick_all};
