//! A service with as many methods as are asked for, and calls of each: their texts, and what they come to.
#![tactic(auto)]

mod orders;
mod pieces;
mod sinks;
mod texts;
mod works;

pub use texts::{MOST_METHODS, work_calls, work_sheet};
pub use works::{Ended, Figures, WorkFault, work};
