//! Whether an interface definition can take another's place (varlink.org, "Interface Definition"): every
//! caller of the old is understood by a service of the new, and understands its replies.
#![tactic(auto)]

mod both;
mod compares;
mod laws;
mod lines;
mod looks;
mod names;
mod numbers;
mod prefixes;
mod verdicts;
mod visits;
mod walks;

pub use compares::compare;
pub use laws::{structs_within_read, values_within_read};
pub use lines::line;
pub use verdicts::{Side, Verdict};
