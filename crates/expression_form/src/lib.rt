//! The expressions of a sheet's rules, formed from their drafts: names become places, by types, and
//! what is not typed is refused.
#![tactic(auto)]

mod expressions;
mod faults;
mod grounds;
mod laws;
mod places;
mod references;

pub use expressions::made;
pub use faults::Unformed;
pub use grounds::Ground;
pub use laws::{expressions_made_give, references_have_types};
pub use places::{Places, put_first};
pub use references::ref_formed;
