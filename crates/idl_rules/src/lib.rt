//! The grammar of Varlink interface definitions: which tree a text spells, and its laws.
#![tactic(auto)]

mod laws;
mod states;

pub use laws::one_tree;
pub use states::{Begun, Head, Keyword, Kind, Level, Mark, Spot, Stack, State};
