//! The law that ties what definitions go on with to the grammar of Varlink interface definitions.
#![tactic(auto)]

mod laws;

pub use laws::fronts_go_on;
