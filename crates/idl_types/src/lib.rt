//! What a text spells as one type of a Varlink interface definition, and the law that it is one.
#![tactic(auto)]

mod laws;

pub use laws::one_type;
