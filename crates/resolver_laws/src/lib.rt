//! A law of the resolver's replies: each reads by what its interfaces declare (varlink.org, "Service").
#![tactic(auto)]

mod laws;

pub use laws::replies_are_declared;
