//! Laws of services: their descriptions are accepted as the interfaces that they serve, and their replies
//! read by what these declare (varlink.org, "Service").
#![tactic(auto)]

mod laws;

pub use laws::{
    descriptions_are_accepted, descriptions_are_told, replies_are_declared, sessions_are_declared,
    upgrades_are_accepted,
};
