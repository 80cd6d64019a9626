//! The resolver: which interface is served at which address, how that is answered, and where a
//! call goes.
#![tactic(auto)]

mod answers;
mod faults;
mod files;
mod goals;
mod infos;
mod laws;
mod methods;
mod registries;
mod words;

pub use faults::RegistryFault;
pub use goals::{Goal, target};
pub use laws::{nowhere_is_no_dot, upgrades_are_refused, words_are};
pub use registries::Registry;
