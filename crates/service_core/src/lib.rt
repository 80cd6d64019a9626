//! A service of a sheet: how it answers calls, one after another (varlink.org, "Method Call" and "Service").
#![tactic(auto)]

mod alones;
mod finishing;
mod infos;
mod kinds;
mod lates;
mod places;
mod renderings;
mod replies;
mod requests;
mod runs;
mod services;
mod upgrades;
mod words;

pub use alones::Alone;
pub use lates::Late;
pub use renderings::Rendering;
pub use requests::{Placed, Request};
pub use services::Service;
pub use upgrades::Upgrade;
