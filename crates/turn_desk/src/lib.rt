//! One object that many threads ask in turn, with one history of all that was asked.
//!
//! A desk is started over an object and gives a first pass. A pass is split for each thread that
//! asks, and joined back once the thread is done. Each reply is the one that the object's definition
//! gives at its place in the history. A ledger keeps the whole history, or nothing of it. Whoever
//! has every pass again closes the desk, and has the object and the ledger. `docs/DESK.md` has the
//! argument in plain words.
#![tactic(auto)]

mod books;
mod desks;
mod faults;
mod ledgers;
mod objects;
mod passes;
mod plays;
mod splits;
mod turns;
mod views;

pub use desks::Desk;
pub use faults::AskFault;
pub use ledgers::{Forgotten, Kept, Ledger};
pub use objects::{Entry, Object};
pub use passes::{Holder, Pass};
