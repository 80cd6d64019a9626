//! The session machine: the calls of one connection, and the replies to them.
#![tactic(auto)]

mod hearers;
mod laws;
mod links;
mod messages;
mod outboxes;
mod phases;
mod replies;
mod serving;
mod sessions;
mod stops;
mod ways;
mod writing;

pub use hearers::Hearer;
pub use laws::{looks_no_further, only_adds, tells_all};
pub use links::{serve_alone, serve_link};
pub use replies::{Answerer, Given, Replies};
pub use sessions::{MOST_BYTES, Session, Turn};
pub use stops::Stop;
