//! One call over an open link: its text is sent, and its replies are passed on as they come.
#![tactic(auto)]

mod asked;
mod ends;
mod exchanges;
mod gathering;
mod inboxes;
mod screens;
mod verdicts;

pub use asked::Asking;
pub use ends::AskEnd;
pub use exchanges::exchange;
pub use inboxes::{Inbox, MOST_OF_LINK, TAKE};
pub use screens::{Misread, Screen, Unscreened};
