//! The messages of Varlink as a caller has them: calls written as text, replies read from payloads.
#![tactic(auto)]

mod compact;
mod faults;
mod heads;
mod kinds;
mod laws;
mod members;
mod reading;
mod writing;

pub use faults::ReplyFault;
pub use heads::{Head, read_head};
pub use laws::{call_texts_read_back, replies_are, reply_limit, reply_texts_read_back};
pub use reading::read_reply;
pub use writing::call_text;

/// The greatest length of a reply's payload, in bytes.
pub const REPLY_LIMIT: u64 = 4_194_304;
