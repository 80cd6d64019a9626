//! What the crates of Varlink share: owned values that contracts see as plain data, and the ends of
//! a stream.
#![tactic(auto)]

mod boxes;
mod filing;
mod lists;
mod memory_streams;
mod planned_calls;
mod refusals;
mod streams;
mod sure_streams;
mod texts;
mod unread;
mod values;
mod whole_puts;

pub use boxes::Box;
pub use filing::{FileFault, Files, MemFiles};
pub use lists::List;
pub use memory_streams::{MemSink, MemSource};
pub use refusals::{Failed, Memory, Short};
pub use streams::{Ends, Sink, Source};
pub use sure_streams::{SureSink, SureSource};
pub use texts::Text;
pub use values::Value;
pub use whole_puts::put_all;
