//! Sheets of a service, read whole: what each says, typed, and why a text is none.
#![tactic(auto)]

mod faults;
mod interfaces;
mod laws;
mod registers;
mod rule_places;
mod rules;
mod sheets;

pub use faults::SheetFault;
pub use laws::{one_answer, version_one_has_one_branch};
pub use sheet_draft::{Info, Place, Spot};
pub use sheets::{Sheet, read};

/// The greatest number of levels of a register's first value.
pub const MOST_LEVELS: u64 = 120;
