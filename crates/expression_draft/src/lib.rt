//! References, expressions and conditions of a sheet, read from JSON (RFC 8259) by names; and JSON objects
//! and arrays that are taken apart from their fronts.
#![tactic(auto)]

mod conditions;
mod drafts;
mod expressions;
mod faults;
mod forms;
mod members;
mod references;
mod texts;

pub use conditions::{next_cond, read_cond};
pub use drafts::{CondDraft, ExprDraft, RefDraft};
pub use expressions::{next_expr, read_expr, two_boxes};
pub use faults::Misfit;
pub use members::{Items, Members, sole_item, sole_member, whole};
pub use references::{next_ref, read_ref};
pub use texts::{next_text, read_text, read_texts};
