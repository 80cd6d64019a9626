//! What the references, expressions and conditions of a sheet's rule mean, where the registers and the
//! parameters of a call have their values.
#![tactic(auto)]

mod conditions;
mod expressions;
mod parts;
mod references;
mod scenes;

pub use conditions::{conditions_compare_by_equality, holds};
pub use expressions::{look_up, number, value};
pub use parts::{at_path, entries_of, field_at, fields_of, int_of, items_of, value_at};
pub use references::find;
pub use scenes::Scene;
