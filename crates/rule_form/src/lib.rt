//! The rules of a sheet, formed from their drafts: names become places, by types, and the first
//! refusal is told with its spot.
#![tactic(auto)]

mod branches;
mod conditions;
mod faults;
mod floats;
mod laws;
mod misses;
mod outcomes;
mod rules;
mod steps;

pub use conditions::{cond_made, guard_made};
pub use faults::RuleFault;
pub use floats::reaches_float;
pub use laws::{
    floats_are_told, formed_rules_are_typed, formed_rules_have_no_float, formed_rules_have_one_way,
};
pub use misses::{cond_misses, ending_misses, expr_misses, guard_misses, step_misses};
pub use outcomes::ending_made;
pub use rules::{interface_place, rule_formed};
pub use steps::step_made;
