//! Laws of the rules of a sheet: on registers and parameters that are values of their types, what a
//! typed rule refers to is there, its expressions have values of the types that they give, and it has a
//! result, which keeps the registers' types and fits the rule.
#![tactic(auto)]

mod laws;

pub use laws::{
    conditions_are_told, expressions_have_values, fitting_types_have_the_values,
    initial_values_are_of_types, outcomes_fit_their_rules, paths_lead_to_values,
    references_have_values, registers_keep_their_levels, registers_keep_their_types,
    sole_branches_are_the_rule, steps_keep_types, typed_rules_run,
};
