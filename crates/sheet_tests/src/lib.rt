//! Sheets: which expressions, conditions, steps and outcomes are typed.
#![tactic(auto)]

#[cfg(test)]
mod definitions;
#[cfg(test)]
mod parts;
#[cfg(test)]
mod typing;
