//! Rules of sheets, formed from their texts: one row for each refusal and each form of part.
#![tactic(auto)]

#[cfg(test)]
mod rules;
#[cfg(test)]
mod sheets;
