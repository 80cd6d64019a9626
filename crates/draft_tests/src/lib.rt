//! Drafts of sheets: the count sheet read whole, and where each text leaves the form first.
#![tactic(auto)]

#[cfg(test)]
mod counts;
#[cfg(test)]
mod shapes;
