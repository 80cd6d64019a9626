//! Steps of rules: what a request is answered with, and the registers after it.
#![tactic(auto)]

#[cfg(test)]
mod rules;
#[cfg(test)]
mod runs;
#[cfg(test)]
mod steps;
