//! What the words of commands that need the network mean, one row for each form and each wrong list of words.
#![tactic(auto)]

#[cfg(test)]
mod meanings;
