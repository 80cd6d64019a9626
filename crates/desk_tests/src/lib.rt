//! The desk over both ledgers, asked from one thread and from several.
#![tactic(auto)]

#[cfg(test)]
mod asks;
