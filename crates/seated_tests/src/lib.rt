//! Connections that share the registers of a service, at their bytes.
#![tactic(auto)]

#[cfg(test)]
mod seats;
#[cfg(test)]
mod sheets;
