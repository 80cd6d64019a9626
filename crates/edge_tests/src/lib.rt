//! The real edges, at sockets and programs of the system.
#![tactic(auto)]

#[cfg(test)]
mod binders;
#[cfg(test)]
mod children;
#[cfg(test)]
mod places;
#[cfg(test)]
mod reaches;
