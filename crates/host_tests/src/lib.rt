//! A service that is served at two doors at once, at the bytes of each connection.
#![tactic(auto)]

#[cfg(test)]
mod doors;
#[cfg(test)]
mod gates;
#[cfg(test)]
mod services;
#[cfg(test)]
mod sheets;
#[cfg(test)]
mod sinks;
