//! Doors whose connections are served, at the bytes of each connection.
#![tactic(auto)]

#[cfg(test)]
mod connections;
#[cfg(test)]
mod gates;
#[cfg(test)]
mod registries;
#[cfg(test)]
mod seats;
#[cfg(test)]
mod sheets;
#[cfg(test)]
mod waiting;
