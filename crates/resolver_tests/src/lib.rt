//! What addresses, registries and their answers are at the bytes, each public function once.
#![tactic(auto)]

#[cfg(test)]
mod addresses;
#[cfg(test)]
mod registries;
