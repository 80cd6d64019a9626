//! What the crates of the definitions do with texts and trees, each public function once.
#![tactic(auto)]

#[cfg(test)]
mod items;
#[cfg(test)]
mod laws;
#[cfg(test)]
mod printing;
#[cfg(test)]
mod reading;
#[cfg(test)]
mod stacks;
#[cfg(test)]
mod trees;
