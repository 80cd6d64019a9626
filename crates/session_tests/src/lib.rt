//! What the crates of the session path do at the bytes, each public function once.
#![tactic(auto)]

#[cfg(test)]
mod calls;
#[cfg(test)]
mod ends;
#[cfg(test)]
mod frames;
#[cfg(test)]
mod sessions;
#[cfg(test)]
mod values;
