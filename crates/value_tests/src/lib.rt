//! Values of types, read and shown, each public function once.
#![tactic(auto)]

#[cfg(test)]
mod values;
