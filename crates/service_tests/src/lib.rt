//! Services of sheets at their bytes, each public function once.
#![tactic(auto)]

#[cfg(test)]
mod parts;
#[cfg(test)]
mod served;
#[cfg(test)]
mod sheets;
