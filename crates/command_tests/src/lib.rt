//! The commands as they are used: rows of words, inputs and files, with what each must write.
#![tactic(auto)]

#[cfg(test)]
mod comparing;
#[cfg(test)]
mod console;
#[cfg(test)]
mod definitions;
#[cfg(test)]
mod rows;
#[cfg(test)]
mod served;
#[cfg(test)]
mod served_sheets;
#[cfg(test)]
mod sessions;
#[cfg(test)]
mod sheets;
#[cfg(test)]
mod words;
#[cfg(test)]
mod works;
