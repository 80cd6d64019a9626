//! The commands that need the network as they are used, over links in memory: rows of words and of what the links say,
//! with what each must write.
#![tactic(auto)]

#[cfg(test)]
mod calls;
#[cfg(test)]
mod lines;
#[cfg(test)]
mod resolvers;
#[cfg(test)]
mod rows;
#[cfg(test)]
mod serving;
#[cfg(test)]
mod sheets;
#[cfg(test)]
mod words;
