//! A service whose registers many connections share at one desk: each call that asks for a step is one
//! entry of one history, and its replies are those of the step at its place there.
#![tactic(auto)]

mod boards;
mod laws;
mod seats;

pub use boards::Board;
pub use laws::{gains_in_a_row, gains_what_it_hears};
pub use seats::Seated;
