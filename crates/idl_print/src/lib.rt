//! Prints the canonical text of a Varlink interface definition.
#![tactic(auto)]

mod flat_lines;
mod laws;
mod opened_lines;
mod pieces;
mod printing;
mod rooms;
mod writing;

pub use laws::{canon_accepted, canon_formats_once, canon_spells};
pub use printing::text;
pub use writing::{PrintFault, write};
