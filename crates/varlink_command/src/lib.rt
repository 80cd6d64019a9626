//! The words of the command `varlink`, and the objects that a program hands to it.
#![tactic(auto)]

mod commands;
mod comparing;
mod fault_lines;
mod faults;
mod pieces;
mod reading;
mod real_files;
mod real_streams;
mod serving;
mod sheet_lines;
mod sheets;
mod showing;
mod words;
mod working;
mod worlds;

pub use commands::{offline, refuse};
pub use fault_lines::write_fault_line;
pub use faults::{Fault, Which};
pub use pieces::put_texts;
pub use reading::{read_file, read_sheet};
pub use real_files::RealFiles;
pub use real_streams::{RealInput, RealOutput};
pub use worlds::{Desktop, Status, World};
