//! What one request does to the registers of a sheet, and what it is answered with: a rule run.
#![tactic(auto)]

mod acts;
mod backs;
mod choices;
mod deeds;
mod dones;
mod endings;
mod entries;
mod levels;
mod registers;
mod steps;

pub use acts::act;
pub use backs::{Act, Back, Undo, undo_all};
pub use choices::{choose, refusal};
pub use deeds::{Deed, deed_of, seen};
pub use dones::Done;
pub use endings::answer;
pub use entries::{Spot, place_of, spot_of};
pub use levels::{Depth, are_level, are_within, is_small, is_within, next_depth};
pub use registers::Registers;
pub use steps::{run, step};

/// How many levels a register, a reply and the parameters of a refusal have at most.
pub const LEVEL_LIMIT: u64 = 120;
