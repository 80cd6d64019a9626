//! The right to ask.
ghost use Rattle.std.specs.Prelude.{◌≡◌};

use crate::objects::Object;
use crate::plays::Place;
use std::marker::Model;

/// The right to ask a desk so many times, which one thread at a time has. It has a number, and has
/// seen a history.
#[derive(Drop)]
pub struct Holder<O, L, R> {
    pub(crate) seat: Place<O, L, R>,
    pub(crate) number: u64,
    pub(crate) left: u64,
    pub(crate) asked: u64,
}

impl<O, L, R> Model for Holder<O, L, R> {
    ghost use Rattle.std.specs.Prelude.{◌≡◌, ℕ, ◌+◌, ◌^◌, ◌≤◌, []};
    ghost use Rattle.turn_desk.specs.Passes.{PassView};

    ghost Value = { PassView O R };

    ghost use Rattle.turn_desk.specs.Seats.{pass_of, IsIdle};

    ghost view = { λ p. pass_of p.seat };

    ghost invariant = { λ p. IsIdle p.seat p.number p.left p.asked };
}

/// A pass of a desk over such objects, with such a ledger.
pub type Pass<O, L> = Holder<O, L, <O as Object>::Request>;

impl<O, L, R> Holder<O, L, R> {
    /// The number of the pass, which stands in each entry that it makes.
    pub fn number(&self) -> u64
        ensures { result ≡ self.now.number }
    {
        self.number
    }

    /// How many asks are left.
    pub fn left(&self) -> u64
        ensures { result ≡ self.now.left }
    {
        self.left
    }

    /// How many asks were spent, by asking and by splitting.
    pub fn asked(&self) -> u64
        ensures { result ≡ self.now.asked }
    {
        self.asked
    }
}
