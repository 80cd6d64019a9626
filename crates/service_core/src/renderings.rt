// Replies that are there, or are made when they are asked for.
ghost use Rattle.std.specs.Prelude.{◌≡◌};
ghost use Rattle.service_core.specs.Renders.{left_of};

use crate::lates::Late;
use crate::upgrades::Upgrade;
use call_form::{Raw, Reply};
use link_port::Memory;
use session_core::{Given, Replies};
use std::alloc::Global;

/// The replies to one call.
#[derive(Drop)]
pub enum Rendering<'a> {
    /// They are there.
    Given(Given),
    /// They are made when they are asked for.
    Late(Late<'a>),
    /// They are the one that accepts an upgrade, which is made when it is asked for.
    Upgrade(Upgrade<'a>),
}

impl<'a> Replies for Rendering<'a> {
    ghost left = { left_of };

    fn next(&mut self, alloc: Global) -> Result<Option<Reply>, Memory> {
        match self {
            Rendering::Given(given) => given.next(alloc),
            Rendering::Late(late) => late.next(alloc),
            Rendering::Upgrade(upgrade) => upgrade.next(alloc),
        }
    }

    fn raw(&self) -> Option<Raw> {
        match self {
            Rendering::Given(given) => given.raw(),
            Rendering::Late(late) => late.raw(),
            Rendering::Upgrade(upgrade) => upgrade.raw(),
        }
    }
}
