// A registry that attends the connections of a door.
ghost use Rattle.std.specs.Prelude.{◌≡◌};

use crate::attendants::{Attendant, Sitting};
use link_port::{Sink, Source};
use resolver_core::Registry;
use session_core::serve_link;
use std::alloc::Global;
use std::sync::Wait;

/// A registry at one door: it answers the calls of each of its connections.
#[derive(Drop)]
pub(crate) struct Clerk<'r> {
    pub(crate) registry: &'r Registry,
}

impl<'r> Attendant for Clerk<'r> {
    ghost use Rattle.std.proofs.Common.{◌≡◌, refl, ◌∙◌};
    ghost use Rattle.door_serving.specs.Resolving.{AttendsRegistry};

    ghost attends = { λ a b. AttendsRegistry a.registry.now b.registry.now };

    ghost same = { λ a b. b.registry.now ≡ a.registry.now };

    ghost same_self = { λ a. refl };

    ghost same_on = { λ a b c first second. second ∙ first };

    fn attend<C: Source + Sink, R: Wait>(
        &mut self,
        _rt: &R,
        alloc: Global,
        link: &mut C,
        _connection: u64,
    ) -> Sitting {
        let mut registry: &Registry = self.registry;
        let stop = serve_link(alloc, link, &mut registry);
        Sitting { stop, entries: 0 }
    }
}
