// A seat that attends the connections of a door.
use crate::attendants::{Attendant, Sitting};
use crate::connections::serve_connection;
use link_doors::Gate;
use link_port::{Sink, Source};
use service_core::Request;
use service_desk::Seated;
use std::alloc::Global;
use std::sync::Wait;
use turn_desk::Ledger;

/// A seat at one door: it attends each of its connections, and tells the gate of their calls.
#[derive(Drop)]
pub(crate) struct Usher<'g, 's, 'a, L: Ledger<Request>, G: Gate> {
    pub(crate) seated: &'s mut Seated<'a, L>,
    pub(crate) gate: &'g G,
    pub(crate) worker: u64,
}

impl<'g, 's, 'a, L: Ledger<Request> + 'static, G: Gate> Attendant for Usher<'g, 's, 'a, L, G> {
    ghost use Rattle.std.proofs.Common.{◌≡◌, refl, ◌∙◌};
    ghost use Rattle.door_serving.specs.Attended.{AttendsSeat};
    ghost use Rattle.door_serving.specs.Conversations.{GoesAlong};

    ghost attends = { λ a b. AttendsSeat a.seated.now b.seated.now };

    ghost same = { λ a b. (b.seated.ghost_name ≡ a.seated.ghost_name) × GoesAlong a.seated.now b.seated.now };

    ghost same_self = { λ a. (refl, λ z goes. goes) };

    ghost same_on = { λ a b c first second. (second.0 ∙ first.0, λ z goes. second.1 z (first.1 z goes)) };

    fn attend<C: Source + Sink, R: Wait>(
        &mut self,
        rt: &R,
        alloc: Global,
        link: &mut C,
        connection: u64,
    ) -> Sitting {
        let before = self.seated.made();
        let stop = serve_connection(
            rt,
            alloc,
            link,
            self.seated,
            self.gate,
            self.worker,
            connection,
        );
        Sitting {
            stop,
            entries: self.seated.made() - before,
        }
    }
}
