// A seat that hears the calls of one connection.
ghost use Rattle.std.specs.Prelude.{◌≡◌};

use crate::stops::stop_after;
use call_form::Call;
use link_doors::Gate;
use service_core::{Rendering, Request};
use service_desk::Seated;
use session_core::{Hearer, Stop};
use std::alloc::Global;
use std::sync::Wait;
use turn_desk::{AskFault, Ledger};

/// A seat at one connection: it tells the gate of each call before it is answered.
#[derive(Drop)]
pub(crate) struct Speaker<'r, 'g, 's, 'a, L: Ledger<Request>, G: Gate, R: Wait> {
    pub(crate) rt: &'r R,
    pub(crate) gate: &'g G,
    pub(crate) seated: &'s mut Seated<'a, L>,
    pub(crate) worker: u64,
    pub(crate) connection: u64,
    /// The last call that was answered.
    pub(crate) last: Option<u64>,
}

impl<'r, 'g, 's, 'a, L: Ledger<Request> + 'static, G: Gate, R: Wait> Hearer
    for Speaker<'r, 'g, 's, 'a, L, G, R> {
    ghost use Rattle.std.proofs.Common.{◌≡◌, refl, ◌∙◌};
    ghost use Rattle.turn_desk.specs.Passes.{all_asks};
    ghost use Rattle.service_desk.specs.Seats.{Hears, Misses};
    ghost use Rattle.door_serving.specs.Conversations.{GoesAlong};
    ghost use Rattle.door_serving.specs.Stops.{stop_of};

    type Out = Rendering<'a>;

    type Refusal = AskFault;

    ghost tells = { λ a call outcome b. Hears a.seated.now call outcome b.seated.now };

    ghost misses = { λ a call fault b. Misses a.seated.now call fault b.seated.now };

    ghost stop_of = { stop_of };

    ghost same = { λ a b. (b.seated.ghost_name ≡ a.seated.ghost_name) × GoesAlong a.seated.now b.seated.now };

    ghost same_self = { λ a. (refl, λ z goes. goes) };

    ghost same_on = { λ a b c first second. (second.0 ∙ first.0, λ z goes. second.1 z (first.1 z goes)) };

    fn hear(&mut self, alloc: Global, index: u64, call: &Call) -> Result<Rendering<'a>, AskFault> {
        self.gate
            .before(self.rt, self.worker, self.connection, index);
        let replies = self.seated.answer(self.rt, alloc, call)?;
        self.last = Some(index);
        Ok(replies)
    }

    fn stop(fault: AskFault) -> Stop {
        stop_after(fault)
    }
}
