// What hears the calls of a link, and may refuse them.
ghost use Rattle.std.specs.Prelude.{◌≡◌, IfOk, IfErr};
ghost use Rattle.call_form.specs.declared.Call.{Call};
ghost use Rattle.call_form.specs.declared.Outcome.{Outcome};
ghost use Rattle.call_form.specs.CallOf.{IsObject};
ghost use Rattle.session_core.specs.declared.stops.Stop.{Stop};
ghost use Rattle.session_core.specs.declared.stops.Stop.TheVariants as stop;
ghost use Rattle.session_core.specs.Heard.{IsRefusal};
ghost use Rattle.session_core.specs.Outcomes.{Fits};

use crate::replies::{Answerer, Replies};
use crate::stops::Stop;
use call_form::Call;
use link_port::Memory;
use std::alloc::Global;

/// What hears the calls of a link, one after another, and answers or refuses each. An implementation
/// may hold what it waits with.
pub trait Hearer {
    /// The replies to one call.
    type Out: Replies + Drop;

    /// Why a call got no answer.
    type Refusal: Drop;

    /// From this state the call may have this outcome, and leave that state.
    ghost tells: { Self → Call → Outcome → Self → Type 0 };

    /// From this state the call may be refused so, and leave that state.
    ghost misses: { Self → Call → Self.Refusal → Self → Type 0 };

    /// The stop of a session whose call was refused so.
    ghost stop_of: { Self.Refusal → Stop };

    /// That state stands for the same hearer as this one.
    ghost same: { Self → Self → Type 0 };

    /// Answers the next call, which is the message of this index. Its parameters are an object.
    fn hear(&mut self, alloc: Global, index: u64, call: &Call) -> Result<Self::Out, Self::Refusal>
        requires { IsObject call.now.parameters }
        ensures told { IfOk result (λ replies.
            tells self.old call.now (Self.Out.left replies) self.new) }
        ensures fits { IfOk result (λ replies. Fits call.now (Self.Out.left replies)) }
        ensures missed { IfErr result (λ refusal. misses self.old call.now refusal self.new) }
        ensures same { same self.old self.new };

    /// The stop that tells this refusal.
    fn stop(refusal: Self::Refusal) -> Stop
        ensures stop { result ≡ stop_of refusal }
        ensures refused { IsRefusal result };

    /// A hearer is the same as itself.
    ghost same_self: { (a : Self) → same a a };

    /// It stays the same over calls in a row.
    ghost same_on: { (a b c : Self) → same a b → same b c → same a c };
}

/// An answerer hears calls: it refuses for want of memory alone, and then stays as it is.
impl<A: Answerer> Hearer for A {
    type Out = A::Out;

    type Refusal = Memory;

    ghost tells = { A.tells };

    ghost misses = { λ a _ _ b. b ≡ a };

    ghost stop_of = { λ _. stop.Memory };

    ghost same = { λ _ _. Unit {0} };

    ghost same_self = { λ a. tt };

    ghost same_on = { λ a b c first second. tt };

    fn hear(&mut self, alloc: Global, _index: u64, call: &Call) -> Result<A::Out, Memory> {
        self.answer(alloc, call)
    }

    fn stop(_refusal: Memory) -> Stop {
        Stop::Memory
    }
}
