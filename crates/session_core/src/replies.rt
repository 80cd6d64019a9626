// The replies to one call, made one at a time.
ghost use Rattle.std.specs.Prelude.{◌≡◌, IfOk, OnErr};
ghost use Rattle.call_form.specs.declared.Call.{Call};
ghost use Rattle.call_form.specs.declared.Outcome.{Outcome};
ghost use Rattle.call_form.specs.CallOf.{IsObject};
ghost use Rattle.session_core.specs.Outcomes.{Nexts, Fits};

use call_form::{Call, Outcome, Raw, Reply};
use link_port::Memory;
use std::alloc::Global;
use std::marker::Model;

/// The replies to one call. They are made when they are asked for.
pub trait Replies {
    /// The replies that are left, and whether an upgrade is accepted.
    ghost left: { Self → Outcome };

    /// Gives the first reply left, and leaves the others. It gives none exactly where none is left.
    fn next(&mut self, alloc: Global) -> Result<Option<Reply>, Memory>
        ensures given { IfOk result (λ reply. Nexts (left self.old) reply (left self.new)) }
        ensures memory { OnErr result (left self.new ≡ left self.old) };

    /// What becomes of the bytes after an accepted upgrade; none where no upgrade is accepted.
    fn raw(&self) -> Option<Raw>
        ensures { result ≡ (left self.now).raw };
}

/// What answers the calls of a session, one after another.
pub trait Answerer {
    /// The replies to one call.
    type Out: Replies + Drop;

    /// From this state the call may have this outcome, and leave that state.
    ghost tells: { Self → Call → Outcome → Self → Type 0 };

    /// Answers the next call. Its parameters are an object. After want of memory the state is as
    /// before.
    fn answer(&mut self, alloc: Global, call: &Call) -> Result<Self::Out, Memory>
        requires { IsObject call.now.parameters }
        ensures told { IfOk result (λ replies.
            tells self.old call.now (Self.Out.left replies) self.new) }
        ensures fits { IfOk result (λ replies. Fits call.now (Self.Out.left replies)) }
        ensures memory { OnErr result (self.new ≡ self.old) };
}

/// The replies of an outcome that is there as a whole.
#[derive(Drop)]
pub struct Given {
    /// The replies left, the last one first.
    replies: Vec<Reply>,
    raw: Option<Raw>,
}

impl Model for Given {
    ghost use Rattle.std.specs.Prelude.{reverse};
    ghost use Rattle.call_form.specs.declared.Outcome.{Outcome};
    ghost use Rattle.std.specs.Coded.{codes};
    ghost use Rattle.call_form.specs.contracts.Outcome as outcome;

    ghost Value = { Outcome };

    ghost coded = { Prim.hlevel (codes, outcome.the_row.coded) };

    ghost view = { λ given. record { replies = reverse given.replies.items; raw = given.raw } };
}

impl Given {
    /// The replies of this outcome.
    pub fn new(outcome: Outcome) -> Given
        ensures { result ≡ outcome }
    {
        let mut replies = outcome.replies.into_vec();
        replies.reverse();
        Given {
            replies,
            raw: outcome.raw,
        }
    }
}

impl Replies for Given {
    ghost left = { λ given. given };

    fn next(&mut self, _alloc: Global) -> Result<Option<Reply>, Memory> {
        Ok(self.replies.pop())
    }

    fn raw(&self) -> Option<Raw> {
        self.raw
    }
}
