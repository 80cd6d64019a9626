// The objects of a link: one that is source and sink at once, or one of each.
ghost use Rattle.std.specs.Prelude.{◌≡◌, ℕ, false, ◌+◌, ◌<◌, ◌≤◌, Bool, List, [], Option, IfOk, IfNone, IfSome, OnOk, OnErr, MatchOption, length};
ghost use Rattle.link_port.specs.Faults.{Rises};
ghost use Rattle.link_port.specs.Flow.{IsAsBefore, TakesFront, EndsWhereNothingIsLeft};
ghost use Rattle.session_core.specs.Heard.{refuses_by};
ghost use Rattle.session_core.specs.Limits.{most_bytes};
ghost use Rattle.session_core.specs.Sent.{sent};
ghost use Rattle.session_core.specs.Served.{WriteFaults};
ghost use Rattle.session_core.specs.Ways.{Aside, nothing_aside};
ghost use Rattle.session_core.specs.Went.{IsReady, Went, Halts, IsHalt, EmptyUnlessFault};

use crate::hearers::Hearer;
use crate::outboxes::Outbox;
use crate::serving::serve_take;
use crate::sessions::Session;
use crate::stops::Stop;
use link_port::{Failed, Sink, Source};
use std::alloc::Global;
use std::marker::PhantomData;

/// How a link is made of two places for objects: which of them its bytes are taken from, and which
/// its replies are put to. What contracts say of a link is said of both places together.
pub trait Way {
    /// What stands in the first place.
    type From;

    /// What stands in the second place.
    type To;

    /// The bytes that are left to take.
    ghost left: { Self.From → Self.To → Option (List ℕ) };

    /// How many takes failed.
    ghost read_faults: { Self.From → Self.To → ℕ };

    /// The bytes that were put.
    ghost written: { Self.From → Self.To → Option (List ℕ) };

    /// How many puts failed.
    ghost write_faults: { Self.From → Self.To → ℕ };

    /// Whether the sink was finished.
    ghost finished: { Self.From → Self.To → Bool };

    /// What the objects have that is no part of the link.
    ghost aside: { Self.From → Self.To → Aside };

    /// Takes the next bytes.
    fn take(from: &mut Self::From, to: &mut Self::To, into: &mut [u8]) -> Result<usize, Failed>
        requires { 0 < length into.old }
        ensures bound { IfOk result (λ n. n ≤ length into.new) }
        ensures bytes { TakesFront (left from.old to.old) (left from.new to.new) result into.new }
        ensures end { EndsWhereNothingIsLeft (left from.old to.old) result }
        ensures sound { OnOk result (read_faults from.new to.new ≡ read_faults from.old to.old) }
        ensures fault { OnErr result (Rises (read_faults from.old to.old) (read_faults from.new to.new)) }
        ensures other { IsAsBefore (written from.old to.old) (written from.new to.new)
            (write_faults from.old to.old) (write_faults from.new to.new) }
        ensures still { finished from.new to.new ≡ finished from.old to.old }
        ensures aside { aside from.new to.new ≡ aside from.old to.old };

    /// Serves a piece, and puts all that waits.
    fn serve<H: Hearer>(
        alloc: Global,
        session: &mut Session,
        piece: &[u8],
        outbox: &mut Outbox,
        from: &mut Self::From,
        to: &mut Self::To,
        hearer: &mut H,
    ) -> Option<Stop>
        requires ready { IsReady session.old }
        requires room { session.old.taken + length piece.now ≤ most_bytes }
        requires unfinished { finished from.old to.old ≡ false }
        ensures went { IfNone result
            (Went H.tells session.old session.new piece.now hearer.old hearer.new
            (sent (written from.old to.old) outbox.old)
            (sent (written from.new to.new) outbox.new)) }
        ensures ready { IfNone result (IsReady session.new) }
        ensures put { IfNone result (outbox.new.bytes ≡ []) }
        ensures halts { IfSome result
            (Halts H.tells (refuses_by H.misses H.stop_of) session.old piece.now hearer.old hearer.new
            (sent (written from.old to.old) outbox.old)
            (sent (written from.new to.new) outbox.new)) }
        ensures why { IfSome result IsHalt }
        ensures put_stopped { IfSome result (λ stop. EmptyUnlessFault stop outbox.new.bytes) }
        ensures same { H.same hearer.old hearer.new }
        ensures faults { MatchOption result (write_faults from.new to.new ≡ write_faults from.old to.old)
            (λ stop. WriteFaults stop (write_faults from.old to.old) (write_faults from.new to.new)) }
        ensures other { IsAsBefore (left from.old to.old) (left from.new to.new)
            (read_faults from.old to.old) (read_faults from.new to.new) }
        ensures unfinished { finished from.new to.new ≡ false }
        ensures aside { aside from.new to.new ≡ aside from.old to.old };
}

/// One object is source and sink; the second place is empty.
pub struct Joined<C> {
    of: PhantomData<C>,
}

impl<C: Source + Sink> Way for Joined<C> {
    type From = C;

    type To = ();

    ghost left = { λ c _. C.left c };

    ghost read_faults = { λ c _. C.read_faults c };

    ghost written = { λ c _. C.written c };

    ghost write_faults = { λ c _. C.write_faults c };

    ghost finished = { λ c _. C.finished c };

    ghost aside = { λ _ _. nothing_aside };

    fn take(from: &mut C, _to: &mut (), into: &mut [u8]) -> Result<usize, Failed> {
        from.take(into)
    }

    fn serve<H: Hearer>(
        alloc: Global,
        session: &mut Session,
        piece: &[u8],
        outbox: &mut Outbox,
        from: &mut C,
        _to: &mut (),
        hearer: &mut H,
    ) -> Option<Stop> {
        serve_take(alloc, session, piece, outbox, from, hearer)
    }
}

/// The source stands in the first place, the sink in the second.
pub struct Apart<S, K> {
    of: PhantomData<(S, K)>,
}

impl<S: Source, K: Sink> Way for Apart<S, K> {
    type From = S;

    type To = K;

    ghost left = { λ s _. S.left s };

    ghost read_faults = { λ s _. S.read_faults s };

    ghost written = { λ _ k. K.written k };

    ghost write_faults = { λ _ k. K.write_faults k };

    ghost finished = { λ _ k. K.finished k };

    ghost aside = { λ s k. record {
      written = S.written s;
      write_faults = S.write_faults s;
      finished = S.finished s;
      left = K.left k;
      read_faults = K.read_faults k;
    } };

    fn take(from: &mut S, _to: &mut K, into: &mut [u8]) -> Result<usize, Failed> {
        from.take(into)
    }

    fn serve<H: Hearer>(
        alloc: Global,
        session: &mut Session,
        piece: &[u8],
        outbox: &mut Outbox,
        _from: &mut S,
        to: &mut K,
        hearer: &mut H,
    ) -> Option<Stop> {
        serve_take(alloc, session, piece, outbox, to, hearer)
    }
}
