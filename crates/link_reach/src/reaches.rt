// How services are reached.
ghost use Rattle.std.specs.Prelude.{◌≡◌, ◌<◌, ◌≤◌, ◌≢◌, ℕ, Bool, false, [], List, None, Ok, Err, IfOk, IfSome, IsOk, OnErr, length, take};
ghost use Rattle.std.specs.declared.option.Option.{Option};
ghost use Rattle.link_port.specs.Flow.{TakesFront, EndsWhereNothingIsLeft};
ghost use Rattle.link_doors.specs.Accepts.{IsNew};
ghost use Rattle.link_doors.specs.Addresses.{address_text};
ghost use Rattle.link_reach.specs.Deeds.{Gains, dialled, done, taken, CountsFault};
ghost use Rattle.link_reach.specs.Links.{AsBefore, OthersAsBefore, Opens, Becomes, Halves};
ghost use Rattle.link_reach.specs.Worlds.{Said, Link, left_of, SendsTo, OpensAt};
ghost use Rattle.link_reach.specs.declared.deeds.Deed.{Deed};
ghost use Rattle.link_reach.specs.declared.deeds.Deed.TheVariants as deed;
ghost use Rattle.link_reach.specs.declared.deeds.LinkState.{LinkState};
ghost use Rattle.link_reach.specs.declared.deeds.LinkState.TheVariants.{Open, Closed};

use crate::deeds::{DialFault, LinkNo};
use link_doors::Address;
use link_port::{Sink, Source};
use std::alloc::Global;

/// How services are reached: links are opened by dialling an address or by starting a program, and
/// are known by their numbers.
///
/// Every reach tells how many links it has opened, what became of each, and how many of its calls
/// failed. What it did in order, what is left on a link, and the world of peers that its links lead
/// to it tells or does not.
pub trait Reach {
    /// The world of peers.
    type World;

    /// The end of a link to which bytes are put.
    type Up: Sink + Drop;

    /// The end of a link from which bytes are taken.
    type Down: Source + Drop;

    /// How many links were opened. The next one has this number.
    ghost opened: { Self → ℕ };

    /// What became of the link of a number.
    ghost state: { Self → ℕ → LinkState };

    /// How many calls failed.
    ghost faults: { Self → ℕ };

    /// What was done in order, where it is told.
    ghost log: { Self → Option (List Deed) } = { λ _. None };

    /// The world of peers, where it is told.
    ghost world: { Self → Option Self.World };

    /// What the peer at an address says to a message, in a world.
    ghost says: { Self.World → List ℕ → List ℕ → Said Self.World };

    /// Where a link leads, what was sent of a message, and what is left on it, where it is told.
    ghost leads: { Self → ℕ → Option Link } = { λ _ _. None };

    /// The two ends last given back, where they are told.
    ghost freed: { Self → Option (Self.Up × Self.Down) } = { λ _. None };

    /// Opens a link to the service at an address, and gives its number.
    fn dial(&mut self, alloc: Global, address: &Address) -> Result<LinkNo, DialFault>
        ensures opens { Opens (opened self.old) (opened self.new) (state self.old) (state self.new) result }
        ensures log { Gains (log self.old) (log self.new) (dialled (deed.Dialled address.now) result) }
        ensures fault { CountsFault (faults self.old) (faults self.new) result }
        ensures world { IfOk result (λ _. OpensAt (address_text address.now) (world self.old) (world self.new)
            (leads self.new (opened self.old))) }
        ensures same { OnErr result (world self.new ≡ world self.old) }
        ensures links { OthersAsBefore (opened self.old) (leads self.old) (leads self.new) }
        ensures freed { freed self.new ≡ freed self.old };

    /// Starts a program with the words `bridge`, `--resolver` and an address, and opens a link to its
    /// input and output.
    fn dial_child(
        &mut self,
        alloc: Global,
        program: &str,
        resolver: &Address,
    ) -> Result<LinkNo, DialFault>
        ensures opens { Opens (opened self.old) (opened self.new) (state self.old) (state self.new) result }
        ensures log { Gains (log self.old) (log self.new) (dialled (deed.Started program.now resolver.now) result) }
        ensures fault { CountsFault (faults self.old) (faults self.new) result }
        ensures world { world self.new ≡ world self.old }
        ensures links { OthersAsBefore (opened self.old) (leads self.old) (leads self.new) }
        ensures freed { freed self.new ≡ freed self.old };

    /// Sends the front of `piece` on a link, at least one byte of it, and gives the number of bytes.
    fn send(&mut self, alloc: Global, link: LinkNo, piece: &[u8]) -> Result<usize, DialFault>
        requires some { 0 < length piece.now }
        requires open { state self.old link.0 ≡ Open }
        ensures bound { IfOk result (λ n. (1 ≤ n) × (n ≤ length piece.now)) }
        ensures log { Gains (log self.old) (log self.new)
            (done (λ n. deed.Sent link.0 (take n piece.now)) result) }
        ensures fault { CountsFault (faults self.old) (faults self.new) result }
        ensures world { SendsTo Self.says (world self.old) (world self.new)
            (leads self.old link.0) (leads self.new link.0) result piece.now }
        ensures links { OthersAsBefore link.0 (leads self.old) (leads self.new) }
        ensures opened { opened self.new ≡ opened self.old }
        ensures states { AsBefore (state self.old) (state self.new) }
        ensures freed { freed self.new ≡ freed self.old };

    /// Takes the next bytes left on a link, and puts them into the front of `into`. It gives their
    /// number, which is 0 exactly where nothing is left.
    fn take(&mut self, alloc: Global, link: LinkNo, into: &mut [u8]) -> Result<usize, DialFault>
        requires room { 0 < length into.old }
        requires open { state self.old link.0 ≡ Open }
        ensures bound { IfOk result (λ n. n ≤ length into.new) }
        ensures length { length into.new ≡ length into.old }
        ensures log { Gains (log self.old) (log self.new) (done (taken link.0 into.new) result) }
        ensures fault { CountsFault (faults self.old) (faults self.new) result }
        ensures bytes { TakesFront (left_of (leads self.old link.0)) (left_of (leads self.new link.0)) result into.new }
        ensures end { EndsWhereNothingIsLeft (left_of (leads self.old link.0)) result }
        ensures world { world self.new ≡ world self.old }
        ensures links { OthersAsBefore link.0 (leads self.old) (leads self.new) }
        ensures opened { opened self.new ≡ opened self.old }
        ensures states { AsBefore (state self.old) (state self.new) }
        ensures freed { freed self.new ≡ freed self.old };

    /// Takes a link out as two ends, which have had no fault. Nothing was put to the first one, and the
    /// second one has left what was left on the link. A link that could not be taken out is closed.
    fn halves(&mut self, alloc: Global, link: LinkNo) -> Result<(Self::Up, Self::Down), DialFault>
        requires { state self.old link.0 ≡ Open }
        ensures halves { Halves link.0 (state self.old) (state self.new) result }
        ensures up { IfOk result (λ ends. IsNew (Self.Up.written ends.0) 0 (Self.Up.write_faults ends.0)
            (Self.Up.finished ends.0)) }
        ensures down { IfOk result (λ ends. (Self.Down.read_faults ends.1 ≡ 0)
            × IfSome (leads self.old link.0) (λ l. IfSome (Self.Down.left ends.1) (λ left. left ≡ l.left))) }
        ensures log { log self.new ≡ log self.old }
        ensures fault { CountsFault (faults self.old) (faults self.new) result }
        ensures world { world self.new ≡ world self.old }
        ensures links { OthersAsBefore link.0 (leads self.old) (leads self.new) }
        ensures opened { opened self.new ≡ opened self.old }
        ensures freed { freed self.new ≡ freed self.old };

    /// Gives two ends of a link back.
    fn free(&mut self, up: Self::Up, down: Self::Down)
        ensures freed { IfSome (freed self.new) (λ ends. ends ≡ (up, down)) }
        ensures log { log self.new ≡ log self.old }
        ensures fault { faults self.new ≡ faults self.old }
        ensures world { world self.new ≡ world self.old }
        ensures links { AsBefore (leads self.old) (leads self.new) }
        ensures opened { opened self.new ≡ opened self.old }
        ensures states { AsBefore (state self.old) (state self.new) };

    /// Closes a link.
    fn close(&mut self, link: LinkNo)
        requires { state self.old link.0 ≡ Open }
        ensures closed { Becomes link.0 Closed (state self.old) (state self.new) }
        ensures log { log self.new ≡ log self.old }
        ensures fault { faults self.new ≡ faults self.old }
        ensures world { world self.new ≡ world self.old }
        ensures links { OthersAsBefore link.0 (leads self.old) (leads self.new) }
        ensures opened { opened self.new ≡ opened self.old }
        ensures freed { freed self.new ≡ freed self.old };
}
