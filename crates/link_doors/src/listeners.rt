// What connections are accepted from, and given back to.
ghost use Rattle.std.specs.Prelude.{◌≡◌, ◌<◌, ℕ, List, None, IfOk, IfSome, OnOk, OnErr, length};
ghost use Rattle.std.specs.declared.option.Option.{Option};
ghost use Rattle.link_port.specs.Faults.{Rises};
ghost use Rattle.link_doors.specs.Visits.{Visit, visit_of, with_visit, LeavesFit};
ghost use Rattle.link_doors.specs.Accepts.{Accepts, GivesFirst, IsNew};

use link_port::{Failed, Sink, Source};

/// How the session of a connection had stopped, when the connection is given back.
#[derive(Debug, Clone, Copy, PartialEq, Eq)]
pub enum Leave {
    /// The session stopped in any way that has no name here.
    Whole,
    /// A take failed.
    ReadFault,
    /// A put failed.
    WriteFault,
    /// The history had no room for the next call, which wants this many bytes.
    Full {
        /// The bytes that the call wants.
        bytes: u64,
    },
    /// The worker's steps are used up.
    Worn,
    /// Memory was asked for and not granted.
    Memory,
}

/// What connections are accepted from. It tells how many it gives in all, where that is stated, and
/// how many it has given; which are still to come and what became of those given back it tells or
/// does not.
pub trait Listener {
    /// A connection: bytes are taken from it and put to it.
    type Conn: Source + Sink + Drop;

    /// The number of connections that it gives in all, where it is stated.
    ghost stated: { Self → Option ℕ };

    /// The number of connections that it has given.
    ghost given: { Self → ℕ };

    /// How many calls of `accept` failed.
    ghost faults: { Self → ℕ };

    /// The connections still to come, where they are told.
    ghost coming: { Self → Option (List Self.Conn) } = { λ _. None };

    /// The connections given back in order, where they are told.
    ghost back: { Self → Option (List Visit) } = { λ _. None };

    /// Waits for the next connection. It gives none exactly where all that are stated were given, and
    /// fails only where the count of faults rises.
    fn accept(&mut self) -> Result<Option<Self::Conn>, Failed>
        ensures number { Accepts (stated self.old) (given self.old) (given self.new) result }
        ensures stated { stated self.new ≡ stated self.old }
        ensures first { GivesFirst (coming self.old) (coming self.new) result }
        ensures fresh { IfOk result (λ conn. IfSome conn (λ c. IsNew
            (Self.Conn.written c) (Self.Conn.read_faults c) (Self.Conn.write_faults c)
            (Self.Conn.finished c))) }
        ensures sound { OnOk result (faults self.new ≡ faults self.old) }
        ensures fault { OnErr result (Rises (faults self.old) (faults self.new)) }
        ensures back { back self.new ≡ back self.old };

    /// Gives a connection back whose session has stopped, with the number of entries that it made in a
    /// history.
    fn done(&mut self, conn: Self::Conn, leave: Leave, entries: u64)
        requires out { IfSome (back self.old) (λ visits. length visits < given self.old) }
        requires fits { LeavesFit leave (Self.Conn.read_faults conn) (Self.Conn.write_faults conn) }
        ensures log { back self.new ≡ with_visit (back self.old)
            (visit_of (Self.Conn.left conn) (Self.Conn.written conn) leave entries) }
        ensures given { given self.new ≡ given self.old }
        ensures stated { stated self.new ≡ stated self.old }
        ensures coming { coming self.new ≡ coming self.old }
        ensures faults { faults self.new ≡ faults self.old };
}
