// What bytes are taken from, and what they are put to.
ghost use Rattle.std.specs.Prelude.{◌≡◌, ℕ, ◌<◌, ◌≤◌, Bool, true, false, List, None, IfOk, OnOk, OnErr, length};
ghost use Rattle.std.specs.declared.option.Option.{Option};
ghost use Rattle.link_port.specs.Faults.{Rises};
ghost use Rattle.link_port.specs.Flow.{IsAsBefore, TakesFront, EndsWhereNothingIsLeft, PutsFront};

use crate::refusals::Failed;

/// What contracts say of an object that bytes are taken from, or put to, or both.
///
/// Each side tells its bytes or does not, and counts its faults. A count stands still at the
/// greatest 64-bit number. Once an object was finished, nothing more is put to it.
pub trait Ends {
    /// The bytes that are left to take, where the object tells them.
    ghost left: { Self → Option (List ℕ) } = { λ _. None };

    /// How many takes failed.
    ghost read_faults: { Self → ℕ } = { λ _. 0 };

    /// The bytes that were put, where the object tells them.
    ghost written: { Self → Option (List ℕ) } = { λ _. None };

    /// How many calls of `put`, `flush` and `finish` failed.
    ghost write_faults: { Self → ℕ } = { λ _. 0 };

    /// Whether a `finish` succeeded.
    ghost finished: { Self → Bool } = { λ _. false };
}

/// What bytes are taken from.
pub trait Source: Ends {
    /// Takes the next bytes left, and puts them into the front of `into`.
    ///
    /// It gives their number, which is 0 exactly where nothing is left. It fails only where the
    /// count of read faults rises, and then takes nothing.
    fn take(&mut self, into: &mut [u8]) -> Result<usize, Failed>
        requires { 0 < length into.old }
        ensures bound { IfOk result (λ n. n ≤ length into.new) }
        ensures bytes { TakesFront (Self.left self.old) (Self.left self.new) result into.new }
        ensures end { EndsWhereNothingIsLeft (Self.left self.old) result }
        ensures sound { OnOk result (Self.read_faults self.new ≡ Self.read_faults self.old) }
        ensures fault { OnErr result (Rises (Self.read_faults self.old) (Self.read_faults self.new)) }
        ensures other { IsAsBefore (Self.written self.old) (Self.written self.new)
            (Self.write_faults self.old) (Self.write_faults self.new) }
        ensures still { Self.finished self.new ≡ Self.finished self.old };
}

/// What bytes are put to.
pub trait Sink: Ends {
    /// Appends the front of `piece`, at least one byte of it, and gives the number of bytes.
    ///
    /// It fails only where the count of write faults rises, and then appends nothing.
    fn put(&mut self, piece: &[u8]) -> Result<usize, Failed>
        requires some { 0 < length piece.now }
        requires unfinished { Self.finished self.old ≡ false }
        ensures bound { IfOk result (λ n. (1 ≤ n) × (n ≤ length piece.now)) }
        ensures bytes { PutsFront (Self.written self.old) (Self.written self.new) result piece.now }
        ensures sound { OnOk result (Self.write_faults self.new ≡ Self.write_faults self.old) }
        ensures fault { OnErr result (Rises (Self.write_faults self.old) (Self.write_faults self.new)) }
        ensures other { IsAsBefore (Self.left self.old) (Self.left self.new)
            (Self.read_faults self.old) (Self.read_faults self.new) }
        ensures unfinished { Self.finished self.new ≡ false };

    /// Sends what was put on its way, where the sink gathers it. It appends nothing.
    ///
    /// It fails only where the count of write faults rises.
    fn flush(&mut self) -> Result<(), Failed>
        ensures bytes { Self.written self.new ≡ Self.written self.old }
        ensures sound { OnOk result (Self.write_faults self.new ≡ Self.write_faults self.old) }
        ensures fault { OnErr result (Rises (Self.write_faults self.old) (Self.write_faults self.new)) }
        ensures other { IsAsBefore (Self.left self.old) (Self.left self.new)
            (Self.read_faults self.old) (Self.read_faults self.new) }
        ensures still { Self.finished self.new ≡ Self.finished self.old }
    {
        Ok(())
    }

    /// Tells the other end that nothing more comes. It appends nothing.
    ///
    /// It fails only where the count of write faults rises, and may then be called again.
    fn finish(&mut self) -> Result<(), Failed>
        requires { Self.finished self.old ≡ false }
        ensures bytes { Self.written self.new ≡ Self.written self.old }
        ensures finished { OnOk result (Self.finished self.new ≡ true) }
        ensures unfinished { OnErr result (Self.finished self.new ≡ false) }
        ensures sound { OnOk result (Self.write_faults self.new ≡ Self.write_faults self.old) }
        ensures fault { OnErr result (Rises (Self.write_faults self.old) (Self.write_faults self.new)) }
        ensures other { IsAsBefore (Self.left self.old) (Self.left self.new)
            (Self.read_faults self.old) (Self.read_faults self.new) };
}
