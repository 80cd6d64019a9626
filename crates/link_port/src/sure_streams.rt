// A source and a sink that never fail.
ghost use Rattle.std.specs.Prelude.{◌≡◌, ◌<◌, ◌++◌, true, false, IsOk, Ok, length, take, drop, min};

use crate::lists::List;
use crate::refusals::{Failed, Memory};
use crate::streams::{Ends, Sink, Source};
use crate::unread::UnreadBytes;
use std::alloc::Global;
use std::marker::Model;

/// A source that gives bytes from memory, and never fails. Contracts see the bytes that are left.
#[derive(Debug, Drop)]
pub struct SureSource {
    unread: UnreadBytes,
}

impl Model for SureSource {
    ghost use Rattle.std.specs.Prelude.{List, ℕ};

    ghost Value = { List ℕ };

    ghost view = { λ source. source.unread };
}

impl SureSource {
    /// A source of these bytes.
    pub fn new(_alloc: Global, bytes: List<u8>) -> Result<SureSource, Memory>
        ensures { result ≡ Ok bytes }
    {
        Ok(SureSource {
            unread: UnreadBytes::new(bytes),
        })
    }
}

impl Ends for SureSource {
    ghost use Rattle.std.specs.Prelude.{Some};

    ghost left = { λ source. Some source };
}

impl Source for SureSource {
    fn take(&mut self, into: &mut [u8]) -> Result<usize, Failed>
        requires { 0 < length into.old }
        ensures count { result ≡ Ok (min (length into.old) (length self.old)) }
        ensures left { self.new ≡ drop (length into.old) self.old }
        ensures given { into.new ≡ take (length into.old) self.old ++ drop (length self.old) into.old }
    {
        let count = into.len().min(self.unread.len());
        self.unread.give(count, into);
        Ok(count)
    }
}

/// A sink that drops its bytes and never fails. Contracts see whether it was finished.
#[derive(Debug, Drop)]
pub struct SureSink {
    finished: bool,
}

impl Model for SureSink {
    ghost use Rattle.std.specs.Prelude.{Bool};

    ghost Value = { Bool };

    ghost view = { λ sink. sink.finished };
}

impl SureSink {
    /// A sink.
    pub fn new() -> SureSink
        ensures { result ≡ false }
    {
        SureSink { finished: false }
    }
}

impl Ends for SureSink {
    ghost finished = { λ sink. sink };
}

impl Sink for SureSink {
    fn put(&mut self, piece: &[u8]) -> Result<usize, Failed>
        requires some { 0 < length piece.now }
        requires unfinished { self.old ≡ false }
        ensures count { result ≡ Ok (length piece.now) }
        ensures unfinished { self.new ≡ false }
    {
        Ok(piece.len())
    }

    fn flush(&mut self) -> Result<(), Failed>
        ensures ok { IsOk result }
        ensures still { self.new ≡ self.old }
    {
        Ok(())
    }

    fn finish(&mut self) -> Result<(), Failed>
        requires { self.old ≡ false }
        ensures ok { IsOk result }
        ensures finished { self.new ≡ true }
    {
        self.finished = true;
        Ok(())
    }
}
