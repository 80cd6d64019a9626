// A sink that grows.
ghost use Rattle.std.specs.Prelude.{◌≡◌, ◌<◌, true, false, [], IsOk, length};
ghost use Rattle.work_sample.specs.Sinks.{PutsGrowing};

use link_port::{Ends, Failed, Sink};
use std::alloc::Global;
use std::marker::Model;

/// A sink that keeps its bytes in memory, and fails for want of memory alone.
#[derive(Debug, Drop)]
pub struct GrowingSink {
    bytes: Vec<u8>,
    faults: u64,
    finished: bool,
}

impl Model for GrowingSink {
    ghost use Rattle.work_sample.specs.Sinks.{Growing};

    ghost Value = { Growing };

    ghost view = { λ sink. record { written = sink.bytes.items; faults = sink.faults; finished = sink.finished } };
}

impl GrowingSink {
    /// An empty sink. It takes no memory.
    pub fn new(alloc: Global) -> GrowingSink
        ensures { result ≡ record { written = []; faults = 0; finished = false } }
    {
        GrowingSink {
            bytes: Vec::new(alloc),
            faults: 0,
            finished: false,
        }
    }

    /// The number of bytes that were put.
    pub fn len(&self) -> u64
        ensures { result ≡ length self.now.written }
    {
        self.bytes.len() as u64
    }
}

impl Ends for GrowingSink {
    ghost use Rattle.std.specs.Prelude.{Some};

    ghost written = { λ sink. Some sink.written };

    ghost write_faults = { λ sink. sink.faults };

    ghost finished = { λ sink. sink.finished };
}

impl Sink for GrowingSink {
    fn put(&mut self, piece: &[u8]) -> Result<usize, Failed>
        requires some { 0 < length piece.now }
        requires unfinished { self.old.finished ≡ false }
        ensures exact { PutsGrowing self.old piece.now result self.new }
    {
        match self.bytes.extend_from_slice(piece) {
            Ok(()) => Ok(piece.len()),
            Err(_) => {
                self.faults = self.faults.saturating_add(1);
                Err(Failed)
            }
        }
    }

    fn flush(&mut self) -> Result<(), Failed>
        ensures ok { IsOk result }
        ensures still { self.new ≡ self.old }
    {
        Ok(())
    }

    fn finish(&mut self) -> Result<(), Failed>
        requires { self.old.finished ≡ false }
        ensures ok { IsOk result }
        ensures finished { self.new ≡ record self.old { finished = true } }
    {
        self.finished = true;
        Ok(())
    }
}
