// A connection in memory.
ghost use Rattle.std.specs.Prelude.{◌≡◌, ◌<◌, false, length};
ghost use Rattle.link_port.specs.InMemory.{TakesInMemory, PutsInMemory, FlushesInMemory, FinishesInMemory};

use link_port::{Ends, Failed, MemSink, MemSource, Sink, Source};
use std::marker::Model;

/// A connection in memory: a source and a sink in one.
#[derive(Debug, Drop)]
pub struct MemConn {
    source: MemSource,
    sink: MemSink,
}

impl Model for MemConn {
    ghost use Rattle.link_doors.specs.Connections.{ConnInMemory};

    ghost Value = { ConnInMemory };

    ghost view = { λ conn. record { source = conn.source; sink = conn.sink } };
}

impl MemConn {
    /// The connection whose bytes come from this source and go to this sink.
    pub fn new(source: MemSource, sink: MemSink) -> MemConn
        ensures { result ≡ record { source = source; sink = sink } }
    {
        MemConn { source, sink }
    }

    /// Lends the bytes that were put.
    pub fn written(&self) -> &[u8]
        ensures { result.now ≡ self.now.sink.written }
    {
        self.sink.bytes()
    }
}

impl Ends for MemConn {
    ghost use Rattle.std.specs.Prelude.{Some};

    ghost left = { λ conn. Some conn.source.left };

    ghost read_faults = { λ conn. conn.source.calls.faults };

    ghost written = { λ conn. Some conn.sink.written };

    ghost write_faults = { λ conn. conn.sink.calls.faults };

    ghost finished = { λ conn. conn.sink.finished };
}

impl Source for MemConn {
    fn take(&mut self, into: &mut [u8]) -> Result<usize, Failed>
        requires { 0 < length into.old }
        ensures exact { TakesInMemory self.old.source into.old result self.new.source into.new }
        ensures sink { self.new.sink ≡ self.old.sink }
    {
        self.source.take(into)
    }
}

impl Sink for MemConn {
    fn put(&mut self, piece: &[u8]) -> Result<usize, Failed>
        requires some { 0 < length piece.now }
        requires unfinished { self.old.sink.finished ≡ false }
        ensures exact { PutsInMemory self.old.sink piece.now result self.new.sink }
        ensures source { self.new.source ≡ self.old.source }
    {
        self.sink.put(piece)
    }

    fn flush(&mut self) -> Result<(), Failed>
        ensures exact { FlushesInMemory self.old.sink result self.new.sink }
        ensures source { self.new.source ≡ self.old.source }
    {
        self.sink.flush()
    }

    fn finish(&mut self) -> Result<(), Failed>
        requires unfinished { self.old.sink.finished ≡ false }
        ensures exact { FinishesInMemory self.old.sink result self.new.sink }
        ensures source { self.new.source ≡ self.old.source }
    {
        self.sink.finish()
    }
}
