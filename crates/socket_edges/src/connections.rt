// A connection of the system.
ghost use Rattle.std.specs.Prelude.{◌≡◌, false};

use crate::fault_counts::FaultCount;
use crate::streams::{Stream, read_some, write_some};
use link_port::{Ends, Failed, Sink, Source};

/// A connection of the system: bytes are taken from it and put to it. It counts each error of the system.
#[derive(Debug, Drop)]
pub struct RealConn {
    stream: Stream,
    reads: FaultCount,
    writes: FaultCount,
    finished: bool,
}

impl RealConn {
    /// A connection over a socket, without a fault so far.
    pub(crate) fn new(stream: Stream) -> RealConn
        ensures reads { result.reads.count ≡ 0 }
        ensures writes { result.writes.count ≡ 0 }
        ensures unfinished { result.finished ≡ false }
    {
        RealConn {
            stream,
            reads: FaultCount::new(),
            writes: FaultCount::new(),
            finished: false,
        }
    }

    /// Closes the connection.
    pub(crate) fn close(self) {
        self.stream.close();
    }
}

impl Ends for RealConn {
    ghost read_faults = { λ conn. conn.reads.count };

    ghost write_faults = { λ conn. conn.writes.count };

    ghost finished = { λ conn. conn.finished };
}

impl Source for RealConn {
    fn take(&mut self, into: &mut [u8]) -> Result<usize, Failed> {
        let taken = read_some(&mut self.stream, into);
        self.reads.told_failed(taken)
    }
}

impl Sink for RealConn {
    fn put(&mut self, piece: &[u8]) -> Result<usize, Failed> {
        let put = write_some(&mut self.stream, piece);
        self.writes.told_failed(put)
    }

    fn finish(&mut self) -> Result<(), Failed> {
        let ended = self.stream.end();
        self.writes.told_failed(ended)?;
        self.finished = true;
        Ok(())
    }
}
