// The two ends of a link that was taken out.
ghost use Rattle.std.specs.Prelude.{◌≡◌, false, is_none};

use crate::children::ChildOutput;
use crate::fault_counts::FaultCount;
use crate::streams::{Stream, read_some, write_some};
use link_port::{Ends, Failed, Sink, Source};
use std::io;
use std::io::{Read, Write};
use std::process::ChildStdin;

// What is written to.
#[derive(Debug, Drop)]
enum Writer {
    Socket(Stream),
    Child(ChildStdin),
}

impl Writer {
    // Tells the other end that nothing more comes. A child's input ends where it is closed.
    fn end(&self) -> io::Result<()> {
        match self {
            Writer::Socket(stream) => stream.end(),
            Writer::Child(_) => Ok(()),
        }
    }
}

impl Write for Writer {
    fn write(&mut self, piece: &[u8]) -> io::Result<usize> {
        match self {
            Writer::Socket(stream) => stream.write(piece),
            Writer::Child(input) => input.write(piece),
        }
    }

    fn flush(&mut self) -> io::Result<()> {
        Ok(())
    }
}

/// The end of a link of the system to which bytes are put.
#[derive(Debug, Drop)]
pub struct RealUp {
    // None once it was finished.
    writer: Option<Writer>,
    faults: FaultCount,
}

impl RealUp {
    fn over(writer: Writer) -> RealUp
        ensures unfinished { is_none result.writer ≡ false }
        ensures sound { result.faults.count ≡ 0 }
    {
        RealUp {
            writer: Some(writer),
            faults: FaultCount::new(),
        }
    }

    /// The end that writes to a socket.
    pub(crate) fn over_socket(stream: Stream) -> RealUp
        ensures unfinished { is_none result.writer ≡ false }
        ensures sound { result.faults.count ≡ 0 }
    {
        RealUp::over(Writer::Socket(stream))
    }

    /// The end that writes to a program's input.
    pub(crate) fn over_child(input: ChildStdin) -> RealUp
        ensures unfinished { is_none result.writer ≡ false }
        ensures sound { result.faults.count ≡ 0 }
    {
        RealUp::over(Writer::Child(input))
    }

    /// Closes the end.
    pub(crate) fn close(self) {
        if let Some(writer) = &self.writer {
            let _ = writer.end();
        }
    }
}

impl Ends for RealUp {
    ghost use Rattle.std.specs.Prelude.{is_none};

    ghost write_faults = { λ up. up.faults.count };

    ghost finished = { λ up. is_none up.writer };
}

impl Sink for RealUp {
    fn put(&mut self, piece: &[u8]) -> Result<usize, Failed> {
        let put = match &mut self.writer {
            Some(writer) => write_some(writer, piece),
            None => unreachable!(),
        };
        self.faults.told_failed(put)
    }

    fn finish(&mut self) -> Result<(), Failed> {
        let ended = match &self.writer {
            Some(writer) => writer.end(),
            None => unreachable!(),
        };
        self.faults.told_failed(ended)?;
        self.writer = None;
        Ok(())
    }
}

// What is read from.
#[derive(Debug, Drop)]
enum Reader {
    Socket(Stream),
    Child(ChildOutput),
}

impl Read for Reader {
    fn read(&mut self, into: &mut [u8]) -> io::Result<usize> {
        match self {
            Reader::Socket(stream) => stream.read(into),
            Reader::Child(output) => output.pipe.read(into),
        }
    }
}

/// The end of a link of the system from which bytes are taken.
#[derive(Debug, Drop)]
pub struct RealDown {
    reader: Reader,
    faults: FaultCount,
}

impl RealDown {
    /// The end that reads from a socket.
    pub(crate) fn over_socket(stream: Stream) -> RealDown
        ensures { result.faults.count ≡ 0 }
    {
        RealDown {
            reader: Reader::Socket(stream),
            faults: FaultCount::new(),
        }
    }

    /// The end that reads what a program writes.
    pub(crate) fn over_child(output: ChildOutput) -> RealDown
        ensures { result.faults.count ≡ 0 }
    {
        RealDown {
            reader: Reader::Child(output),
            faults: FaultCount::new(),
        }
    }

    /// Closes the end. A program is waited for.
    pub(crate) fn close(self) {
        match self.reader {
            Reader::Socket(stream) => drop(stream),
            Reader::Child(output) => output.close(),
        }
    }
}

impl Ends for RealDown {
    ghost read_faults = { λ down. down.faults.count };
}

impl Source for RealDown {
    fn take(&mut self, into: &mut [u8]) -> Result<usize, Failed> {
        let taken = read_some(&mut self.reader, into);
        self.faults.told_failed(taken)
    }
}
