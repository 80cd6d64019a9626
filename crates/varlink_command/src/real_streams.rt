// The ends of the real console: what they give and take is what the system's objects give and take, as
// far as these tell it. They count each error of the system.
ghost use Rattle.std.specs.Prelude.{◌≡◌, ◌≤◌, false, true, IfOk, OnOk, OnErr, length};
ghost use Rattle.std.specs.Io.KnownBytes.{Keeps, ReadConsumes, WriteAppends};
ghost use Rattle.link_port.specs.Faults.{one_more};
ghost use Rattle.varlink_command.specs.RealEnds.{reader_of, writer_of, read_faults_of, write_faults_of, is_finished};

use link_port::{Ends, Failed, Sink, Source};
use std::io;
use std::io::{ErrorKind, Read, Write};

/// What bytes of the system are taken from, as standard input.
#[derive(Debug, Drop)]
pub struct RealInput<R> {
    reader: R,
    faults: u64,
}

impl<R> RealInput<R> {
    /// A source over a reader, without a fault so far.
    pub fn new(reader: R) -> RealInput<R>
        ensures sound { ⟦<RealInput<R> as Ends>⟧.read_faults result ≡ 0 }
        ensures over { reader_of result ≡ reader }
    {
        RealInput { reader, faults: 0 }
    }
}

impl<R> Ends for RealInput<R> {
    ghost read_faults = { λ input. input.faults };
}

impl<R: Read> Source for RealInput<R> {
    fn take(&mut self, into: &mut [u8]) -> Result<usize, Failed>
        ensures bound { IfOk result (λ n. n ≤ length into.new) }
        ensures bytes { ReadConsumes (R.remaining (reader_of self.old))
            (R.remaining (reader_of self.new)) result into.new }
        ensures sound { OnOk result (read_faults_of self.new ≡ read_faults_of self.old) }
        ensures fault { OnErr result (read_faults_of self.new ≡ one_more (read_faults_of self.old)) }
    {
        match read_uninterrupted(&mut self.reader, into) {
            Ok(count) => Ok(count),
            Err(_) => {
                self.faults = self.faults.saturating_add(1);
                Err(Failed)
            }
        }
    }
}

/// What bytes of the system are put to, as standard output and standard error.
#[derive(Debug, Drop)]
pub struct RealOutput<W> {
    writer: W,
    faults: u64,
    finished: bool,
}

impl<W> RealOutput<W> {
    /// A sink over a writer, without a fault so far.
    pub fn new(writer: W) -> RealOutput<W>
        ensures sound { ⟦<RealOutput<W> as Ends>⟧.write_faults result ≡ 0 }
        ensures over { writer_of result ≡ writer }
        ensures unfinished { ⟦<RealOutput<W> as Ends>⟧.finished result ≡ false }
    {
        RealOutput {
            writer,
            faults: 0,
            finished: false,
        }
    }
}

impl<W> Ends for RealOutput<W> {
    ghost write_faults = { λ output. output.faults };

    ghost finished = { λ output. output.finished };
}

impl<W: Write> Sink for RealOutput<W> {
    // A write of nothing is a fault too.
    fn put(&mut self, piece: &[u8]) -> Result<usize, Failed>
        ensures bound { IfOk result (λ n. (1 ≤ n) × (n ≤ length piece.now)) }
        ensures bytes { WriteAppends (W.contents (writer_of self.old)) (W.contents (writer_of self.new))
            result piece.now }
        ensures sound { OnOk result (write_faults_of self.new ≡ write_faults_of self.old) }
        ensures fault { OnErr result (write_faults_of self.new ≡ one_more (write_faults_of self.old)) }
        ensures still { is_finished self.new ≡ is_finished self.old }
    {
        match write_uninterrupted(&mut self.writer, piece) {
            Ok(count) if count > 0 => Ok(count),
            _ => {
                self.faults = self.faults.saturating_add(1);
                Err(Failed)
            }
        }
    }

    fn finish(&mut self) -> Result<(), Failed>
        ensures bytes { Keeps (W.contents (writer_of self.old)) (W.contents (writer_of self.new)) }
        ensures sound { OnOk result (write_faults_of self.new ≡ write_faults_of self.old) }
        ensures fault { OnErr result (write_faults_of self.new ≡ one_more (write_faults_of self.old)) }
        ensures finished { OnOk result (is_finished self.new ≡ true) }
        ensures still { OnErr result (is_finished self.new ≡ is_finished self.old) }
    {
        match self.writer.flush() {
            Ok(()) => {
                self.finished = true;
                Ok(())
            }
            Err(_) => {
                self.faults = self.faults.saturating_add(1);
                Err(Failed)
            }
        }
    }
}

// Reads once, and again where a signal came between.
fn read_uninterrupted<R: Read>(reader: &mut R, into: &mut [u8]) -> io::Result<usize>
    ensures bound { IfOk result (λ count. count ≤ length into.new) }
    ensures bytes { ReadConsumes (R.remaining reader.old) (R.remaining reader.new) result into.new }
{
    for _ in 0..u64::MAX {
        match reader.read(into) {
            Err(signal) if signal.kind() == ErrorKind::Interrupted => {}
            outcome => return outcome,
        }
    }
    Err(io::Error::from(ErrorKind::Interrupted))
}

// Writes once, and again where a signal came between.
fn write_uninterrupted<W: Write>(writer: &mut W, piece: &[u8]) -> io::Result<usize>
    ensures bound { IfOk result (λ count. count ≤ length piece.now) }
    ensures bytes { WriteAppends (W.contents writer.old) (W.contents writer.new) result piece.now }
{
    for _ in 0..u64::MAX {
        match writer.write(piece) {
            Err(error) if error.kind() == ErrorKind::Interrupted => {}
            outcome => return outcome,
        }
    }
    Err(io::Error::from(ErrorKind::Interrupted))
}
