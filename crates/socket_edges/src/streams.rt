// Connected sockets, and reads and writes that a signal does not cut short.
ghost use Rattle.std.specs.Prelude.{◌≤◌, IfOk, length};

use std::io;
use std::io::{ErrorKind, Read, Write};
use std::net::{Shutdown, TcpStream};
use std::os::unix::net::UnixStream;

/// A connected socket. It is closed where it is dropped.
#[derive(Debug, Drop)]
pub enum Stream {
    /// A Unix socket.
    Unix(UnixStream),
    /// A TCP socket.
    Tcp(TcpStream),
}

impl Stream {
    /// Another handle of the same socket.
    pub fn second(&self) -> io::Result<Stream> {
        match self {
            Stream::Unix(stream) => Ok(Stream::Unix(stream.try_clone()?)),
            Stream::Tcp(stream) => Ok(Stream::Tcp(stream.try_clone()?)),
        }
    }

    /// Tells the peer that nothing more comes.
    pub fn end(&self) -> io::Result<()> {
        match self {
            Stream::Unix(stream) => stream.shutdown(Shutdown::Write),
            Stream::Tcp(stream) => stream.shutdown(Shutdown::Write),
        }
    }

    /// Closes the socket. The peer is told first that nothing more comes, so that it reads an end and no
    /// reset; a peer that has gone already needs no telling.
    pub fn close(self) {
        let _ = self.end();
    }
}

impl Read for Stream {
    fn read(&mut self, into: &mut [u8]) -> io::Result<usize> {
        match self {
            Stream::Unix(stream) => stream.read(into),
            Stream::Tcp(stream) => stream.read(into),
        }
    }
}

impl Write for Stream {
    fn write(&mut self, piece: &[u8]) -> io::Result<usize> {
        match self {
            Stream::Unix(stream) => stream.write(piece),
            Stream::Tcp(stream) => stream.write(piece),
        }
    }

    // Sockets gather nothing.
    fn flush(&mut self) -> io::Result<()> {
        Ok(())
    }
}

/// Reads once, and again where a signal came between.
pub fn read_some<R: Read>(reader: &mut R, into: &mut [u8]) -> io::Result<usize>
    ensures { IfOk result (λ n. n ≤ length into.new) }
{
    for _ in 0..u64::MAX {
        match reader.read(into) {
            Err(signal) if signal.kind() == ErrorKind::Interrupted => {}
            outcome => return outcome,
        }
    }
    Err(io::Error::from(ErrorKind::Interrupted))
}

/// Writes once, and again where a signal came between. A write of nothing is an error.
pub fn write_some<W: Write>(writer: &mut W, piece: &[u8]) -> io::Result<usize>
    ensures { IfOk result (λ n. (1 ≤ n) × (n ≤ length piece.now)) }
{
    for _ in 0..u64::MAX {
        match writer.write(piece) {
            Err(signal) if signal.kind() == ErrorKind::Interrupted => {}
            Ok(0) => return Err(io::Error::from(ErrorKind::WriteZero)),
            outcome => return outcome,
        }
    }
    Err(io::Error::from(ErrorKind::Interrupted))
}
