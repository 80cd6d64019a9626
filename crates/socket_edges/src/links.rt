// Links of the system.
ghost use Rattle.std.specs.Prelude.{◌≤◌, IfOk, length};
ghost use Rattle.socket_edges.specs.RealLinks.{AreNew};

use crate::children::LinkedChild;
use crate::link_ends::{RealDown, RealUp};
use crate::streams::{Stream, read_some, write_some};
use std::io;

/// An open link of the system.
#[derive(Debug, Drop)]
pub enum OpenLink {
    /// A socket.
    Socket(Stream),
    /// A program, by its input and output.
    Child(LinkedChild),
}

impl OpenLink {
    /// Writes once.
    pub fn put(&mut self, piece: &[u8]) -> io::Result<usize>
        ensures { IfOk result (λ n. (1 ≤ n) × (n ≤ length piece.now)) }
    {
        match self {
            OpenLink::Socket(stream) => write_some(stream, piece),
            OpenLink::Child(child) => write_some(&mut child.input, piece),
        }
    }

    /// Reads once.
    pub fn take(&mut self, into: &mut [u8]) -> io::Result<usize>
        ensures { IfOk result (λ n. n ≤ length into.new) }
    {
        match self {
            OpenLink::Socket(stream) => read_some(stream, into),
            OpenLink::Child(child) => read_some(&mut child.output.pipe, into),
        }
    }

    /// The two ends of the link, or the link as it was.
    pub fn halves(self) -> Result<(RealUp, RealDown), (OpenLink, io::Error)>
        ensures { IfOk result (λ ends. AreNew ends.0 ends.1) }
    {
        match self {
            OpenLink::Socket(stream) => match stream.second() {
                Ok(second) => Ok((RealUp::over_socket(second), RealDown::over_socket(stream))),
                Err(error) => Err((OpenLink::Socket(stream), error)),
            },
            OpenLink::Child(LinkedChild { input, output }) => {
                Ok((RealUp::over_child(input), RealDown::over_child(output)))
            }
        }
    }

    /// Closes the link. A program is waited for.
    pub fn close(self) {
        match self {
            OpenLink::Socket(stream) => stream.close(),
            OpenLink::Child(child) => child.close(),
        }
    }
}

/// A link that was opened.
#[derive(Debug, Drop)]
pub enum RealLink {
    /// It is open.
    Open(OpenLink),
    /// It was closed.
    Closed,
    /// It was taken out as two ends.
    Halved,
}
