// A door of the system.
ghost use Rattle.socket_edges.specs.RealDoors.{IsUnused};

use crate::connections::RealConn;
use crate::fault_counts::FaultCount;
use crate::socket_files::SocketFile;
use crate::streams::Stream;
use link_doors::{Leave, Listener};
use link_port::Failed;
use std::io;
use std::net::TcpListener;
use std::os::unix::net::UnixListener;
use std::rt::Files;

/// What connections are accepted from.
#[derive(Debug, Drop)]
pub enum Listening {
    /// A Unix socket.
    Unix(UnixListener),
    /// A TCP socket.
    Tcp(TcpListener),
}

impl Listening {
    /// Another handle of the same socket.
    pub fn second(&self) -> io::Result<Listening> {
        match self {
            Listening::Unix(listener) => Ok(Listening::Unix(listener.try_clone()?)),
            Listening::Tcp(listener) => Ok(Listening::Tcp(listener.try_clone()?)),
        }
    }

    // Waits for the next connection.
    fn accept(&self) -> io::Result<Stream> {
        match self {
            Listening::Unix(listener) => Ok(Stream::Unix(listener.accept()?.0)),
            Listening::Tcp(listener) => Ok(Stream::Tcp(listener.accept()?.0)),
        }
    }
}

/// A door of the system: it waits for connections, gives as many as were stated, and counts each error of
/// the system.
///
/// It counts the connections that it gives. One more than the greatest 64-bit number is a fault.
#[derive(Debug, Drop)]
pub struct RealDoor {
    listening: Listening,
    stated: Option<u64>,
    given: u64,
    faults: FaultCount,
    // The file that was made for it and the doors beside it, if it is this one that has it.
    file: Option<SocketFile>,
}

impl RealDoor {
    /// A door that gives so many connections, or any number.
    pub(crate) fn new(
        listening: Listening,
        stated: Option<u64>,
        file: Option<SocketFile>,
    ) -> RealDoor
        ensures { IsUnused stated result }
    {
        RealDoor {
            listening,
            stated,
            given: 0,
            faults: FaultCount::new(),
            file,
        }
    }

    /// Removes the file that was made for it, if it has that.
    pub(crate) fn remove_file<R: Files>(&mut self, system: &R) {
        if let Some(file) = self.file.take() {
            file.remove(system);
        }
    }
}

impl Listener for RealDoor {
    type Conn = RealConn;

    ghost stated = { λ door. door.stated };

    ghost given = { λ door. door.given };

    ghost faults = { λ door. door.faults.count };

    fn accept(&mut self) -> Result<Option<RealConn>, Failed> {
        if self.stated == Some(self.given) {
            return Ok(None);
        }
        let Some(given) = self.given.checked_add(1) else {
            self.faults.count();
            return Err(Failed);
        };
        let accepted = self.listening.accept();
        let stream = self.faults.told_failed(accepted)?;
        self.given = given;
        Ok(Some(RealConn::new(stream)))
    }

    fn done(&mut self, conn: RealConn, _leave: Leave, _entries: u64) {
        conn.close();
    }
}
