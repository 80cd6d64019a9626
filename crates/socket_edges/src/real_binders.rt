// The binder of the system.
ghost use Rattle.std.specs.Prelude.{◌≡◌, ◌≤◌, [], All, IfOk, OnOk, length, vec_capacity};
ghost use Rattle.socket_edges.specs.RealDoors.{IsUnused};

use crate::doors::{Listening, RealDoor};
use crate::fault_counts::FaultCount;
use crate::socket_files::SocketFile;
use door_binder::Binder;
use link_doors::Address;
use link_port::Text;
use link_reach::DialFault;
use std::alloc::Global;
use std::io;
use std::io::ErrorKind;
use std::net::{Ipv4Addr, Net, TcpListener, TcpStream};
use std::rt::Files;

/// The binder of the system: its doors listen at sockets. It counts each error of the system.
///
/// A bind to a path makes a file there. It takes the place of a socket at which nobody listens any more; any
/// other file there is a fault, and stays. The file is removed when the doors are given back, unless another
/// one stands in its place by then.
#[derive(Debug, Drop)]
pub struct RealBinder<R> {
    system: R,
    faults: FaultCount,
}

impl<R: Files + Net<Stream = TcpStream, Listener = TcpListener>> RealBinder<R> {
    /// A binder over a system, without a fault so far.
    pub fn new(system: R) -> RealBinder<R>
        ensures { ⟦<RealBinder<R> as Binder>⟧.faults result ≡ 0 }
    {
        RealBinder {
            system,
            faults: FaultCount::new(),
        }
    }

    // Doors that listen at one address.
    fn doors_at(
        &self,
        alloc: Global,
        address: &Address,
        doors: u64,
        connections: Option<u64>,
    ) -> io::Result<Vec<RealDoor>>
        ensures count { IfOk result (λ made. length made.items ≡ doors) }
        ensures unused { IfOk result (λ made. All (IsUnused connections) made.items) }
    {
        let mut made = Vec::with_capacity(alloc, doors as usize)?;
        let mut bound = Bound::at(&self.system, alloc, address)?;
        match bound.open(&mut made, doors, connections) {
            Ok(()) => {
                bound.close(&self.system);
                Ok(made)
            }
            Err(error) => {
                bound.close(&self.system);
                close_all(&self.system, made);
                Err(error)
            }
        }
    }
}

impl<R: Files + Net<Stream = TcpStream, Listener = TcpListener>> Binder for RealBinder<R> {
    type Door = RealDoor;

    ghost faults = { λ binder. binder.faults.count };

    fn bind(
        &mut self,
        alloc: Global,
        address: &Address,
        doors: u64,
        connections: Option<u64>,
    ) -> Result<Vec<RealDoor>, DialFault> {
        let made = self.doors_at(alloc, address, doors, connections);
        self.faults.told(made)
    }

    fn free(&mut self, doors: Vec<RealDoor>)
        ensures { self.new.faults.count ≡ self.old.faults.count }
    {
        close_all(&self.system, doors);
    }
}

// Closes doors. The file that was made for them goes first, while they still listen: so nobody takes it for
// one that was left behind.
fn close_all<R: Files>(system: &R, mut doors: Vec<RealDoor>) {
    for door in doors.iter_mut() {
        door.remove_file(system);
    }
}

// A socket that was bound, and the file that was made for it until a door has it.
#[derive(Debug, Drop)]
struct Bound {
    listening: Listening,
    file: Option<SocketFile>,
}

impl Bound {
    // Binds a socket to an address.
    fn at<R: Files + Net<Stream = TcpStream, Listener = TcpListener>>(
        system: &R,
        alloc: Global,
        address: &Address,
    ) -> io::Result<Bound> {
        match address {
            Address::Unix(path) => {
                let Ok(path) = Text::of(alloc, path.as_str()) else {
                    return Err(io::Error::from(ErrorKind::OutOfMemory));
                };
                let (listener, file) = SocketFile::bind(system, path)?;
                Ok(Bound {
                    listening: Listening::Unix(listener),
                    file: Some(file),
                })
            }
            Address::Tcp { ip, port } => {
                let place = (Ipv4Addr::from_octets(*ip), *port);
                Ok(Bound {
                    listening: Listening::Tcp(TcpListener::bind(system, place)?),
                    file: None,
                })
            }
        }
    }

    // Adds so many doors at the socket, of which the first one has the file.
    fn open(
        &mut self,
        doors: &mut Vec<RealDoor>,
        count: u64,
        connections: Option<u64>,
    ) -> io::Result<()>
        requires none { doors.old.items ≡ [] }
        requires room { count ≤ vec_capacity doors.old }
        ensures count { OnOk result (length doors.new.items ≡ count) }
        ensures unused { All (IsUnused connections) doors.new.items }
    {
        for _ in 0..count {
            let listening = self.listening.second()?;
            doors.push_reserved(RealDoor::new(listening, connections, self.file.take()));
        }
        Ok(())
    }

    // Closes the socket, and removes the file if no door has it.
    fn close<R: Files>(self, system: &R) {
        let Bound { listening, file } = self;
        if let Some(file) = file {
            file.remove(system);
        }
        drop(listening);
    }
}
