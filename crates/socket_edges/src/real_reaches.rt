// The reach over the system.
ghost use Rattle.std.specs.Prelude.{◌≡◌, ◌≤◌, ◌<◌, ◌++◌, ◌∷◌, [], IfOk, Some, length, vec_len, vec_capacity};
ghost use Rattle.link_reach.specs.declared.deeds.LinkState.TheVariants.{Open, Closed};
ghost use Rattle.socket_edges.specs.declared.links.RealLink.TheVariants as real;
ghost use Rattle.socket_edges.specs.RealLinks.{state_of, after_halves, AreNew};

use crate::children::LinkedChild;
use crate::fault_counts::FaultCount;
use crate::link_ends::{RealDown, RealUp};
use crate::links::{OpenLink, RealLink};
use crate::streams::Stream;
use link_doors::Address;
use link_reach::{DialFault, LinkNo, Reach};
use std::alloc::Global;
use std::net::{Ipv4Addr, Net, TcpListener, TcpStream};
use std::os::unix::net::UnixStream;
use std::process::{Processes, SystemProcess};
use std::{io, mem};

/// The reach over the system: its links are sockets, and programs that it starts. It counts each error of
/// the system.
///
/// A link that is closed or taken out gives its socket back at once, and leaves an entry of a fixed size under
/// its number. Where a reach is dropped, its open sockets are closed, and its programs are not waited for.
#[derive(Debug, Drop)]
pub struct RealReach<R> {
    system: R,
    // The links that were opened, by number.
    links: Vec<RealLink>,
    faults: FaultCount,
}

impl<
    R: Net<Stream = TcpStream, Listener = TcpListener> + Processes<Started = SystemProcess>,
> RealReach<R> {
    /// A reach over a system. It has opened no link, and no call of it failed.
    pub fn new(alloc: Global, system: R) -> RealReach<R>
        ensures opened { ⟦<RealReach<R> as Reach>⟧.opened result ≡ 0 }
        ensures sound { ⟦<RealReach<R> as Reach>⟧.faults result ≡ 0 }
    {
        RealReach {
            system,
            links: Vec::new(alloc),
            faults: FaultCount::new(),
        }
    }

    // A socket that is connected to an address.
    fn connect(&self, address: &Address) -> io::Result<Stream> {
        match address {
            Address::Unix(path) => {
                let stream = UnixStream::connect(&self.system, path.as_str())?;
                Ok(Stream::Unix(stream))
            }
            Address::Tcp { ip, port } => {
                let place = (Ipv4Addr::from_octets(*ip), *port);
                Ok(Stream::Tcp(TcpStream::connect(&self.system, place)?))
            }
        }
    }
}

impl<R> RealReach<R> {
    // Adds a link behind those that were opened before. Room for it was reserved.
    fn add(&mut self, link: OpenLink) -> LinkNo
        requires room { vec_len self.old.links < vec_capacity self.old.links }
        ensures number { result.0 ≡ length self.old.links.items }
        ensures links { self.new.links.items ≡ self.old.links.items ++ real.Open link ∷ [] }
        ensures faults { self.new.faults.count ≡ self.old.faults.count }
    {
        let number = LinkNo(self.links.len() as u64);
        self.links.push_reserved(RealLink::Open(link));
        number
    }
}

impl<R: Net<Stream = TcpStream, Listener = TcpListener> + Processes<Started = SystemProcess>> Reach
    for RealReach<R> {
    ghost use Rattle.std.specs.Prelude.{true, [], None, length, slice_get};
    ghost use Rattle.socket_edges.specs.RealLinks.{state_of as state_at};

    type World = ();

    type Up = RealUp;

    type Down = RealDown;

    ghost opened = { λ reach. length reach.links.items };

    ghost state = { λ reach no. state_at (slice_get reach.links.items no) };

    ghost faults = { λ reach. reach.faults.count };

    ghost world = { λ _. None };

    ghost says = { λ world address message. record { bytes = []; world = world; reads_on = true } };

    fn dial(&mut self, _alloc: Global, address: &Address) -> Result<LinkNo, DialFault> {
        if self.links.reserve(1).is_err() {
            return Err(DialFault::Memory);
        }
        let connected = self.connect(address);
        let stream = self.faults.told(connected)?;
        Ok(self.add(OpenLink::Socket(stream)))
    }

    fn dial_child(
        &mut self,
        alloc: Global,
        program: &str,
        resolver: &Address,
    ) -> Result<LinkNo, DialFault> {
        if self.links.reserve(1).is_err() {
            return Err(DialFault::Memory);
        }
        let started = LinkedChild::start(&self.system, alloc, program, resolver);
        let child = self.faults.told(started)?;
        Ok(self.add(OpenLink::Child(child)))
    }

    fn send(&mut self, _alloc: Global, link: LinkNo, piece: &[u8]) -> Result<usize, DialFault> {
        let put = put_on(&mut self.links[link.0 as usize], piece);
        self.faults.told(put)
    }

    fn take(&mut self, _alloc: Global, link: LinkNo, into: &mut [u8]) -> Result<usize, DialFault> {
        let taken = take_from(&mut self.links[link.0 as usize], into);
        self.faults.told(taken)
    }

    fn halves(&mut self, _alloc: Global, link: LinkNo) -> Result<(RealUp, RealDown), DialFault> {
        let halves = halves_of(&mut self.links[link.0 as usize]);
        match self.faults.told(halves) {
            Err(DialFault::Failed) => {
                close(&mut self.links[link.0 as usize]);
                Err(DialFault::Failed)
            }
            told => told,
        }
    }

    fn free(&mut self, up: RealUp, down: RealDown) {
        up.close();
        down.close();
    }

    fn close(&mut self, link: LinkNo) {
        close(&mut self.links[link.0 as usize]);
    }
}

// Writes once on an open link.
fn put_on(link: &mut RealLink, piece: &[u8]) -> io::Result<usize>
    requires open { state_of (Some link.old) ≡ Open }
    ensures bound { IfOk result (λ n. (1 ≤ n) × (n ≤ length piece.now)) }
    ensures same { state_of (Some link.new) ≡ Open }
{
    match link {
        RealLink::Open(link) => link.put(piece),
        _ => unreachable!(),
    }
}

// Reads once from an open link.
fn take_from(link: &mut RealLink, into: &mut [u8]) -> io::Result<usize>
    requires open { state_of (Some link.old) ≡ Open }
    ensures bound { IfOk result (λ n. n ≤ length into.new) }
    ensures same { state_of (Some link.new) ≡ Open }
{
    match link {
        RealLink::Open(link) => link.take(into),
        _ => unreachable!(),
    }
}

// Takes an open link out as two ends, or leaves it open.
fn halves_of(link: &mut RealLink) -> io::Result<(RealUp, RealDown)>
    requires open { state_of (Some link.old) ≡ Open }
    ensures state { state_of (Some link.new) ≡ after_halves result }
    ensures ends { IfOk result (λ ends. AreNew ends.0 ends.1) }
{
    let RealLink::Open(open) = mem::replace(link, RealLink::Halved) else {
        unreachable!()
    };
    match open.halves() {
        Ok(ends) => Ok(ends),
        Err((open, error)) => {
            *link = RealLink::Open(open);
            Err(error)
        }
    }
}

// Closes an open link.
fn close(link: &mut RealLink)
    requires open { state_of (Some link.old) ≡ Open }
    ensures closed { state_of (Some link.new) ≡ Closed }
{
    if let RealLink::Open(open) = mem::replace(link, RealLink::Closed) {
        open.close();
    }
}
