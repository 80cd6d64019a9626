// A reach in memory.
ghost use Rattle.std.specs.Prelude.{◌≡◌, ◌<◌, ◌≤◌, ◌++◌, true, [], None, Some, IfOk, IfSome, IsOk, OnOk, length, take, drop, slice_get};
ghost use Rattle.link_port.specs.InMemory.{SinkInMemory, SourceInMemory};
ghost use Rattle.link_reach.specs.declared.deeds.LinkState.TheVariants as state;
ghost use Rattle.link_reach.specs.declared.mem_links.MemLink.TheVariants as mem;
ghost use Rattle.link_reach.specs.declared.deeds.Deed.TheVariants as told;
ghost use Rattle.link_port.specs.Flow.{TakesFront};
ghost use Rattle.link_reach.specs.Deeds.{Gains, done, taken};
ghost use Rattle.link_reach.specs.Links.{AsBefore, OthersAsBefore};
ghost use Rattle.link_reach.specs.Worlds.{left_of};
ghost use Rattle.link_reach.specs.MemReaches.{state_of, link_of as link_at, left_on, found, with_link, ends_of};
ghost use Rattle.link_reach.specs.MemReaches.{DialsInMemory, SendsInMemory, TakesInMemory, HalvesInMemory};

use crate::deeds::{Deed, DialFault, LinkNo};
use crate::mem_links::{CallPlan, MemLink, Saying};
use crate::reaches::Reach;
use link_doors::Address;
use link_port::{List, MemSink, MemSource, Memory, Text};
use std::alloc::Global;
use std::marker::Model;

/// The greatest number of bytes that are put to the end of a link that was taken out.
const ROOM: u64 = 1_048_576;

/// A reach in memory: what the peer of each link says is told beforehand. Links are given in order,
/// whatever is dialled. It takes each piece whole, and keeps a log of what was done.
#[derive(Debug, Drop)]
pub struct MemReach {
    /// What the peers of the links still to be opened say, the last one first.
    coming: Vec<List<u8>>,
    links: Vec<MemLink>,
    calls: CallPlan,
    log: List<Deed>,
    freed: Option<(MemSink, MemSource)>,
}

impl Model for MemReach {
    ghost use Rattle.std.specs.Prelude.{◌+◌, ◌≤◌, reverse, vec_len, vec_capacity};
    ghost use Rattle.link_reach.specs.MemReaches.{ReachInMemory};

    ghost Value = { ReachInMemory };

    ghost view = { λ reach. record {
      coming = reverse reach.coming.items;
      links = reach.links.items;
      calls = reach.calls;
      log = reach.log;
      freed = reach.freed;
    } };

    ghost invariant = { λ reach. vec_len reach.links + vec_len reach.coming ≤ vec_capacity reach.links };
}

impl MemReach {
    /// A reach whose peers say these bytes, that of the first link first. No call of it fails but a dial
    /// when no link is left.
    pub fn new(alloc: Global, links: List<List<u8>>) -> Result<MemReach, Memory>
        ensures { IfOk result (λ reach. reach ≡ record {
          coming = links;
          links = [];
          calls = record { failing = []; number = 0; faults = 0 };
          log = [];
          freed = None;
        }) }
    {
        let mut coming = links.into_vec();
        coming.reverse();
        let links = match Vec::with_capacity(alloc, coming.len()) {
            Ok(links) => links,
            Err(_) => {
                drop(coming);
                return Err(Memory);
            }
        };
        Ok(MemReach {
            coming,
            links,
            calls: CallPlan::new(List::new(alloc)),
            log: List::new(alloc),
            freed: None,
        })
    }

    /// The same reach, of which the calls with these numbers fail. Dials, sends, takes and takings out are
    /// numbered together, from 0 on.
    pub fn failing(self, calls: List<u64>) -> MemReach
        ensures { result ≡ record self { calls = record { failing = calls; number = 0; faults = 0 } } }
    {
        let MemReach {
            coming,
            links,
            calls: before,
            log,
            freed,
        } = self;
        drop(before);
        MemReach {
            coming,
            links,
            calls: CallPlan::new(calls),
            log,
            freed,
        }
    }

    /// Lends what was done, in order.
    pub fn deeds(&self) -> &[Deed]
        ensures { result.now ≡ self.now.log }
    {
        self.log.as_slice()
    }

    /// Lends the two ends last given back.
    pub fn freed(&self) -> &Option<(MemSink, MemSource)>
        ensures { result.now ≡ self.now.freed }
    {
        &self.freed
    }

    // Opens the next link, and puts the deed into the log.
    fn open_next(&mut self, deed: Deed) -> Result<LinkNo, DialFault>
        ensures { DialsInMemory self.old deed result self.new }
    {
        self.log.push(deed)?;
        let says = if self.calls.is_failing() {
            None
        } else {
            self.coming.pop()
        };
        self.calls.count(says.is_none());
        match says {
            Some(bytes) => {
                let link = LinkNo(self.links.len() as u64);
                match self.links.push(MemLink::Open(Saying::new(bytes))) {
                    Ok(()) => Ok(link),
                    Err(_) => unreachable!(),
                }
            }
            None => Err(DialFault::Failed),
        }
    }

    // Lends what is left on a link.
    fn left(&self, link: LinkNo) -> &[u8]
        requires { state_of (slice_get self.now.links link.0) ≡ state.Open }
        ensures { result.now ≡ left_on (slice_get self.now.links link.0) }
    {
        match &self.links[link.0 as usize] {
            MemLink::Open(saying) => saying.left(),
            _ => unreachable!(),
        }
    }

    // Takes the next bytes of a link.
    fn take_from(
        &mut self,
        alloc: Global,
        link: LinkNo,
        into: &mut [u8],
    ) -> Result<usize, DialFault>
        requires room { 0 < length into.old }
        requires open { state_of (slice_get self.old.links link.0) ≡ state.Open }
        ensures { TakesInMemory self.old link.0 into.old result self.new into.new }
    {
        if self.calls.is_failing() {
            self.calls.count(true);
            return Err(DialFault::Failed);
        }
        let left = self.left(link);
        let count = into.len().min(left.len());
        let deed = taking(alloc, link, &left[..count])?;
        self.log.push(deed)?;
        give(&mut self.links[link.0 as usize], count, into);
        self.calls.count(false);
        Ok(count)
    }
}

// Copies bytes.
fn copied(alloc: Global, bytes: &[u8]) -> Result<List<u8>, Memory>
    ensures { IfOk result (λ copy. copy ≡ bytes.now) }
{
    match Vec::from_slice(alloc, bytes) {
        Ok(copy) => Ok(List::from_vec(copy)),
        Err(_) => Err(Memory),
    }
}

// Copies an address.
fn copied_address(alloc: Global, address: &Address) -> Result<Address, Memory>
    ensures { IfOk result (λ copy. copy ≡ address.now) }
{
    match address {
        Address::Unix(path) => Ok(Address::Unix(Text::of(alloc, path.as_str())?)),
        Address::Tcp { ip, port } => Ok(Address::Tcp {
            ip: *ip,
            port: *port,
        }),
    }
}

// Gives the next bytes of an open link.
fn give(link: &mut MemLink, count: usize, into: &mut [u8])
    requires open { state_of (Some link.old) ≡ state.Open }
    requires left { count ≤ length (left_on (Some link.old)) }
    requires room { count ≤ length into.old }
    ensures rest { link.new ≡ mem.Open (drop count (left_on (Some link.old))) }
    ensures given { into.new ≡ take count (left_on (Some link.old)) ++ drop count into.old }
{
    match link {
        MemLink::Open(saying) => saying.give(count, into),
        _ => unreachable!(),
    }
}

// The deed of a take that gives these bytes, or none.
fn taking(alloc: Global, link: LinkNo, bytes: &[u8]) -> Result<Deed, Memory>
    ensures { IfOk result (λ deed. deed ≡ found link.0 bytes.now) }
{
    if bytes.is_empty() {
        return Ok(Deed::Ended { link: link.0 });
    }
    Ok(Deed::Took {
        link: link.0,
        bytes: copied(alloc, bytes)?,
    })
}

impl Reach for MemReach {
    ghost use Rattle.std.specs.Prelude.{true, Some, None, length, slice_get};
    ghost use Rattle.link_reach.specs.MemReaches.{state_of as state_at, link_of};

    type World = ();

    type Up = MemSink;

    type Down = MemSource;

    ghost opened = { λ reach. length reach.links };

    ghost state = { λ reach no. state_at (slice_get reach.links no) };

    ghost faults = { λ reach. reach.calls.faults };

    ghost log = { λ reach. Some reach.log };

    ghost world = { λ _. None };

    ghost says = { λ world address message. record { bytes = []; world = world; reads_on = true } };

    ghost leads = { λ reach no. link_of (slice_get reach.links no) };

    ghost freed = { λ reach. reach.freed };

    fn dial(&mut self, alloc: Global, address: &Address) -> Result<LinkNo, DialFault>
        ensures exact { DialsInMemory self.old (told.Dialled address.now) result self.new }
    {
        let deed = Deed::Dialled(copied_address(alloc, address)?);
        self.open_next(deed)
    }

    fn dial_child(
        &mut self,
        alloc: Global,
        program: &str,
        resolver: &Address,
    ) -> Result<LinkNo, DialFault>
        ensures exact { DialsInMemory self.old (told.Started program.now resolver.now) result self.new }
    {
        let resolver = copied_address(alloc, resolver)?;
        match Text::of(alloc, program) {
            Ok(program) => self.open_next(Deed::Started { program, resolver }),
            Err(memory) => {
                drop(resolver);
                Err(memory.into())
            }
        }
    }

    fn send(&mut self, alloc: Global, link: LinkNo, piece: &[u8]) -> Result<usize, DialFault>
        requires some { 0 < length piece.now }
        requires open { state_of (slice_get self.old.links link.0) ≡ state.Open }
        ensures exact { SendsInMemory self.old link.0 piece.now result self.new }
    {
        if self.calls.is_failing() {
            self.calls.count(true);
            return Err(DialFault::Failed);
        }
        let bytes = copied(alloc, piece)?;
        self.log.push(Deed::Sent {
            link: link.0,
            bytes,
        })?;
        self.calls.count(false);
        Ok(piece.len())
    }

    fn take(&mut self, alloc: Global, link: LinkNo, into: &mut [u8]) -> Result<usize, DialFault>
        requires room { 0 < length into.old }
        requires open { state_of (slice_get self.old.links link.0) ≡ state.Open }
        ensures exact { TakesInMemory self.old link.0 into.old result self.new into.new }
        ensures log { Gains (Some self.old.log) (Some self.new.log) (done (taken link.0 into.new) result) }
        ensures bytes { TakesFront (left_of (link_at (slice_get self.old.links link.0)))
            (left_of (link_at (slice_get self.new.links link.0))) result into.new }
        ensures links { OthersAsBefore link.0 (λ no. link_at (slice_get self.old.links no))
            (λ no. link_at (slice_get self.new.links no)) }
        ensures states { AsBefore (λ no. state_of (slice_get self.old.links no))
            (λ no. state_of (slice_get self.new.links no)) }
    {
        self.take_from(alloc, link, into)
    }

    fn halves(&mut self, alloc: Global, link: LinkNo) -> Result<(MemSink, MemSource), DialFault>
        requires { state_of (slice_get self.old.links link.0) ≡ state.Open }
        ensures exact { HalvesInMemory self.old link.0 result self.new }
    {
        if self.calls.is_failing() {
            self.calls.count(true);
            self.links[link.0 as usize] = MemLink::Closed;
            return Err(DialFault::Failed);
        }
        let ends = ends_of(alloc, self.left(link))?;
        self.calls.count(false);
        self.links[link.0 as usize] = MemLink::Halved;
        Ok(ends)
    }

    fn free(&mut self, up: MemSink, down: MemSource)
        ensures exact { self.new ≡ record self.old { freed = Some (up, down) } }
    {
        self.freed = Some((up, down));
    }

    fn close(&mut self, link: LinkNo)
        requires { state_of (slice_get self.old.links link.0) ≡ state.Open }
        ensures exact { self.new ≡ with_link link.0 mem.Closed self.old }
    {
        self.links[link.0 as usize] = MemLink::Closed;
    }
}

// A new sink, and a source of these bytes.
fn ends_of(alloc: Global, left: &[u8]) -> Result<(MemSink, MemSource), Memory>
    ensures { IfOk result (λ ends. ends ≡ ends_of left.now) }
{
    let bytes = copied(alloc, left)?;
    let down = MemSource::new(alloc, bytes, List::new(alloc), List::new(alloc))?;
    match MemSink::new(alloc, ROOM, List::new(alloc), List::new(alloc)) {
        Ok(up) => Ok((up, down)),
        Err(memory) => {
            drop(down);
            Err(memory)
        }
    }
}
