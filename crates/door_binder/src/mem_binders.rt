// A binder in memory.
ghost use Rattle.std.specs.Prelude.{◌≡◌, ◌≤◌, ◌+◌, [], All, IfOk, Some, length, map, take, drop, reverse, vec_capacity};
ghost use Rattle.link_port.specs.Planned.{is_failing, after_call};
ghost use Rattle.link_doors.specs.Doors.{visit_back};
ghost use Rattle.door_binder.specs.Binds.{IsUnused, IsWithin};
ghost use Rattle.door_binder.specs.BoundDoors.{cut, IsFresh};
ghost use Rattle.door_binder.specs.MemBinders.{BindsInMemory};

use crate::binders::{Bind, Binder};
use crate::bound_doors::BoundDoor;
use link_doors::{Address, MemDoor};
use link_port::{List, Memory, Text};
use link_reach::DialFault;
use std::alloc::Global;
use std::marker::Model;

/// The binds by their numbers from 0 on, and which of them fail. A number and a count stand still at the
/// greatest 64-bit number.
#[derive(Debug, Drop)]
struct CallPlan {
    failing: List<u64>,
    number: u64,
    faults: u64,
}

impl Model for CallPlan {
    ghost use Rattle.link_port.specs.Planned.{Calls};

    ghost Value = { Calls };

    ghost view = { λ plan. record { failing = plan.failing; number = plan.number; faults = plan.faults } };
}

impl CallPlan {
    // Whether the next bind is one of those that are to fail.
    fn is_failing(&self) -> bool
        ensures { result ≡ is_failing self.now }
    {
        self.failing.as_slice().contains(&self.number)
    }

    // Counts a bind, and its fault if it failed.
    fn count(&mut self, failed: bool)
        ensures { self.new ≡ after_call failed self.old }
    {
        self.number = self.number.saturating_add(1);
        if failed {
            self.faults = self.faults.saturating_add(1);
        }
    }
}

/// A binder in memory: it gives its doors in order, whatever they are bound to, and keeps a log of its
/// binds and the doors last given back.
#[derive(Debug, Drop)]
pub struct MemBinder {
    /// The doors that were not bound yet, the last one first.
    doors: Vec<MemDoor>,
    binds: List<Bind>,
    freed: Vec<BoundDoor>,
    calls: CallPlan,
}

impl Model for MemBinder {
    ghost use Rattle.std.specs.Prelude.{All, reverse};
    ghost use Rattle.door_binder.specs.BoundDoors.{IsFresh};
    ghost use Rattle.door_binder.specs.MemBinders.{BinderInMemory};

    ghost Value = { BinderInMemory };

    ghost view = { λ binder. record {
      doors = reverse binder.doors.items;
      binds = binder.binds;
      freed = binder.freed.items;
      calls = binder.calls;
    } };

    ghost invariant = { λ binder. All IsFresh (reverse binder.doors.items) };
}

impl MemBinder {
    /// A binder that gives these doors, of which none gave a connection yet, and whose binds with the
    /// listed numbers, from 0 on, fail.
    pub fn new(alloc: Global, doors: Vec<MemDoor>, failing: List<u64>) -> Result<MemBinder, Memory>
        requires { All IsFresh doors.items }
        ensures { IfOk result (λ binder. binder ≡ record {
          doors = doors.items;
          binds = [];
          freed = [];
          calls = record { failing = failing; number = 0; faults = 0 };
        }) }
    {
        let mut doors = doors;
        doors.reverse();
        Ok(MemBinder {
            doors,
            binds: List::new(alloc),
            freed: Vec::new(alloc),
            calls: CallPlan {
                failing,
                number: 0,
                faults: 0,
            },
        })
    }

    /// Lends the binds in order, failed ones among them.
    pub fn binds(&self) -> &[Bind]
        ensures { result.now ≡ self.now.binds }
    {
        self.binds.as_slice()
    }

    /// Lends the doors last given back.
    pub fn freed(&self) -> &[BoundDoor]
        ensures { result.now ≡ self.now.freed }
    {
        self.freed.as_slice()
    }
}

// Copies an address.
fn copied_address(alloc: Global, address: &Address) -> Result<Address, Memory>
    ensures { IfOk result (λ copy. copy ≡ address.now) }
{
    match address {
        Address::Unix(path) => Ok(Address::Unix(Text::of(alloc, path.as_str())?)),
        Address::Tcp { ip, port } => Ok(Address::Tcp {
            ip: *ip,
            port: *port,
        }),
    }
}

// Moves the first doors to a vector that has room for them, each cut to its connections.
fn move_doors(
    doors: &mut Vec<MemDoor>,
    made: &mut Vec<BoundDoor>,
    count: u64,
    connections: Option<u64>,
)
    requires none { made.old.items ≡ [] }
    requires room { count ≤ vec_capacity made.old }
    requires left { count ≤ length doors.old.items }
    requires fresh { All IsFresh (reverse doors.old.items) }
    ensures made { made.new.items ≡ map (cut connections) (take count (reverse doors.old.items)) }
    ensures rest { reverse doors.new.items ≡ drop count (reverse doors.old.items) }
    ensures fresh { All IsFresh (reverse doors.new.items) }
    ensures unused { All (λ door. IsUnused door.given 0 (Some (map visit_back door.back))) made.new.items }
    ensures within { All (λ door. IsWithin connections (Some (door.given + length door.coming)))
        made.new.items }
{
    for _ in 0..count {
        match doors.pop() {
            Some(door) => made.push_reserved(BoundDoor::new(door, connections)),
            None => unreachable!(),
        }
    }
}

impl Binder for MemBinder {
    ghost use Rattle.std.specs.Prelude.{Some};

    type Door = BoundDoor;

    ghost faults = { λ binder. binder.calls.faults };

    ghost binds = { λ binder. Some binder.binds };

    ghost freed = { λ binder. Some binder.freed };

    fn bind(
        &mut self,
        alloc: Global,
        address: &Address,
        doors: u64,
        connections: Option<u64>,
    ) -> Result<Vec<BoundDoor>, DialFault>
        ensures exact { BindsInMemory (λ made. made.items) self.old
            (record { address = address.now; doors = doors; connections = connections }) result self.new }
        ensures unused { IfOk result (λ made. All (λ door. IsUnused door.given 0 (Some (map visit_back door.back)))
            made.items) }
        ensures within { IfOk result (λ made. All (λ door. IsWithin connections (Some (door.given + length door.coming)))
            made.items) }
    {
        let bind = Bind {
            address: copied_address(alloc, address)?,
            doors,
            connections,
        };
        if self.calls.is_failing() || (self.doors.len() as u64) < doors {
            self.binds.push(bind)?;
            self.calls.count(true);
            return Err(DialFault::Failed);
        }
        let mut made = match Vec::with_capacity(alloc, doors as usize) {
            Ok(made) => made,
            Err(_) => {
                drop(bind);
                return Err(DialFault::Memory);
            }
        };
        if let Err(memory) = self.binds.push(bind) {
            drop(made);
            return Err(memory.into());
        }
        move_doors(&mut self.doors, &mut made, doors, connections);
        self.calls.count(false);
        Ok(made)
    }

    fn free(&mut self, doors: Vec<BoundDoor>)
        ensures exact { self.new ≡ record self.old { freed = doors.items } }
    {
        self.freed = doors;
    }
}
