// Two doors in memory with one connection each, and what is left on them.
ghost use Rattle.std.specs.Prelude.{◌≡◌, [], All, IfOk, length};
ghost use Rattle.link_doors.specs.Connections.{IsNewInMemory};

use link_doors::{Leave, MemConn, MemDoor};
use link_port::{List, MemSink, MemSource, Memory};
use std::alloc::Global;

/// A connection whose peer says these bytes.
fn connection(alloc: Global, says: &str) -> Result<MemConn, Memory>
    ensures { IfOk result IsNewInMemory }
{
    let bytes = List::from_vec(Vec::from_slice(alloc, says.as_bytes())?);
    let source = MemSource::new(alloc, bytes, List::new(alloc), List::new(alloc))?;
    match MemSink::new(alloc, 4096, List::new(alloc), List::new(alloc)) {
        Ok(sink) => Ok(MemConn::new(source, sink)),
        Err(memory) => {
            drop(source);
            Err(memory)
        }
    }
}

/// A door for one connection.
fn door(alloc: Global, says: &str) -> Result<MemDoor, Memory>
    ensures { IfOk result (λ door. (door.given ≡ 0) × (door.back ≡ [])) }
{
    let connection = connection(alloc, says)?;
    match vec![in alloc; connection] {
        Ok(connections) => MemDoor::new(alloc, List::from_vec(connections)),
        Err(failed) => {
            drop(failed);
            Err(Memory)
        }
    }
}

/// Two doors for one connection each.
pub fn doors(alloc: Global, says: [&str; 2]) -> Result<Vec<MemDoor>, Memory>
    ensures few { IfOk result (λ doors. length doors.items ≡ 2) }
    ensures none { IfOk result (λ doors. All (λ door. (door.given ≡ 0) × (door.back ≡ [])) doors.items) }
{
    let one = door(alloc, says[0])?;
    let two = match door(alloc, says[1]) {
        Ok(two) => two,
        Err(memory) => {
            drop(one);
            return Err(memory);
        }
    };
    match vec![in alloc; one, two] {
        Ok(doors) => Ok(doors),
        Err(failed) => {
            drop(failed);
            Err(Memory)
        }
    }
}

/// Whether this door got its one connection back with these bytes and so many entries.
pub fn is_left(door: &MemDoor, bytes: &str, entries: u64) -> bool {
    match door.returned() {
        [returned] => {
            returned.conn.written() == bytes.as_bytes()
                && returned.leave == Leave::Whole
                && returned.entries == entries
        }
        _ => false,
    }
}
