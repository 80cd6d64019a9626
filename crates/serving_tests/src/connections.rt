// Two connections of a door in memory, and what is left on them.
ghost use Rattle.std.specs.Prelude.{◌≡◌, false, [], IfOk};
ghost use Rattle.link_doors.specs.Connections.{IsNewInMemory};

use link_doors::{Leave, MemConn, MemDoor, Returned};
use link_port::{List, MemSink, MemSource, Memory};
use std::alloc::Global;

/// What the peers of two connections say, and what each must be left with: the bytes written, how it left, and the
/// number of entries that it made.
#[derive(Clone, Copy)]
pub struct Row<'a> {
    pub says: [&'a str; 2],
    /// The numbers of the takes of the first connection that fail.
    pub failing_takes: &'a [u64],
    /// The numbers of its puts that fail.
    pub failing_puts: &'a [u64],
    pub leaves: [(&'a str, Leave, u64); 2],
}

fn numbers(alloc: Global, numbers: &[u64]) -> Result<List<u64>, Memory> {
    Ok(List::from_vec(Vec::from_slice(alloc, numbers)?))
}

/// A connection whose peer says these bytes.
fn connection(
    alloc: Global,
    says: &str,
    failing_takes: &[u64],
    failing_puts: &[u64],
) -> Result<MemConn, Memory>
    ensures { IfOk result IsNewInMemory }
{
    let bytes = List::from_vec(Vec::from_slice(alloc, says.as_bytes())?);
    let takes = numbers(alloc, failing_takes)?;
    let source = MemSource::new(alloc, bytes, List::new(alloc), takes)?;
    match sink(alloc, failing_puts) {
        Ok(sink) => Ok(MemConn::new(source, sink)),
        Err(memory) => {
            drop(source);
            Err(memory)
        }
    }
}

fn sink(alloc: Global, failing: &[u64]) -> Result<MemSink, Memory>
    ensures { IfOk result (λ sink. (sink.written ≡ []) × (sink.calls.faults ≡ 0) × (sink.finished ≡ false)) }
{
    let puts = numbers(alloc, failing)?;
    MemSink::new(alloc, 4096, List::new(alloc), puts)
}

/// A door for the two connections.
pub fn door(alloc: Global, row: &Row<'_>) -> Result<MemDoor, Memory>
    ensures { IfOk result (λ door. (door.given ≡ 0) × (door.back ≡ [])) }
{
    let one = connection(alloc, row.says[0], row.failing_takes, row.failing_puts)?;
    let two = match connection(alloc, row.says[1], &[], &[]) {
        Ok(two) => two,
        Err(memory) => {
            drop(one);
            return Err(memory);
        }
    };
    match vec![in alloc; one, two] {
        Ok(connections) => MemDoor::new(alloc, List::from_vec(connections)),
        Err(failed) => {
            drop(failed);
            Err(Memory)
        }
    }
}

/// Whether just these two connections were given back, so.
pub fn are_left(door: &MemDoor, row: &Row<'_>) -> bool {
    match door.returned() {
        [one, two] => is_left(one, row.leaves[0]) && is_left(two, row.leaves[1]),
        _ => false,
    }
}

fn is_left(returned: &Returned, wanted: (&str, Leave, u64)) -> bool {
    returned.conn.written() == wanted.0.as_bytes()
        && returned.leave == wanted.1
        && returned.entries == wanted.2
}
