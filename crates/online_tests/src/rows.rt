// One command over ends and links in memory: what it is given, and whether it leaves what it must.
ghost use Rattle.std.specs.Prelude.{◌≡◌, false, IfOk};

use door_binder::MemBinder;
use link_doors::{Address, OpenGate};
use link_port::{List, MemFiles, MemSink, MemSource, Memory, Text};
use link_reach::{Deed, MemReach};
use network_command::{Network, online};
use std::alloc::Global;
use std::sync::Wait;
use std::thread::Threads;
use varlink_command::{Desktop, Status};

type Fake = Network<MemSource, MemSink, MemSink, MemFiles, MemReach, MemBinder, OpenGate>;

/// What a command is given, and what it must leave.
#[derive(Clone, Copy)]
pub struct Row<'a> {
    /// The words, between spaces.
    pub words: &'a str,
    /// What the links say, in the order in which they are dialled.
    pub links: &'a [&'a [u8]],
    /// How many spaces the first link says before that.
    pub spaces: usize,
    /// The numbers of the calls of the reach that fail.
    pub failing: &'a [u64],
    /// The numbers of the puts that fail.
    pub failing_puts: &'a [u64],
    /// What is dialled, in order: the paths of addresses, and the programs that are started.
    pub dialled: &'a [&'a str],
    /// What is sent on all links, one after the other.
    pub sent: &'a [u8],
    pub output: &'a [u8],
    pub status: u8,
    /// What stands behind `varlink: ` on the line of the fault.
    pub line: &'a str,
}

/// No words and no links.
pub const NOTHING: Row<'static> = Row {
    words: "",
    links: &[],
    spaces: 0,
    failing: &[],
    failing_puts: &[],
    dialled: &[],
    sent: b"",
    output: b"",
    status: 0,
    line: "",
};

/// Whether each row leaves what it must.
pub fn are_right<R: Threads + Wait + Sync>(rt: &R, alloc: Global, rows: &[Row<'_>]) -> bool {
    for row in rows {
        if is_right(rt, alloc, row) != Ok(true) {
            return false;
        }
    }
    true
}

fn is_right<R: Threads + Wait + Sync>(
    rt: &R,
    alloc: Global,
    row: &Row<'_>,
) -> Result<bool, Memory> {
    let words = texts(alloc, row.words)?;
    match world(alloc, row) {
        Ok(world) => Ok(leaves(rt, alloc, words.as_slice(), world, row)),
        Err(memory) => {
            drop(words);
            Err(memory)
        }
    }
}

// Whether the command of these words leaves what the row says.
fn leaves<R: Threads + Wait + Sync>(
    rt: &R,
    alloc: Global,
    words: &[Text],
    world: Fake,
    row: &Row<'_>,
) -> bool
    requires output { world.desktop.output.finished ≡ false }
    requires faults { world.desktop.faults.finished ≡ false }
{
    let mut world = world;
    let status = online(rt, alloc, words, &mut world);
    let is_right = status == Status(row.status)
        && world.desktop.output.bytes() == row.output
        && is_line(world.desktop.faults.bytes(), row.line)
        && world.binder.binds().is_empty()
        && are_dialled(world.reach.deeds(), row.dialled)
        && is_sent(world.reach.deeds(), row.sent);
    drop(world);
    is_right
}

// Whether the line of the fault is the wanted one.
pub fn is_line(line: &[u8], wanted: &str) -> bool {
    if wanted.is_empty() {
        return line.is_empty();
    }
    match line.strip_prefix(b"varlink: ".as_slice()) {
        Some(text) => text.strip_suffix(b"\n".as_slice()) == Some(wanted.as_bytes()),
        None => false,
    }
}

// Whether these are all that was dialled, in order.
fn are_dialled(deeds: &[Deed], wanted: &[&str]) -> bool {
    let mut left = wanted;
    for deed in deeds {
        let Some(dialled) = dialled_by(deed) else {
            continue;
        };
        let [first, rest @ ..] = left else {
            return false;
        };
        if *first != dialled {
            return false;
        }
        left = rest;
    }
    left.is_empty()
}

// What a deed dials or starts, if it does.
fn dialled_by(deed: &Deed) -> Option<&str> {
    match deed {
        Deed::Dialled(Address::Unix(path)) => Some(path.as_str()),
        Deed::Dialled(_) => Some("tcp"),
        Deed::Started { program, .. } => Some(program.as_str()),
        _ => None,
    }
}

// Whether this is all that was sent.
fn is_sent(deeds: &[Deed], wanted: &[u8]) -> bool {
    let mut left = wanted;
    for deed in deeds {
        let Deed::Sent { bytes, .. } = deed else {
            continue;
        };
        match left.strip_prefix(bytes.as_slice()) {
            Some(rest) => left = rest,
            None => return false,
        }
    }
    left.is_empty()
}

fn world(alloc: Global, row: &Row<'_>) -> Result<Fake, Memory>
    ensures output { IfOk result (λ world. world.desktop.output.finished ≡ false) }
    ensures faults { IfOk result (λ world. world.desktop.faults.finished ≡ false) }
{
    let desktop = desktop(alloc, row)?;
    let reach = match reach(alloc, row) {
        Ok(reach) => reach,
        Err(memory) => {
            drop(desktop);
            return Err(memory);
        }
    };
    match MemBinder::new(alloc, Vec::new(alloc), List::new(alloc)) {
        Ok(binder) => Ok(Network {
            desktop,
            reach,
            binder,
            gate: OpenGate::new(),
        }),
        Err(memory) => {
            drop((desktop, reach));
            Err(memory)
        }
    }
}

fn desktop(
    alloc: Global,
    row: &Row<'_>,
) -> Result<Desktop<MemSource, MemSink, MemSink, MemFiles>, Memory>
    ensures output { IfOk result (λ desktop. desktop.output.finished ≡ false) }
    ensures faults { IfOk result (λ desktop. desktop.faults.finished ≡ false) }
{
    let (input, files) = beside(source(alloc)?, files(alloc))?;
    let output = match sink(alloc, row.failing_puts) {
        Ok(output) => output,
        Err(memory) => {
            drop((input, files));
            return Err(memory);
        }
    };
    match sink(alloc, &[]) {
        Ok(faults) => Ok(Desktop {
            input,
            output,
            faults,
            files,
        }),
        Err(memory) => {
            drop((input, files, output));
            Err(memory)
        }
    }
}

pub fn source(alloc: Global) -> Result<MemSource, Memory> {
    MemSource::new(alloc, List::new(alloc), List::new(alloc), List::new(alloc))
}

pub fn sink(alloc: Global, failing: &[u64]) -> Result<MemSink, Memory>
    ensures { IfOk result (λ sink. sink.finished ≡ false) }
{
    MemSink::new(alloc, 8192, List::new(alloc), list(alloc, failing)?)
}

fn files(alloc: Global) -> Result<MemFiles, Memory> {
    MemFiles::new(alloc, List::new(alloc), List::new(alloc))
}

// The reach whose links say what the row says.
fn reach(alloc: Global, row: &Row<'_>) -> Result<MemReach, Memory> {
    let (links, failing) = beside(links(alloc, row)?, list(alloc, row.failing))?;
    match MemReach::new(alloc, links) {
        Ok(reach) => Ok(reach.failing(failing)),
        Err(memory) => {
            drop(failing);
            Err(memory)
        }
    }
}

fn links(alloc: Global, row: &Row<'_>) -> Result<List<List<u8>>, Memory> {
    let mut links = List::new(alloc);
    let mut spaces = row.spaces;
    for says in row.links {
        let link = spaced(alloc, spaces, says)?;
        spaces = 0;
        links.push(link)?;
    }
    Ok(links)
}

// These bytes behind so many spaces.
fn spaced(alloc: Global, spaces: usize, bytes: &[u8]) -> Result<List<u8>, Memory> {
    let mut all = Vec::with_capacity(alloc, spaces)?;
    all.resize(spaces, b' ')?;
    all.extend_from_slice(bytes)?;
    Ok(List::from_vec(all))
}

// The words of a line, between spaces.
pub fn texts(alloc: Global, line: &str) -> Result<List<Text>, Memory> {
    let mut words = List::new(alloc);
    for word in line.split(' ') {
        let word = Text::of(alloc, word)?;
        words.push(word)?;
    }
    Ok(words)
}

pub fn list<T: Copy>(alloc: Global, from: &[T]) -> Result<List<T>, Memory> {
    Ok(List::from_vec(Vec::from_slice(alloc, from)?))
}

// What is held, and what was made beside it; where that was not made, what is held is let go.
pub fn beside<H: Drop, T>(held: H, made: Result<T, Memory>) -> Result<(H, T), Memory> {
    match made {
        Ok(made) => Ok((held, made)),
        Err(memory) => {
            drop(held);
            Err(memory)
        }
    }
}
