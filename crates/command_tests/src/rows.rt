// One command over ends in memory: what it is given, and whether it leaves what it must.
ghost use Rattle.std.specs.Prelude.{◌≡◌, false, IfOk};

use link_port::{List, MemFiles, MemSink, MemSource, Memory, Text};
use std::alloc::Global;
use varlink_command::{Desktop, Status, offline};

type Fake = Desktop<MemSource, MemSink, MemSink, MemFiles>;

/// What a command is given, and what it must leave.
#[derive(Clone, Copy)]
pub struct Row<'a> {
    pub words: &'a [&'a str],
    /// The bytes of the input.
    pub input: &'a [u8],
    /// The greatest sizes of the takes.
    pub sizes: &'a [u64],
    /// The numbers of the takes that fail.
    pub failing_takes: &'a [u64],
    /// The numbers of the puts that fail.
    pub failing_puts: &'a [u64],
    /// The text of the file `d`.
    pub file: &'a str,
    /// The text of the file `n`.
    pub other: &'a str,
    pub output: &'a [u8],
    pub status: u8,
    /// What stands behind `varlink: ` on the line of the fault.
    pub line: &'a str,
}

/// No words, over an empty input and an empty file.
pub const NOTHING: Row<'static> = Row {
    words: &[],
    input: b"",
    sizes: &[],
    failing_takes: &[],
    failing_puts: &[],
    file: "",
    other: "",
    output: b"",
    status: 0,
    line: "",
};

/// Whether each row leaves what it must.
pub fn are_right(alloc: Global, rows: &[Row<'_>]) -> bool {
    for row in rows {
        if is_right(alloc, row) != Ok(true) {
            return false;
        }
    }
    true
}

fn is_right(alloc: Global, row: &Row<'_>) -> Result<bool, Memory> {
    let words = texts(alloc, row.words)?;
    match world(alloc, row) {
        Ok(world) => Ok(leaves(alloc, &words, world, row)),
        Err(memory) => {
            drop(words);
            Err(memory)
        }
    }
}

/// Whether the command of these words leaves what the row says.
fn leaves(alloc: Global, words: &[Text], world: Fake, row: &Row<'_>) -> bool
    requires output { world.output.finished ≡ false }
    requires faults { world.faults.finished ≡ false }
{
    let mut world = world;
    let status = offline(alloc, words, &mut world);
    let is_right = status == Status(row.status)
        && world.output.bytes() == row.output
        && is_line(world.faults.bytes(), row.line);
    drop(world);
    is_right
}

/// Whether the line of the fault is the wanted one.
fn is_line(line: &[u8], wanted: &str) -> bool {
    if wanted.is_empty() {
        return line.is_empty();
    }
    match line.strip_prefix(b"varlink: ".as_slice()) {
        Some(text) => text.strip_suffix(b"\n".as_slice()) == Some(wanted.as_bytes()),
        None => false,
    }
}

fn world(alloc: Global, row: &Row<'_>) -> Result<Fake, Memory>
    ensures output { IfOk result (λ world. world.output.finished ≡ false) }
    ensures faults { IfOk result (λ world. world.faults.finished ≡ false) }
{
    let (input, files) = beside(source(alloc, row)?, files(alloc, row))?;
    let output = match sink(alloc, row.failing_puts) {
        Ok(output) => output,
        Err(memory) => {
            drop((input, files));
            return Err(memory);
        }
    };
    match sink(alloc, &[]) {
        Ok(faults) => Ok(Desktop {
            input,
            output,
            faults,
            files,
        }),
        Err(memory) => {
            drop((input, files, output));
            Err(memory)
        }
    }
}

fn source(alloc: Global, row: &Row<'_>) -> Result<MemSource, Memory> {
    let (input, sizes) = beside(list(alloc, row.input)?, list(alloc, row.sizes))?;
    let ((input, sizes), failing) = beside((input, sizes), list(alloc, row.failing_takes))?;
    MemSource::new(alloc, input, sizes, failing)
}

fn sink(alloc: Global, failing: &[u64]) -> Result<MemSink, Memory>
    ensures { IfOk result (λ sink. sink.finished ≡ false) }
{
    MemSink::new(alloc, 8192, List::new(alloc), list(alloc, failing)?)
}

fn files(alloc: Global, row: &Row<'_>) -> Result<MemFiles, Memory> {
    let mut files = List::new(alloc);
    files.push(held(alloc, "d", row.file)?)?;
    match held(alloc, "n", row.other) {
        Ok(other) => files.push(other)?,
        Err(memory) => {
            drop(files);
            return Err(memory);
        }
    }
    MemFiles::new(alloc, files, List::new(alloc))
}

/// A file of this name and text.
fn held(alloc: Global, name: &str, text: &str) -> Result<(Text, List<u8>), Memory> {
    beside(Text::of(alloc, name)?, list(alloc, text.as_bytes()))
}

fn texts(alloc: Global, words: &[&str]) -> Result<Vec<Text>, Memory> {
    let mut texts = List::new(alloc);
    for word in words {
        let text = Text::of(alloc, word)?;
        texts.push(text)?;
    }
    Ok(texts.into_vec())
}

fn list<T: Copy>(alloc: Global, from: &[T]) -> Result<List<T>, Memory> {
    Ok(List::from_vec(Vec::from_slice(alloc, from)?))
}

/// What is held, and what was made beside it; where that was not made, what is held is let go.
fn beside<H: Drop, T>(held: H, made: Result<T, Memory>) -> Result<(H, T), Memory> {
    match made {
        Ok(made) => Ok((held, made)),
        Err(memory) => {
            drop(held);
            Err(memory)
        }
    }
}
