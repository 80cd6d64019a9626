// What the objects in memory give and keep, call by call.
ghost use Rattle.std.specs.Prelude.{◌≡◌, false, IfOk};

use link_port::{
    Failed, FileFault, Files, List, MemFiles, MemSink, MemSource, Memory, Short, Sink, Source,
    SureSink, SureSource, Text, put_all,
};
use std::alloc::Global;
use std::test::Fail;

// A value beside one that was made, where it was made.
fn beside<H: Drop, T>(held: H, made: Result<T, Memory>) -> Result<(H, T), Memory> {
    match made {
        Ok(made) => Ok((held, made)),
        Err(memory) => {
            drop(held);
            Err(memory)
        }
    }
}

fn bytes(alloc: Global, text: &str) -> Result<List<u8>, Memory> {
    match Vec::from_slice(alloc, text.as_bytes()) {
        Ok(bytes) => Ok(List::from_vec(bytes)),
        Err(_) => Err(Memory),
    }
}

fn numbers(alloc: Global, numbers: &[u64]) -> Result<List<u64>, Memory> {
    match Vec::from_slice(alloc, numbers) {
        Ok(numbers) => Ok(List::from_vec(numbers)),
        Err(_) => Err(Memory),
    }
}

// The sizes and the failing calls of an object in memory.
fn plan(alloc: Global, sizes: &[u64], failing: &[u64]) -> Result<(List<u64>, List<u64>), Memory> {
    beside(numbers(alloc, sizes)?, numbers(alloc, failing))
}

// Whether takes through the trait alone, four bytes at most each time, give this.
fn gives<S: Source>(source: &mut S, wanted: &[(Result<usize, Failed>, [u8; 4])]) -> bool {
    let mut into = [b'-'; 4];
    for (given, bytes) in wanted {
        if source.take(&mut into) != *given || into != *bytes {
            return false;
        }
    }
    true
}

// Puts a piece and flushes, through the trait alone.
fn put_and_flush<K: Sink>(sink: &mut K, piece: &[u8]) -> (Result<(), Short>, Result<(), Failed>)
    requires { K.finished sink.old ≡ false }
    ensures { K.finished sink.new ≡ false }
{
    let put = put_all(sink, piece);
    (put, sink.flush())
}

fn mem_source(alloc: Global) -> Result<MemSource, Memory> {
    let (sizes, failing) = plan(alloc, &[2, 0], &[1])?;
    let (plans, bytes) = beside((sizes, failing), bytes(alloc, "abcdef"))?;
    let (sizes, failing) = plans;
    MemSource::new(alloc, bytes, sizes, failing)
}

#[test]
fn a_source_in_memory_gives_its_bytes_and_fails_as_planned(rt: HostRuntime) -> Result<(), Fail> {
    let mut source = mem_source(rt.alloc())?;
    let given = gives(
        &mut source,
        &[
            (Ok(2), *b"ab--"),
            (Err(Failed), *b"ab--"),
            (Ok(1), *b"cb--"),
            (Ok(3), *b"def-"),
            (Ok(0), *b"def-"),
        ],
    );
    drop(source);
    assert!(rt; given);
    Ok(())
}

fn mem_sink(alloc: Global) -> Result<MemSink, Memory>
    ensures { IfOk result (λ sink. sink.finished ≡ false) }
{
    let (sizes, failing) = plan(alloc, &[1, 2], &[3])?;
    MemSink::new(alloc, 5, sizes, failing)
}

// Whether the sink keeps what it takes, and fails as planned.
fn keeps(sink: &mut MemSink) -> bool
    requires { sink.old.finished ≡ false }
{
    let one = put_and_flush(sink, b"abcd") == (Ok(()), Err(Failed));
    let other = put_and_flush(sink, b"xyz") == (Err(Short { written: 1 }), Ok(()));
    one && other && sink.finish() == Ok(()) && sink.bytes() == b"abcdx".as_slice()
}

#[test]
fn a_sink_in_memory_keeps_its_bytes_and_fails_as_planned(rt: HostRuntime) -> Result<(), Fail> {
    let mut sink = mem_sink(rt.alloc())?;
    let kept = keeps(&mut sink);
    drop(sink);
    assert!(rt; kept);
    Ok(())
}

// Whether a sink that never fails takes and finishes.
fn takes_all(sink: &mut SureSink) -> bool
    requires { sink.old ≡ false }
{
    put_and_flush(sink, b"abc") == (Ok(()), Ok(())) && sink.finish() == Ok(())
}

#[test]
fn a_sure_source_and_a_sure_sink_never_fail(rt: HostRuntime) -> Result<(), Fail> {
    let mut source = SureSource::new(rt.alloc(), bytes(rt.alloc(), "abcde")?)?;
    let given = gives(
        &mut source,
        &[(Ok(4), *b"abcd"), (Ok(1), *b"ebcd"), (Ok(0), *b"ebcd")],
    );
    drop(source);
    assert!(rt; given && takes_all(&mut SureSink::new()));
    Ok(())
}

fn mem_files(alloc: Global) -> Result<MemFiles, Memory> {
    let file = beside(Text::of(alloc, "one")?, bytes(alloc, "abc"))?;
    let mut files = List::new(alloc);
    let pushed = files.push(file);
    let ((files, ()), failing) = beside(beside(files, pushed)?, numbers(alloc, &[2]))?;
    MemFiles::new(alloc, files, failing)
}

// Reads a file through the trait alone, and gives its length.
fn read_length<F: Files>(
    files: &mut F,
    alloc: Global,
    path: &str,
    most: u64,
) -> Result<u64, FileFault> {
    let content = files.read(alloc, path, most)?;
    Ok(content.len())
}

// Whether reads in a row give this: the length, or the fault.
fn reads(
    files: &mut MemFiles,
    alloc: Global,
    wanted: &[(&str, u64, Result<u64, FileFault>)],
) -> bool {
    for (path, most, length) in wanted {
        if read_length(files, alloc, path, *most) != *length {
            return false;
        }
    }
    true
}

#[test]
fn files_in_memory_are_read_whole_and_fail_as_planned(rt: HostRuntime) -> Result<(), Fail> {
    let alloc = rt.alloc();
    let mut files = mem_files(alloc)?;
    let read = reads(
        &mut files,
        alloc,
        &[
            ("one", 3, Ok(3)),
            ("one", 2, Err(FileFault::TooLong)),
            ("one", 3, Err(FileFault::Failed)),
            ("two", 3, Err(FileFault::Failed)),
        ],
    );
    drop(files);
    assert!(rt; read);
    Ok(())
}
