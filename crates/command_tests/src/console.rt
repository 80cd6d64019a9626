// The ends of the real console, over readers and writers of the tests, and the real files.

use link_port::{FileFault, Files, List, Sink, Source};
use std::io::{ErrorKind, Read, Write};
use std::{fs, io};
use varlink_command::{RealFiles, RealInput, RealOutput};

/// A reader or a writer whose first calls a signal comes between, and which takes two bytes at a time.
#[derive(Drop)]
struct Signalled<T> {
    inner: T,
    signals: u8,
}

impl<T> Signalled<T> {
    fn come(&mut self) -> io::Result<()> {
        if self.signals == 0 {
            return Ok(());
        }
        self.signals -= 1;
        Err(io::Error::from(ErrorKind::Interrupted))
    }
}

impl<R: Read> Read for Signalled<R> {
    fn read(&mut self, buf: &mut [u8]) -> io::Result<usize> {
        self.come()?;
        self.inner.read(buf)
    }
}

impl<W: Write> Write for Signalled<W> {
    fn write(&mut self, buf: &[u8]) -> io::Result<usize> {
        self.come()?;
        self.inner.write(&buf[..buf.len().min(2)])
    }

    fn flush(&mut self) -> io::Result<()> {
        self.inner.flush()
    }
}

/// Whether `abc` comes in pieces of two bytes, whatever signals come between.
fn gives_abc<R: Read>(input: &mut RealInput<R>) -> bool {
    let mut into = [0; 2];
    input.take(&mut into) == Ok(2)
        && into == *b"ab"
        && input.take(&mut into) == Ok(1)
        && into == *b"cb"
        && input.take(&mut into) == Ok(0)
}

#[test]
fn the_input_gives_what_the_reader_gives(rt: HostRuntime) {
    let mut input = RealInput::new(Signalled {
        inner: b"abc".as_slice(),
        signals: 2,
    });
    assert!(rt; gives_abc(&mut input));
}

/// Whether `abc` goes in pieces of two bytes, whatever signals come between.
fn takes_abc<W: Write>(output: &mut RealOutput<W>) -> bool {
    output.put(b"abc") == Ok(2) && output.put(b"c") == Ok(1) && output.finish() == Ok(())
}

#[test]
fn the_output_puts_what_the_writer_takes(rt: HostRuntime) {
    let mut room = [0; 4];
    let mut output = RealOutput::new(Signalled {
        inner: room.as_mut_slice(),
        signals: 3,
    });
    assert!(rt; takes_abc(&mut output));
    assert!(rt; room == *b"abc\0");
}

/// Whether the read is refused so.
fn is_refused(read: Result<List<u8>, FileFault>, wanted: FileFault) -> bool {
    match read {
        Ok(_) => false,
        Err(fault) => fault == wanted,
    }
}

fn is_abc(read: Result<List<u8>, FileFault>) -> bool {
    match read {
        Ok(bytes) => bytes.as_slice() == b"abc".as_slice(),
        Err(_) => false,
    }
}

#[test]
fn the_files_give_what_the_files_hold(rt: HostRuntime) {
    let alloc = rt.alloc();
    assert!(rt; fs::write(&rt, "held", b"abc").is_ok());
    let mut files = RealFiles::new(rt);
    assert!(rt; is_abc(files.read(alloc, "held", 3)));
    assert!(rt; is_refused(files.read(alloc, "held", 2), FileFault::TooLong));
    assert!(rt; is_refused(files.read(alloc, "/dev/zero", 5), FileFault::TooLong));
    assert!(rt; is_refused(files.read(alloc, "missing", 5), FileFault::Failed));
    assert!(rt; is_refused(files.read(alloc, ".", 5), FileFault::Failed));
}
