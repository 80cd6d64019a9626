// The real files: what is given of a file is what the system's reader gives of it. They count each error
// of the system.
ghost use Rattle.std.specs.Prelude.{◌≡◌, ◌+◌, ◌-◌, ◌^◌, IfOk, IfSome, IsErr, OnErr, min, take};
ghost use Rattle.link_port.specs.FileReads.{AnswersFile, CountsFault};

use link_port::{FileFault, Files, List};
use std::alloc::Global;
use std::io::{ErrorKind, Read};
use std::{fs, io, rt};

/// The files of the system.
#[derive(Debug, Drop)]
pub struct RealFiles<R> {
    system: R,
    faults: u64,
}

impl<R: rt::Files> RealFiles<R> {
    /// The files of a system, without a fault so far.
    pub fn new(system: R) -> RealFiles<R>
        ensures { ⟦<RealFiles<R> as Files>⟧.faults result ≡ 0 }
    {
        RealFiles { system, faults: 0 }
    }
}

impl<R> RealFiles<R> {
    // The answer to a read that gave so much, or an error of the system.
    fn answer(&mut self, read: io::Result<Vec<u8>>, most: u64) -> Result<List<u8>, FileFault>
        ensures given { IfOk read (λ bytes. AnswersFile bytes.items most result) }
        ensures fault { CountsFault self.old.faults self.new.faults result }
        ensures none_given { OnErr read (IsErr result) }
    {
        match read {
            Ok(bytes) if bytes.len() as u64 > most => Err(FileFault::TooLong),
            Ok(bytes) => Ok(List::from_vec(bytes)),
            Err(error) if error.kind() == ErrorKind::OutOfMemory => Err(FileFault::Memory),
            Err(_) => {
                self.faults = self.faults.saturating_add(1);
                Err(FileFault::Failed)
            }
        }
    }
}

impl<R: rt::Files> Files for RealFiles<R> {
    ghost faults = { λ files. files.faults };

    fn read(&mut self, alloc: Global, path: &str, most: u64) -> Result<List<u8>, FileFault> {
        let read = match fs::open(&self.system, path) {
            Ok(file) => read_past(alloc, file, most),
            Err(error) => Err(error),
        };
        self.answer(read, most)
    }
}

// All that the reader has left, or `most` bytes of it and one more.
fn read_past<T: Read + Drop>(alloc: Global, reader: T, most: u64) -> io::Result<Vec<u8>>
    ensures { IfOk result (λ bytes. IfSome (T.remaining reader)
        (λ left. bytes.items ≡ take (min (most + 1) (2 ^ 64 - 1)) left)) }
{
    let mut bytes = Vec::new(alloc);
    reader.take(most.saturating_add(1)).read_to_end(&mut bytes)?;
    Ok(bytes)
}
