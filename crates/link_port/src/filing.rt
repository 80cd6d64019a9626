// Files that are read whole.
ghost use Rattle.std.specs.Prelude.{◌≡◌, ◌≤◌, ◌++◌, ◌∷◌, ℕ, [], List, None, Some, Ok, IfOk, IfSome, OnOk, OnErr, length};
ghost use Rattle.std.specs.declared.option.Option.{Option};
ghost use Rattle.std.specs.Option.{option_copied};
ghost use Rattle.link_port.specs.FileReads.{AnswersFile, AnswersFound, CountsFault, paths_after, content_of, found_by};
ghost use Rattle.link_port.specs.Planned.{after_call};

use crate::lists::List;
use crate::planned_calls::CallPlan;
use crate::refusals::Memory;
use crate::texts::Text;
use std::alloc::Global;
use std::marker::Model;

/// Why a file was not read.
#[derive(Debug, Clone, Copy, PartialEq, Eq)]
pub enum FileFault {
    /// The files failed.
    Failed,
    /// The file holds more bytes than were asked for.
    TooLong,
    /// Memory was asked for and not granted.
    Memory,
}

impl From<Memory> for FileFault {
    ghost use Rattle.std.specs.Prelude.{◌≡◌};
    ghost use Rattle.link_port.specs.declared.filing.FileFault.TheVariants as fault;

    ghost from_gives = { λ _ made. made ≡ fault.Memory };

    fn from(_memory: Memory) -> FileFault {
        FileFault::Memory
    }
}

/// Files that are read whole.
///
/// What they hold, and which paths were read, they tell or do not; they count their faults. The
/// count stands still at the greatest 64-bit number.
pub trait Files {
    /// What the file at this path holds, where that is told.
    ghost holds: { Self → List ℕ → Option (List ℕ) } = { λ _ _. None };

    /// The paths of all reads in order, failed ones among them, where they are told.
    ghost paths: { Self → Option (List (List ℕ)) } = { λ _. None };

    /// How many reads failed.
    ghost faults: { Self → ℕ } = { λ _. 0 };

    /// Gives all that the file at `path` holds, which is at most `most` bytes.
    ///
    /// It is `TooLong` exactly where the file holds more, and fails only where the count of faults
    /// rises. After `Memory` nothing was read.
    fn read(&mut self, alloc: Global, path: &str, most: u64) -> Result<List<u8>, FileFault>
        ensures bound { IfOk result (λ bytes. length bytes ≤ most) }
        ensures content { IfSome (holds self.old path.now) (λ content. AnswersFile content most result) }
        ensures fault { CountsFault (faults self.old) (faults self.new) result }
        ensures asked { IfSome (paths self.old)
            (λ before. paths self.new ≡ Some (paths_after before path.now result)) }
        ensures kept { (name : List ℕ) → holds self.new name ≡ holds self.old name };
}

/// Files in memory, some reads of which fail as planned.
#[derive(Debug, Drop)]
pub struct MemFiles {
    files: List<(Text, List<u8>)>,
    calls: CallPlan,
    paths: List<Text>,
}

impl Model for MemFiles {
    ghost use Rattle.std.specs.Option.{option_copied};
    ghost use Rattle.link_port.specs.FileReads.{FilesInMemory};

    ghost Value = { FilesInMemory };

    ghost view = { λ it. record { files = it.files; calls = it.calls; paths = it.paths } };
}

impl MemFiles {
    /// Files by name and content; of a name that stands twice the first content counts. `failing`
    /// lists the numbers of the reads that fail, where the first read has the number 0. A read of a
    /// name that is not listed fails too.
    pub fn new(
        alloc: Global,
        files: List<(Text, List<u8>)>,
        failing: List<u64>,
    ) -> Result<MemFiles, Memory>
        ensures { result ≡ Ok (record {
          files = files;
          paths = [];
          calls = record { failing = failing; number = 0; faults = 0 };
        }) }
    {
        Ok(MemFiles {
            files,
            calls: CallPlan::new(failing),
            paths: List::new(alloc),
        })
    }

    // What the next read finds.
    fn found(&self, path: &str) -> Option<&List<u8>>
        ensures { option_copied result ≡ found_by self.now path.now }
    {
        if self.calls.is_failing() {
            None
        } else {
            first_content(self.files.as_slice(), path)
        }
    }

    // Records a read, which failed or did not. After want of memory nothing was recorded.
    fn record_read(&mut self, alloc: Global, path: &str, failed: bool) -> Result<(), Memory>
        ensures ok { OnOk result (self.new ≡ record {
          files = self.old.files;
          calls = after_call failed self.old.calls;
          paths = self.old.paths ++ path.now ∷ [];
        }) }
        ensures memory { OnErr result (self.new ≡ self.old) }
    {
        self.paths.push(Text::of(alloc, path)?)?;
        self.calls.count(failed);
        Ok(())
    }
}

impl Files for MemFiles {
    ghost use Rattle.std.specs.Prelude.{Some};
    ghost use Rattle.link_port.specs.FileReads.{content_of, ReadsInMemory};

    ghost holds = { λ it path. content_of it.files path };

    ghost paths = { λ it. Some it.paths };

    ghost faults = { λ it. it.calls.faults };

    fn read(&mut self, alloc: Global, path: &str, most: u64) -> Result<List<u8>, FileFault>
        ensures exact { ReadsInMemory self.old path.now most result self.new }
    {
        match answer_of(alloc, self.found(path), most) {
            Ok(bytes) => match self.record_read(alloc, path, false) {
                Ok(()) => Ok(bytes),
                Err(Memory) => {
                    drop(bytes);
                    Err(FileFault::Memory)
                }
            },
            Err(FileFault::TooLong) => {
                self.record_read(alloc, path, false)?;
                Err(FileFault::TooLong)
            }
            Err(FileFault::Failed) => {
                self.record_read(alloc, path, true)?;
                Err(FileFault::Failed)
            }
            Err(FileFault::Memory) => Err(FileFault::Memory),
        }
    }
}

// What the first file of this name holds.
fn first_content<'a>(files: &'a [(Text, List<u8>)], path: &str) -> Option<&'a List<u8>>
    ensures { option_copied result ≡ content_of files.now path.now }
{
    for (name, content) in files {
        if name.as_str() == path {
            return Some(content);
        }
    }
    None
}

// The answer to a read that found this content, or nothing.
fn answer_of(alloc: Global, found: Option<&List<u8>>, most: u64) -> Result<List<u8>, FileFault>
    ensures { AnswersFound (option_copied found.entry) most result }
{
    match found {
        None => Err(FileFault::Failed),
        Some(content) if content.len() > most => Err(FileFault::TooLong),
        Some(content) => match Vec::from_slice(alloc, content.as_slice()) {
            Ok(bytes) => Ok(List::from_vec(bytes)),
            Err(_) => Err(FileFault::Memory),
        },
    }
}
