// How many calls of the system failed.
ghost use Rattle.std.specs.Prelude.{◌≡◌, Ok, IfOk, IsErr, OnOk, OnErr};
ghost use Rattle.link_port.specs.Faults.{Rises};
ghost use Rattle.link_reach.specs.Deeds.{CountsFault};

use link_port::Failed;
use link_reach::DialFault;
use std::io;
use std::io::ErrorKind;

/// How many calls of the system failed. The count stands still at the greatest 64-bit number.
#[derive(Debug, Drop)]
pub struct FaultCount {
    count: u64,
}

impl FaultCount {
    /// None failed yet.
    pub fn new() -> FaultCount
        ensures { result.count ≡ 0 }
    {
        FaultCount { count: 0 }
    }

    /// Counts a call that failed.
    pub fn count(&mut self)
        ensures { Rises self.old.count self.new.count }
    {
        self.count = self.count.saturating_add(1);
    }

    /// What a call gave. An error that is no want of memory is counted.
    pub fn told<T>(&mut self, outcome: io::Result<T>) -> Result<T, DialFault>
        ensures given { IfOk outcome (λ x. result ≡ Ok x) }
        ensures fault { CountsFault self.old.count self.new.count result }
        ensures none_given { OnErr outcome (IsErr result) }
    {
        match outcome {
            Ok(given) => Ok(given),
            Err(error) if error.kind() == ErrorKind::OutOfMemory => Err(DialFault::Memory),
            Err(_) => {
                self.count();
                Err(DialFault::Failed)
            }
        }
    }

    /// What a call gave. Every error is counted.
    pub fn told_failed<T>(&mut self, outcome: io::Result<T>) -> Result<T, Failed>
        ensures given { IfOk outcome (λ x. result ≡ Ok x) }
        ensures sound { OnOk result (self.new.count ≡ self.old.count) }
        ensures fault { OnErr result (Rises self.old.count self.new.count) }
        ensures none_given { OnErr outcome (IsErr result) }
    {
        match outcome {
            Ok(given) => Ok(given),
            Err(_) => {
                self.count();
                Err(Failed)
            }
        }
    }
}
