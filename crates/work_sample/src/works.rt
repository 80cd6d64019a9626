// What the work comes to.
ghost use Rattle.std.specs.Prelude.{◌≡◌, ◌≤◌};
ghost use Rattle.work_sample.specs.Texts.{work_sheet as sheet_text, work_calls as calls_text};
ghost use Rattle.work_sample.specs.Works.{Works, WorksBy, ReadsSheet, Serves, ended_of, is_memory as memory, total_of};

use crate::sinks::GrowingSink;
use crate::texts::{work_calls, work_sheet};
use link_port::{List, Memory, SureSource};
use service_core::{Alone, Service};
use session_core::{Stop, serve_alone};
use sheet_form::{Sheet, SheetFault};
use sheet_step::Registers;
use std::alloc::Global;
use typed_value::Val;

/// What came of calls that were served to their end.
#[derive(Debug, Clone, Copy, PartialEq, Eq)]
pub struct Ended {
    /// The number of bytes that were written.
    pub replies: u64,
    /// What the register holds at the end.
    pub total: i64,
}

/// What the work came to.
#[derive(Debug, Clone, Copy, PartialEq, Eq)]
pub struct Figures {
    /// The number of bytes of the definition's canonical text.
    pub definition: u64,
    /// The number of bytes of the calls.
    pub calls: u64,
    /// The number of bytes that were written.
    pub replies: u64,
    /// What the register holds at the end.
    pub total: i64,
}

/// Why the work was not done.
#[derive(Debug, Drop)]
pub enum WorkFault {
    /// The text is no sheet.
    NoSheet(SheetFault),
    /// The sheet has no such interface.
    NoDefinition,
    /// The calls were not served to their end.
    Stopped(Stop),
    /// The sheet has other registers than one number.
    NoTotal,
    /// Memory was asked for and not granted.
    Memory,
}

impl From<Memory> for WorkFault {
    ghost use Rattle.std.specs.Prelude.{◌≡◌};
    ghost use Rattle.work_sample.specs.declared.works.WorkFault.TheVariants as fault;

    ghost from_gives = { λ _ made. made ≡ fault.Memory };

    fn from(_memory: Memory) -> WorkFault {
        WorkFault::Memory
    }
}

/// Serves a call of each of this many methods by the sheet that has them.
pub fn work(alloc: Global, n: u64) -> Result<Figures, WorkFault>
    requires { n ≤ 10000 }
    ensures { Works (sheet_text n) (calls_text n) result }
{
    match work_sheet(alloc, n) {
        Ok(text) => match work_calls(alloc, n) {
            Ok(calls) => work_of(alloc, text, calls),
            Err(Memory) => {
                drop(text);
                Err(WorkFault::Memory)
            }
        },
        Err(Memory) => Err(WorkFault::Memory),
    }
}

// Serves calls by the service of the sheet that a text is.
fn work_of(alloc: Global, text: List<u8>, calls: List<u8>) -> Result<Figures, WorkFault>
    ensures { Works text calls result }
{
    match read_sheet(alloc, text.as_slice()) {
        Ok(sheet) => match Service::new(alloc, sheet) {
            Ok(service) => work_by(alloc, service, calls),
            Err(Memory) => {
                drop(calls);
                Err(WorkFault::Memory)
            }
        },
        Err(fault) => {
            drop(calls);
            Err(fault)
        }
    }
}

// Reads a text as a sheet.
fn read_sheet(alloc: Global, text: &[u8]) -> Result<Sheet, WorkFault>
    ensures { ReadsSheet text.now result }
{
    match sheet_form::read(alloc, text) {
        Ok(sheet) => Ok(sheet),
        Err(why) if is_memory(&why) => {
            drop(why);
            Err(WorkFault::Memory)
        }
        Err(why) => Err(WorkFault::NoSheet(why)),
    }
}

fn is_memory(why: &SheetFault) -> bool
    ensures { result ≡ memory why.now }
{
    matches!(why, SheetFault::Memory)
}

// Serves calls by a service, and tells the length of its definition too.
fn work_by(alloc: Global, service: Service, calls: List<u8>) -> Result<Figures, WorkFault>
    ensures { WorksBy service calls result }
{
    let work = work_with(alloc, &service, calls);
    drop(service);
    work
}

fn work_with(alloc: Global, service: &Service, calls: List<u8>) -> Result<Figures, WorkFault>
    ensures { WorksBy service.now calls result }
{
    let definition = match service.describe("org.example.work") {
        Some(text) => text.len() as u64,
        None => {
            drop(calls);
            return Err(WorkFault::NoDefinition);
        }
    };
    let count = calls.len();
    match serve(alloc, service, calls) {
        Ok(ended) => Ok(Figures {
            definition,
            calls: count,
            replies: ended.replies,
            total: ended.total,
        }),
        Err(fault) => Err(fault),
    }
}

// Serves calls by a service, from the registers that its sheet begins with, to their end.
fn serve(alloc: Global, service: &Service, calls: List<u8>) -> Result<Ended, WorkFault>
    ensures { Serves service.now calls result }
{
    let mut source = SureSource::new(alloc, calls)?;
    match Alone::new(alloc, service) {
        Ok(alone) => {
            let mut alone = alone;
            let mut sink = GrowingSink::new(alloc);
            let stop = serve_alone(alloc, &mut source, &mut sink, &mut alone);
            let ended = ended_of(stop, sink.len(), alone.registers());
            drop((source, sink, alone));
            ended
        }
        Err(Memory) => {
            drop(source);
            Err(WorkFault::Memory)
        }
    }
}

// What calls come to by their stop, the number of bytes written, and the registers then. The sink fails for
// want of memory alone.
fn ended_of(stop: Stop, replies: u64, registers: &Registers) -> Result<Ended, WorkFault>
    ensures { result ≡ ended_of stop replies registers.now }
{
    match stop {
        Stop::End => match total_of(registers.values()) {
            Some(total) => Ok(Ended { replies, total }),
            None => Err(WorkFault::NoTotal),
        },
        Stop::WriteFault | Stop::Memory => Err(WorkFault::Memory),
        why => Err(WorkFault::Stopped(why)),
    }
}

// The number that the one register holds.
fn total_of(registers: &[Val]) -> Option<i64>
    ensures { result ≡ total_of registers.now }
{
    match registers {
        [Val::Int(total)] => Some(*total),
        _ => None,
    }
}
