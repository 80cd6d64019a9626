// A source and a sink in memory.
ghost use Rattle.std.specs.Prelude.{◌≡◌, ◌<◌, ◌≤◌, false, [], IfOk, IsOk, OnOk, OnErr, length};
ghost use Rattle.link_port.specs.Faults.{Rises};
ghost use Rattle.link_port.specs.Flow.{IsAsBefore, TakesFront, EndsWhereNothingIsLeft, PutsFront};
ghost use Rattle.link_port.specs.InMemory.{TakesInMemory, PutsInMemory, FlushesInMemory, FinishesInMemory};

use crate::lists::List;
use crate::planned_calls::{CallPlan, SizePlan};
use crate::refusals::{Failed, Memory};
use crate::streams::{Ends, Sink, Source};
use crate::unread::UnreadBytes;
use std::alloc::Global;
use std::marker::Model;

/// A source that gives bytes from memory, in takes of planned sizes, some of which fail as planned.
#[derive(Debug, Drop)]
pub struct MemSource {
    unread: UnreadBytes,
    sizes: SizePlan,
    calls: CallPlan,
}

impl Model for MemSource {
    ghost use Rattle.link_port.specs.InMemory.{SourceInMemory};

    ghost Value = { SourceInMemory };

    ghost view = { λ source. record { left = source.unread; sizes = source.sizes; calls = source.calls } };
}

impl MemSource {
    /// A source of these bytes. `sizes` are the greatest sizes of the successive takes that do not
    /// fail: 0 counts as 1, and after the list there is no greatest size. `failing` lists the
    /// numbers of the takes that fail, where the first take has the number 0.
    pub fn new(
        _alloc: Global,
        bytes: List<u8>,
        sizes: List<u64>,
        failing: List<u64>,
    ) -> Result<MemSource, Memory>
        ensures { result ≡ Ok (record {
          left = bytes;
          sizes = sizes;
          calls = record { failing = failing; number = 0; faults = 0 };
        }) }
    {
        Ok(MemSource {
            unread: UnreadBytes::new(bytes),
            sizes: SizePlan::new(sizes),
            calls: CallPlan::new(failing),
        })
    }
}

impl Ends for MemSource {
    ghost use Rattle.std.specs.Prelude.{Some};

    ghost left = { λ source. Some source.left };

    ghost read_faults = { λ source. source.calls.faults };
}

impl Source for MemSource {
    fn take(&mut self, into: &mut [u8]) -> Result<usize, Failed>
        requires { 0 < length into.old }
        ensures exact { TakesInMemory self.old into.old result self.new into.new }
    {
        let fails = self.calls.is_failing();
        self.calls.count(fails);
        if fails {
            return Err(Failed);
        }
        let most = into.len().min(self.unread.len());
        let count = self.sizes.limit(most);
        self.unread.give(count, into);
        Ok(count)
    }
}

/// A sink that keeps its bytes in memory, in puts of planned sizes, some of which fail as planned.
#[derive(Debug, Drop)]
pub struct MemSink {
    bytes: Vec<u8>,
    room: usize,
    sizes: SizePlan,
    calls: CallPlan,
    finished: bool,
}

impl Model for MemSink {
    ghost use Rattle.std.specs.Prelude.{◌≤◌, vec_len, vec_capacity};
    ghost use Rattle.link_port.specs.InMemory.{SinkInMemory};

    ghost Value = { SinkInMemory };

    ghost view = { λ sink. record {
      written = sink.bytes.items;
      room = sink.room;
      sizes = sink.sizes;
      calls = sink.calls;
      finished = sink.finished;
    } };

    ghost invariant = { λ sink. (vec_len sink.bytes ≤ sink.room) × (sink.room ≤ vec_capacity sink.bytes) };
}

impl MemSink {
    /// An empty sink that holds at most `room` bytes, and reserves memory for them. `sizes` are the
    /// greatest sizes of the successive puts that do not fail: 0 counts as 1, and after the list
    /// there is no greatest size. `failing` lists the numbers of the calls that fail: puts, flushes
    /// and finishes are numbered together, from 0 on. A put fails also where the room is full.
    pub fn new(
        alloc: Global,
        room: u64,
        sizes: List<u64>,
        failing: List<u64>,
    ) -> Result<MemSink, Memory>
        ensures { IfOk result (λ sink. sink ≡ record {
          written = [];
          room = room;
          sizes = sizes;
          calls = record { failing = failing; number = 0; faults = 0 };
          finished = false;
        }) }
    {
        let room = room as usize;
        Ok(MemSink {
            bytes: Vec::with_capacity(alloc, room)?,
            room,
            sizes: SizePlan::new(sizes),
            calls: CallPlan::new(failing),
            finished: false,
        })
    }

    /// Lends the bytes that were put.
    pub fn bytes(&self) -> &[u8]
        ensures { result.now ≡ self.now.written }
    {
        self.bytes.as_slice()
    }
}

impl Ends for MemSink {
    ghost use Rattle.std.specs.Prelude.{Some};

    ghost written = { λ sink. Some sink.written };

    ghost write_faults = { λ sink. sink.calls.faults };

    ghost finished = { λ sink. sink.finished };
}

impl Sink for MemSink {
    fn put(&mut self, piece: &[u8]) -> Result<usize, Failed>
        requires some { 0 < length piece.now }
        requires unfinished { self.old.finished ≡ false }
        ensures exact { PutsInMemory self.old piece.now result self.new }
    {
        let room = self.room - self.bytes.len();
        let fails = room == 0 || self.calls.is_failing();
        self.calls.count(fails);
        if fails {
            return Err(Failed);
        }
        let count = self.sizes.limit(piece.len().min(room));
        match self.bytes.extend_from_slice(&piece[..count]) {
            Ok(()) => Ok(count),
            Err(_) => unreachable!(),
        }
    }

    fn flush(&mut self) -> Result<(), Failed>
        ensures exact { FlushesInMemory self.old result self.new }
    {
        let fails = self.calls.is_failing();
        self.calls.count(fails);
        if fails { Err(Failed) } else { Ok(()) }
    }

    fn finish(&mut self) -> Result<(), Failed>
        requires { self.old.finished ≡ false }
        ensures exact { FinishesInMemory self.old result self.new }
    {
        self.flush()?;
        self.finished = true;
        Ok(())
    }
}
