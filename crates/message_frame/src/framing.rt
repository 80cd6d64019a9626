//! Bytes of a stream, held until they are whole messages.
ghost use Rattle.std.specs.Prelude.{◌≡◌, ◌+◌, ◌^◌, ◌≤◌, [], ◌++◌, length, take, drop, IfOk};
ghost use Rattle.std.specs.Prelude.{vec_len, vec_capacity};
ghost use Rattle.message_frame.specs.Held.{Held};
ghost use Rattle.message_frame.specs.Steps.{Feeds, Clears};
ghost use Rattle.message_frame.specs.Pieces.{NoNul};
ghost use Rattle.message_frame.specs.Room.{FindsNul};

use link_port::Memory;
use memchr::memchr;
use std::alloc::Global;
use std::marker::Model;

/// What `Frames::next` gives.
#[derive(Debug, Clone, Copy, PartialEq, Eq)]
pub enum Next<'a> {
    /// The payload of the first message held, without its NUL.
    Payload(&'a [u8]),
    /// More bytes than the limit are held, and no NUL is among them.
    TooLong,
    /// At most the limit is held, and no NUL is among it.
    NeedMore,
}

/// The bytes taken from a stream and not yet given as payloads.
///
/// Room for the limit and one byte is reserved once, and no call takes memory after that. A payload
/// is lent where it lies: bytes move to the front of the room only in a `feed` that finds too little
/// room at the end of the part in use. That part grows only where it must, so short messages use a
/// small part of the room again and again. No byte is searched for a NUL twice.
#[derive(Drop)]
pub struct Frames {
    limit: u64,
    /// What was taken; the bytes from `start` on are held.
    buffer: Vec<u8>,
    start: usize,
    /// So many of the bytes held are known to hold no NUL.
    searched: usize,
    /// The length of the part of the room in use: the most that the buffer ever had.
    in_use: usize,
}

impl Model for Frames {
    ghost use Rattle.std.specs.Prelude.{drop};
    ghost use Rattle.message_frame.specs.Held.{Held};
    ghost use Rattle.message_frame.specs.Room.{IsInRoom};

    ghost Value = { Held };

    ghost view = { λ f. record { limit = f.limit; bytes = drop f.start f.buffer.items } };

    ghost invariant = { λ f. IsInRoom f.limit f.buffer f.start f.searched };
}

impl Frames {
    ghost use Rattle.std.specs.Borrow.{sem};
    ghost use Rattle.message_frame.specs.Steps.{Gives};
    ghost use Rattle.message_frame.specs.Lending.{Leaves};

    /// An empty `Frames` for payloads of at most `limit` bytes.
    pub fn new(alloc: Global, limit: u64) -> Result<Frames, Memory>
        requires least { 1 ≤ limit }
        requires most { limit ≤ 2 ^ 30 }
        ensures { IfOk result (λ frames. frames ≡ record { limit = limit; bytes = [] }) }
    {
        let buffer = Vec::with_capacity(alloc, limit as usize + 1)?;
        Ok(Frames {
            limit,
            buffer,
            start: 0,
            searched: 0,
            in_use: 0,
        })
    }

    /// Takes as many bytes of the piece as there is room for, and tells how many.
    pub fn feed(&mut self, piece: &[u8]) -> usize
        ensures { Feeds self.old piece.now result self.new }
    {
        let room = self.limit as usize + 1;
        let held = self.buffer.len() - self.start;
        let taken = piece.len().min(room - held);
        // A move within the part in use is paid for by the bytes that were given before.
        let in_use = self.in_use.saturating_sub(self.buffer.len());
        if room - self.buffer.len() < taken || (in_use < taken && held <= self.start) {
            slide(&mut self.buffer, self.start);
            self.start = 0;
        }
        append(&mut self.buffer, &piece[..taken]);
        self.in_use = self.in_use.max(self.buffer.len());
        taken
    }

    /// Gives the first message held, or tells why there is none.
    pub fn next(&mut self) -> Next<'_>
        ensures* { sem 𝓛 (Leaves self.entry (Gives self.old result)) }
    {
        let first = self.start;
        match first_nul(&self.buffer[first..], self.searched) {
            Some(place) => {
                let end = first + place;
                self.start = end + 1;
                self.searched = 0;
                Next::Payload(&self.buffer[first..end])
            }
            None => {
                self.searched = self.buffer.len() - first;
                if self.searched as u64 > self.limit {
                    Next::TooLong
                } else {
                    Next::NeedMore
                }
            }
        }
    }

    /// The bytes held.
    pub fn rest(&self) -> &[u8]
        ensures held { result.now ≡ self.now.bytes }
        ensures within { length self.now.bytes ≤ self.now.limit + 1 }
    {
        &self.buffer[self.start..]
    }

    /// Drops the bytes held.
    pub fn clear(&mut self)
        ensures { Clears self.old self.new }
    {
        self.buffer.clear();
        self.start = 0;
        self.searched = 0;
    }
}

/// The place of the first NUL. The first `searched` bytes are known to hold none.
fn first_nul(bytes: &[u8], searched: usize) -> Option<usize>
    requires within { searched ≤ length bytes.now }
    requires no_nul { NoNul (take searched bytes.now) }
    ensures { FindsNul bytes.now result }
{
    let place = memchr(0, &bytes[searched..])?;
    Some(searched + place)
}

/// Drops the first `count` bytes, and moves the others to the front.
fn slide(buffer: &mut Vec<u8>, count: usize)
    requires { count ≤ vec_len buffer.old }
    ensures items { buffer.new.items ≡ drop count buffer.old.items }
    ensures room { vec_capacity buffer.new ≡ vec_capacity buffer.old }
{
    let left = buffer.len() - count;
    buffer.copy_within(count.., 0);
    buffer.truncate(left);
}

/// Puts the bytes at the end of a buffer that has room for them.
fn append(buffer: &mut Vec<u8>, bytes: &[u8])
    requires { vec_len buffer.old + length bytes.now ≤ vec_capacity buffer.old }
    ensures items { buffer.new.items ≡ buffer.old.items ++ bytes.now }
    ensures room { vec_capacity buffer.old ≤ vec_capacity buffer.new }
{
    if buffer.extend_from_slice(bytes).is_err() {
        unreachable!();
    }
}
