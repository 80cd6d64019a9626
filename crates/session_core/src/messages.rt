// The first message that a `Frames` holds.
ghost use Rattle.std.specs.Prelude.{◌≡◌};
ghost use Rattle.session_core.specs.Messages.{IsMessage, fault_stop};
ghost use Rattle.session_core.specs.Run.{end_of as rest_stop};

use crate::stops::Stop;
use call_form::{Call, CallFault, read_call};
use message_frame::{Frames, Next};
use std::alloc::Global;

/// The first message held.
#[derive(Drop)]
pub enum Message {
    /// A call.
    Call(Call),
    /// It is no call, or memory was not granted.
    Fault(CallFault),
    /// More bytes than a call may have are held, and no NUL.
    TooLong,
    /// No whole message is held.
    NeedMore,
}

/// Takes the first message off the bytes held, and reads it.
pub fn read_message(alloc: Global, frames: &mut Frames) -> Message
    ensures { IsMessage frames.old result frames.new }
{
    match frames.next() {
        Next::Payload(payload) => match read_call(alloc, payload) {
            Ok(call) => Message::Call(call),
            Err(fault) => Message::Fault(fault),
        },
        Next::TooLong => Message::TooLong,
        Next::NeedMore => Message::NeedMore,
    }
}

/// The stop where the message of this index is no call.
pub fn stop_of(index: u64, fault: CallFault) -> Stop
    ensures { result ≡ fault_stop index fault }
{
    match fault {
        CallFault::Memory => Stop::Memory,
        _ => Stop::NotCall { index, fault },
    }
}

/// The stop at the end of the input, where these bytes are held.
pub fn end_of(held: &[u8]) -> Stop
    ensures { result ≡ rest_stop held.now }
{
    match held.len() {
        0 => Stop::End,
        bytes => Stop::Cut {
            bytes: bytes as u64,
        },
    }
}
