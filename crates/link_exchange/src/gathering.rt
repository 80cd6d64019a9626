// Replies are gathered from the bytes held, as they are passed on.
ghost use Rattle.std.specs.Prelude.{◌≡◌, ◌+◌, ◌^◌, ◌<◌, ◌≤◌, ◌++◌, [], IfNone, IfSome, OnOk, OnErr, length};
ghost use Rattle.link_exchange.specs.Asked.{asked};
ghost use Rattle.link_exchange.specs.Gathering.{PutsLine, Steps, Gathers, GatherEnds, IsSettled, WaitsOn};
ghost use Rattle.link_exchange.specs.Limits.{most_of_reply};
ghost use Rattle.link_exchange.specs.Taken.{marked};

use crate::asked::Asking;
use crate::ends::AskEnd;
use crate::screens::Screen;
use crate::verdicts::{Verdict, judge};
use caller_form::REPLY_LIMIT;
use json::Scratch;
use link_port::Memory;
use message_frame::{Frames, Next};
use std::alloc::Global;

/// What was made of the first message held.
#[derive(Debug, Drop)]
pub enum Step {
    /// It is passed on, and another follows.
    Passed,
    /// The call has ended.
    Ends(AskEnd),
    /// No whole message is held.
    NeedMore,
}

/// Puts a payload and its mark behind the lines. After want of memory the lines are as before.
fn append(lines: &mut Vec<u8>, payload: &[u8], mark: u8) -> Result<(), Memory>
    ensures line { OnOk result (lines.new.items ≡ lines.old.items ++ marked mark payload.now) }
    ensures memory { OnErr result (lines.new.items ≡ lines.old.items) }
{
    let before = lines.len();
    if lines.extend_from_slice(payload).is_err() || lines.push(mark).is_err() {
        lines.truncate(before);
        return Err(Memory);
    }
    Ok(())
}

/// Judges a payload, and puts it behind the lines where it is passed on.
fn put_line<S: Screen>(
    alloc: Global,
    asking: Asking,
    screen: &S,
    index: u64,
    payload: &[u8],
    scratch: &mut Scratch,
    lines: &mut Vec<u8>,
) -> Step
    requires { index + 1 < 2 ^ 64 }
    ensures { PutsLine (asked asking (S.unread screen.now)) index payload.now lines.old.items lines.new.items result }
{
    match judge(alloc, asking, screen, index, payload, scratch) {
        Verdict::Goes => match append(lines, payload, asking.mark) {
            Ok(()) => Step::Passed,
            Err(Memory) => Step::Ends(AskEnd::Memory),
        },
        Verdict::Last(end) => match append(lines, payload, asking.mark) {
            Ok(()) => Step::Ends(end),
            Err(Memory) => {
                drop(end);
                Step::Ends(AskEnd::Memory)
            }
        },
        Verdict::Astray(end) => Step::Ends(end),
    }
}

/// What comes of bytes that hold no whole message.
fn wait(index: u64, held: &[u8]) -> Step
    ensures { WaitsOn index held.now result }
{
    if held.len() as u64 > REPLY_LIMIT {
        Step::Ends(AskEnd::TooLong { index })
    } else {
        Step::NeedMore
    }
}

/// Judges the first message held, and puts it behind the lines where it is passed on.
fn gather_one<S: Screen>(
    alloc: Global,
    asking: Asking,
    screen: &S,
    index: u64,
    frames: &mut Frames,
    scratch: &mut Scratch,
    lines: &mut Vec<u8>,
) -> Step
    requires index { index + 1 < 2 ^ 64 }
    requires room { most_of_reply ≤ frames.old.limit }
    ensures limit { frames.new.limit ≡ frames.old.limit }
    ensures step { Steps (asked asking (S.unread screen.now)) index frames.old frames.new lines.old.items lines.new.items result }
{
    match frames.next() {
        Next::Payload(payload) => put_line(alloc, asking, screen, index, payload, scratch, lines),
        Next::TooLong => Step::Ends(AskEnd::TooLong { index }),
        Next::NeedMore => wait(index, frames.rest()),
    }
}

/// Gathers all whole messages held, and tells whether the call ended.
pub fn gather<S: Screen>(
    alloc: Global,
    asking: Asking,
    screen: &S,
    index: &mut u64,
    frames: &mut Frames,
    scratch: &mut Scratch,
    lines: &mut Vec<u8>,
) -> Option<AskEnd>
    requires index { index.old + length frames.old.bytes < 2 ^ 63 }
    requires room { most_of_reply ≤ frames.old.limit }
    ensures limit { frames.new.limit ≡ frames.old.limit }
    ensures shorter { length frames.new.bytes ≤ length frames.old.bytes }
    ensures gathered { IfNone result (Gathers (asked asking (S.unread screen.now)) index.old index.new frames.old.bytes
        frames.new.bytes lines.old.items lines.new.items) }
    ensures settled { IfNone result (IsSettled frames.new.bytes) }
    ensures ended { IfSome result (GatherEnds (asked asking (S.unread screen.now)) index.old frames.old.bytes frames.new.bytes
        lines.old.items lines.new.items) }
{
    'messages: loop {
        match gather_one(alloc, asking, screen, *index, frames, scratch, lines) {
            Step::Passed => *index += 1,
            Step::Ends(end) => return Some(end),
            Step::NeedMore => return None,
        }
    }
}
