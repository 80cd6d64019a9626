// What is made of one message.
ghost use Rattle.std.specs.Prelude.{◌≡◌, ◌<◌, ◌+◌, ◌^◌, ◌&&◌, not, is_none, if◌then◌else◌};
ghost use Rattle.call_form.specs.CallOf.{IsObject};
ghost use Rattle.caller_form.specs.HeadOf.{head_of};
ghost use Rattle.caller_form.specs.ReplyOf.{reply_of};
ghost use Rattle.link_exchange.specs.Asked.{AllRead, asked};
ghost use Rattle.link_exchange.specs.Taken.{judged, field_of, by_reading, by_reply, last_end};
ghost use Rattle.link_exchange.specs.Gathering.{Judges, IsOfKind, IsLast, IsAstray, fault_end, misread_end, TellsMisread};

use crate::asked::Asking;
use crate::ends::AskEnd;
use crate::screens::{Misread, Screen};
use call_form::Reply;
use caller_form::{Head, REPLY_LIMIT, ReplyFault, read_head, read_reply};
use json::Scratch;
use link_port::Text;
use std::alloc::Global;

/// What is made of one message.
#[derive(Debug, Drop)]
pub enum Verdict {
    /// It is passed on, and another follows.
    Goes,
    /// It is passed on, and is the last one.
    Last(AskEnd),
    /// It is not passed on.
    Astray(AskEnd),
}

/// Judges the payload of this index. The scratch serves from payload to payload.
pub fn judge<S: Screen>(
    alloc: Global,
    asking: Asking,
    screen: &S,
    index: u64,
    payload: &[u8],
    scratch: &mut Scratch,
) -> Verdict
    requires { index + 1 < 2 ^ 64 }
    ensures verdict { Judges result (judged (asked asking (S.unread screen.now)) index payload.now) }
    ensures kind { IsOfKind result }
{
    if payload.len() as u64 > REPLY_LIMIT {
        return Verdict::Astray(AskEnd::TooLong { index });
    }
    if screen.reads_all() {
        judge_head(alloc, asking, screen, index, payload, scratch)
    } else {
        judge_reply(alloc, asking, screen, index, payload)
    }
}

/// Judges a payload by its head alone, where all replies read.
fn judge_head<S: Screen>(
    alloc: Global,
    asking: Asking,
    screen: &S,
    index: u64,
    payload: &[u8],
    scratch: &mut Scratch,
) -> Verdict
    requires index { index + 1 < 2 ^ 64 }
    requires all { AllRead (S.unread screen.now) }
    ensures verdict { Judges result (by_reading (asked asking (S.unread screen.now)) index (reply_of payload.now)) }
    ensures kind { IsOfKind result }
{
    match read_head(alloc, payload, scratch) {
        Ok(head) => if is_astray(asking.more, head.continues, &head.error) {
            drop(head);
            Verdict::Astray(AskEnd::Continues { index })
        } else {
            passed(index, head)
        },
        Err(fault) => Verdict::Astray(end_of_fault(index, fault)),
    }
}

/// Judges a payload by the reply that it is.
fn judge_reply<S: Screen>(
    alloc: Global,
    asking: Asking,
    screen: &S,
    index: u64,
    payload: &[u8],
) -> Verdict
    requires { index + 1 < 2 ^ 64 }
    ensures verdict { Judges result (by_reading (asked asking (S.unread screen.now)) index (reply_of payload.now)) }
    ensures kind { IsOfKind result }
{
    match read_reply(alloc, payload) {
        Ok(reply) => weigh(alloc, asking, screen, index, reply),
        Err(fault) => Verdict::Astray(end_of_fault(index, fault)),
    }
}

/// Judges a reply.
fn weigh<S: Screen>(alloc: Global, asking: Asking, screen: &S, index: u64, reply: Reply) -> Verdict
    requires index { index + 1 < 2 ^ 64 }
    requires parameters { IsObject reply.parameters }
    ensures verdict { Judges result (by_reply (asked asking (S.unread screen.now)) index reply) }
    ensures kind { IsOfKind result }
{
    if is_astray(asking.more, reply.continues, &reply.error) {
        drop(reply);
        return Verdict::Astray(AskEnd::Continues { index });
    }
    match misread(alloc, screen, &reply) {
        None => passed(index, head(reply)),
        Some(misread) => {
            drop(reply);
            Verdict::Astray(end_of_misread(index, misread))
        }
    }
}

/// The head of a reply.
fn head(reply: Reply) -> Head
    ensures { result ≡ head_of reply }
{
    let Reply {
        parameters,
        continues,
        error,
    } = reply;
    drop(parameters);
    Head { continues, error }
}

/// Whether a reply says that another follows, though none may.
fn is_astray(more: bool, continues: bool, error: &Option<Text>) -> bool
    ensures { result ≡ (continues && not (more && is_none error.now)) }
{
    continues && !(more && error.is_none())
}

/// Why a reply does not read; nothing is read of an error.
fn misread<S: Screen>(alloc: Global, screen: &S, reply: &Reply) -> Option<Misread>
    requires { IsObject reply.now.parameters }
    ensures { TellsMisread result (field_of (S.unread screen.now) reply.now reply.now.error) }
{
    match &reply.error {
        Some(_) => None,
        None => match screen.check(alloc, reply) {
            Ok(()) => None,
            Err(misread) => Some(misread),
        },
    }
}

/// What is made of a reply of this head that is passed on.
fn passed(index: u64, head: Head) -> Verdict
    requires { index + 1 < 2 ^ 64 }
    ensures verdict { result ≡ (if head.continues then Verdict.Goes else Verdict.Last (last_end index head.error)) }
    ensures kind { IsOfKind result }
{
    let Head { continues, error } = head;
    if continues {
        drop(error);
        Verdict::Goes
    } else {
        Verdict::Last(end_of_last(index, error))
    }
}

/// How the last reply ends the call.
fn end_of_last(index: u64, error: Option<Text>) -> AskEnd
    requires { index + 1 < 2 ^ 64 }
    ensures end { result ≡ last_end index error }
    ensures kind { IsLast result }
{
    match error {
        None => AskEnd::Done { replies: index + 1 },
        Some(name) => AskEnd::ErrorReply { name },
    }
}

/// How a message that is no reply ends the call.
fn end_of_fault(index: u64, fault: ReplyFault) -> AskEnd
    ensures end { result ≡ fault_end index fault }
    ensures kind { IsAstray result }
{
    match fault {
        ReplyFault::Memory => AskEnd::Memory,
        _ => AskEnd::NotReply { index, fault },
    }
}

/// How a reply that does not read ends the call.
fn end_of_misread(index: u64, misread: Misread) -> AskEnd
    ensures end { result ≡ misread_end index misread }
    ensures kind { IsAstray result }
{
    match misread {
        Misread::Field(field) => AskEnd::IllTyped { index, field },
        Misread::Memory => AskEnd::Memory,
    }
}
