// Replies are written, each before the next one is made.
ghost use Rattle.std.specs.Prelude.{◌≡◌, true, false, [], ◌∷◌, IfOk, OnOk, IfErr, IfSome, IsUtf8};
ghost use Rattle.std.specs.List.{AllByRecursion, flat_map};
ghost use Rattle.link_port.specs.Flow.{IsAsBefore};
ghost use Rattle.call_form.specs.ReplyText.{reply_bytes};
ghost use Rattle.session_core.specs.Outcomes.{HasSoundParameters, without_first};
ghost use Rattle.session_core.specs.Sent.{sent, Sends};
ghost use Rattle.session_core.specs.Writes.{BreaksOff};

use crate::outboxes::Outbox;
use crate::replies::Replies;
use crate::stops::Stop;
use call_form::{Reply, reply_text};
use link_port::{List, Memory, Sink, Text};
use std::alloc::Global;

/// Writes the replies left, each before the next one is asked for.
pub fn write_replies<K: Sink, P: Replies>(
    alloc: Global,
    replies: &mut P,
    outbox: &mut Outbox,
    sink: &mut K,
) -> Result<(), Stop>
    requires writable { AllByRecursion HasSoundParameters (P.left replies.old).replies }
    requires unfinished { K.finished sink.old ≡ false }
    ensures all { OnOk result (P.left replies.new ≡ without_first (P.left replies.old) []) }
    ensures raw { (P.left replies.new).raw ≡ (P.left replies.old).raw }
    ensures wrote { OnOk result (Sends (sent (K.written sink.old) outbox.old)
        (sent (K.written sink.new) outbox.new) (flat_map reply_bytes (P.left replies.old).replies)) }
    ensures sound { OnOk result (K.write_faults sink.new ≡ K.write_faults sink.old) }
    ensures part { IfErr result (λ stop. BreaksOff (Sends (sent (K.written sink.old) outbox.old)
        (sent (K.written sink.new) outbox.new)) stop
        (P.left replies.old).replies (P.left replies.new).replies
        (K.write_faults sink.old) (K.write_faults sink.new)) }
    ensures other { IsAsBefore (K.left sink.old) (K.left sink.new)
        (K.read_faults sink.old) (K.read_faults sink.new) }
    ensures room { outbox.new.room ≡ outbox.old.room }
    ensures unfinished { K.finished sink.new ≡ false }
{
    'replies: loop {
        match replies.next(alloc) {
            Err(Memory) => return Err(Stop::Memory),
            Ok(None) => return Ok(()),
            Ok(Some(reply)) => match write_reply(alloc, reply, outbox, sink) {
                Ok(()) => {}
                Err(stop) => return Err(stop),
            },
        }
    }
}

/// Writes one reply as one piece. One that another follows is put at once, with all that waits
/// before it.
fn write_reply<K: Sink>(
    alloc: Global,
    reply: Reply,
    outbox: &mut Outbox,
    sink: &mut K,
) -> Result<(), Stop>
    requires writable { HasSoundParameters reply }
    requires unfinished { K.finished sink.old ≡ false }
    ensures wrote { OnOk result (Sends (sent (K.written sink.old) outbox.old)
        (sent (K.written sink.new) outbox.new) (reply_bytes reply)) }
    ensures at_once { OnOk result (reply.continues ≡ true → outbox.new.bytes ≡ []) }
    ensures sound { OnOk result (K.write_faults sink.new ≡ K.write_faults sink.old) }
    ensures part { IfErr result (λ stop. BreaksOff (Sends (sent (K.written sink.old) outbox.old)
        (sent (K.written sink.new) outbox.new)) stop (reply ∷ []) []
        (K.write_faults sink.old) (K.write_faults sink.new)) }
    ensures other { IsAsBefore (K.left sink.old) (K.left sink.new)
        (K.read_faults sink.old) (K.read_faults sink.new) }
    ensures room { outbox.new.room ≡ outbox.old.room }
    ensures unfinished { K.finished sink.new ≡ false }
{
    let Ok(text) = text_of(alloc, &reply) else {
        return Err(Stop::Memory);
    };
    if let Err(_) = outbox.deliver(sink, text.as_slice(), reply.continues) {
        return Err(Stop::WriteFault);
    }
    Ok(())
}

/// The text of a reply, whose texts are UTF-8.
fn text_of(alloc: Global, reply: &Reply) -> Result<List<u8>, Memory>
    requires { HasSoundParameters reply.now }
    ensures { IfOk result (λ text. text ≡ reply_bytes reply.now) }
{
    let _parameters = reply.parameters.inner();
    let _name = name_in(&reply.error);
    reply_text(alloc, reply)
}

/// Lends the name of an error, if there is one.
fn name_in(error: &Option<Text>) -> Option<&str>
    ensures { IfSome error.now IsUtf8 }
{
    match error {
        Some(name) => Some(name.as_str()),
        None => None,
    }
}
