// The heads of replies.
ghost use Rattle.std.specs.Prelude.{◌≡◌, Option};
ghost use Rattle.serde_json.specs.Data.{Data, Members, object};
ghost use Rattle.caller_form.specs.ReplyOf.{Reads, reply_in, continues_of, error_of, parameters_of};
ghost use Rattle.caller_form.specs.HeadOf.{AreFound, IsMember, ReadsHead, ReadsParameters, head_or_fault};

use crate::compact::compact_head;
use crate::faults::ReplyFault;
use crate::kinds::Kind;
use crate::members::{Found, members_of};
use crate::reading::utf8_text;
use json::Scratch;
use link_port::Text;
use std::alloc::Global;

/// What tells whether more comes behind a reply, and how it ends its call.
#[derive(Drop)]
pub struct Head {
    /// More replies to the same call follow.
    pub continues: bool,
    /// The qualified name of the error.
    pub error: Option<Text>,
}

/// Reads the head of the reply that the payload of a message is (varlink.org, "Method Call"). Nothing
/// is kept of its parameters, so that it costs less than to read the reply; all of the payload is read
/// and judged as there, and a fault other than `Memory` is the payload's first one. The scratch serves
/// from reading to reading.
#[tactic(auto, unfolding(crate::specs::ReplyOf::reply_of))]
pub fn read_head(alloc: Global, payload: &[u8], scratch: &mut Scratch) -> Result<Head, ReplyFault>
    ensures { ReadsHead payload.now result }
{
    let text = utf8_text(payload)?;
    if let Some(continues) = compact_head(text) {
        return Ok(Head {
            continues,
            error: None,
        });
    }
    let found = members_of(text, scratch)?;
    head_from(alloc, found)
}

// The members of a reply, in the order in which they are refused.
#[tactic(auto, unfolding(crate::specs::ReplyOf::reply_in))]
fn head_from(alloc: Global, found: Found<'_>) -> Result<Head, ReplyFault>
    ensures { (ms : Members) → AreFound found.entry ms → Reads result (head_or_fault (reply_in (object ms))) }
{
    let continues = continues(found.continues)?;
    let error = error(alloc, found.error)?;
    parameters(found.parameters)?;
    Ok(Head { continues, error })
}

fn continues(kind: Kind<'_>) -> Result<bool, ReplyFault>
    ensures { (there : Option Data) → IsMember kind.entry there → result ≡ continues_of there }
{
    match kind {
        Kind::Null => Ok(false),
        Kind::Flag(flag) => Ok(flag),
        _ => Err(ReplyFault::BadContinues),
    }
}

fn error(alloc: Global, kind: Kind<'_>) -> Result<Option<Text>, ReplyFault>
    ensures { (there : Option Data) → IsMember kind.entry there → Reads result (error_of there) }
{
    match kind {
        Kind::Null => Ok(None),
        Kind::Text(name) => Ok(Some(Text::of(alloc, name)?)),
        _ => Err(ReplyFault::BadError),
    }
}

fn parameters(kind: Kind<'_>) -> Result<(), ReplyFault>
    ensures { (there : Option Data) → IsMember kind.entry there → ReadsParameters result (parameters_of there) }
{
    match kind {
        Kind::Null | Kind::Object => Ok(()),
        _ => Err(ReplyFault::BadParameters),
    }
}
