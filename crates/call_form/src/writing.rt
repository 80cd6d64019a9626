//! Text of replies.
ghost use Rattle.std.specs.Prelude.{◌≡◌, ◌++◌, codes, IfOk, OnOk};
ghost use Rattle.serde_json.specs.Data.{string};
ghost use Rattle.serde_json.specs.Written.{compact_text};
ghost use Rattle.call_form.specs.ReplyText.{IsWritable, reply_bytes, continues_text, error_text};

use crate::Reply;
use link_port::{List, Memory, Text};
use serde_json::Value as Json;
use std::alloc::Global;

/// The compact text of a reply and its NUL. The parameters are written where they stand and not
/// copied.
pub fn reply_text(alloc: Global, reply: &Reply) -> Result<List<u8>, Memory>
    requires { IsWritable reply.now }
    ensures { IfOk result (λ text. text ≡ reply_bytes reply.now) }
{
    let parameters = reply.parameters.inner().to_vec(alloc)?;
    let mut text = Vec::new(alloc);
    put(&mut text, b"{")?;
    put_continues(&mut text, reply.continues)?;
    put_error(alloc, &mut text, &reply.error)?;
    put(&mut text, b"\"parameters\":")?;
    put(&mut text, &parameters)?;
    put(&mut text, b"}\0")?;
    Ok(List::from_vec(text))
}

fn put_continues(text: &mut Vec<u8>, continues: bool) -> Result<(), Memory>
    ensures { OnOk result (text.new.items ≡ text.old.items ++ continues_text continues) }
{
    if continues {
        put(text, b"\"continues\":true,")?;
    }
    Ok(())
}

fn put_error(alloc: Global, text: &mut Vec<u8>, error: &Option<Text>) -> Result<(), Memory>
    ensures { OnOk result (text.new.items ≡ text.old.items ++ error_text error.now) }
{
    if let Some(name) = error {
        let name = Json::try_from_str(alloc, name.as_str())?.to_vec(alloc)?;
        put(text, b"\"error\":")?;
        put(text, &name)?;
        put(text, b",")?;
    }
    Ok(())
}

/// Puts bytes at the end of the text.
fn put(text: &mut Vec<u8>, piece: &[u8]) -> Result<(), Memory>
    ensures { OnOk result (text.new.items ≡ text.old.items ++ piece.now) }
{
    text.extend_from_slice(piece)?;
    Ok(())
}
