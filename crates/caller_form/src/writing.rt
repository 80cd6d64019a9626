// Text of calls.
ghost use Rattle.std.specs.Prelude.{◌≡◌, ◌++◌, IfOk, OnOk};
ghost use Rattle.call_form.specs.CallText.{IsSendable};
ghost use Rattle.caller_form.specs.CallBytes.{call_bytes, method_text, flag_text};

use call_form::Call;
use link_port::{List, Memory, Text};
use serde_json::Value as Json;
use std::alloc::Global;

/// The compact text of a call and its NUL (varlink.org, "Method Call"). `parameters` are always
/// written, a flag only where it is true. The parameters are written where they stand and not
/// copied as a tree.
pub fn call_text(alloc: Global, call: &Call) -> Result<List<u8>, Memory>
    requires { IsSendable call.now }
    ensures { IfOk result (λ text. text ≡ call_bytes call.now) }
{
    let parameters = call.parameters.inner().to_vec(alloc)?;
    let mut text = Vec::new(alloc);
    put_method(alloc, &mut text, &call.method)?;
    put_flag(&mut text, b",\"more\":true", call.more)?;
    put_flag(&mut text, b",\"oneway\":true", call.oneway)?;
    put(&mut text, b",\"parameters\":")?;
    put(&mut text, &parameters)?;
    put_flag(&mut text, b",\"upgrade\":true", call.upgrade)?;
    put(&mut text, b"}\0")?;
    Ok(List::from_vec(text))
}

fn put_method(alloc: Global, text: &mut Vec<u8>, method: &Text) -> Result<(), Memory>
    ensures { OnOk result (text.new.items ≡ text.old.items ++ method_text method.now) }
{
    let word = Json::try_from_str(alloc, method.as_str())?.to_vec(alloc)?;
    put(text, b"{\"method\":")?;
    put(text, &word)?;
    Ok(())
}

fn put_flag(text: &mut Vec<u8>, member: &[u8], flag: bool) -> Result<(), Memory>
    ensures { OnOk result (text.new.items ≡ text.old.items ++ flag_text member.now flag) }
{
    if flag {
        put(text, member)?;
    }
    Ok(())
}

// Puts bytes at the end of the text.
fn put(text: &mut Vec<u8>, piece: &[u8]) -> Result<(), Memory>
    ensures { OnOk result (text.new.items ≡ text.old.items ++ piece.now) }
{
    text.extend_from_slice(piece)?;
    Ok(())
}
