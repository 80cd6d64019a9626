// Where calls go.
ghost use Rattle.std.specs.Prelude.{◌≡◌, IfOk, option_map};
ghost use Rattle.serde_json.specs.View.{view};
ghost use Rattle.resolver_core.specs.Goals.{goal_of, described};

use crate::methods::is_fixed;
use crate::words::at_dot;
use call_form::Call;
use link_port::{Memory, Text};
use serde_json::Value as Json;
use std::alloc::Global;

/// Where a call goes.
#[derive(Debug, Drop)]
pub enum Goal {
    /// To the resolver itself.
    Resolver,
    /// To the service of this interface.
    Interface(Text),
    /// To nobody, since its word has no dot and so names no interface.
    Nowhere(Text),
}

/// Where a call goes: the resolver's own methods to the resolver, a description to the service
/// that has the interface, and any other call to the service of the interface before the last dot
/// of its word.
#[tactic(auto, unfolding(crate::specs::Goals::goal_of))]
pub fn target(alloc: Global, call: &Call) -> Result<Goal, Memory>
    ensures { IfOk result (λ goal. goal ≡ goal_of call.now) }
{
    let word = call.method.as_str();
    let Some((interface, method)) = at_dot(word) else {
        return Ok(Goal::Nowhere(Text::of(alloc, word)?));
    };
    if interface == "org.varlink.service" {
        if method == "GetInterfaceDescription" {
            return described(alloc, call.parameters.inner().get("interface"));
        }
        return Ok(Goal::Resolver);
    }
    if interface == "org.varlink.resolver" {
        return Ok(Goal::Resolver);
    }
    Ok(Goal::Interface(Text::of(alloc, interface)?))
}

// Where a call for the description of an interface goes.
fn described(alloc: Global, interface: Option<&Json>) -> Result<Goal, Memory>
    ensures { IfOk result
        (λ goal. goal ≡ described (option_map (λ found. view found.now) interface.entry)) }
{
    match interface {
        Some(Json::String(name)) if !is_fixed(name.as_str()) => {
            Ok(Goal::Interface(Text::of(alloc, name.as_str())?))
        }
        _ => Ok(Goal::Resolver),
    }
}
