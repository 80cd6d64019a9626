// The address that a resolver's reply tells.
ghost use Rattle.std.specs.Prelude.{◌≡◌, codes, option_map};
ghost use Rattle.serde_json.specs.Find.{get};
ghost use Rattle.serde_json.specs.View.{view};
ghost use Rattle.standard_calls.specs.Addresses.{IsFault, TellsAddress, address_in, by_member, of_error};

use crate::faults::NoAddress;
use call_form::Reply;
use link_doors::{Address, AddressFault};
use link_port::Text;
use serde_json::Value as Json;
use std::alloc::Global;

/// The address that the reply to a `Resolve` call tells (varlink.org, "Resolver"), or the first thing that it has
/// in place of one.
pub fn address_in(alloc: Global, reply: &Reply) -> Result<Address, NoAddress>
    ensures { TellsAddress result (address_in reply.now) }
{
    match &reply.error {
        Some(name) => Err(of_error(alloc, name)),
        None => by_member(alloc, reply.parameters.inner().get("address")),
    }
}

// The fault that an error reply of this name tells.
fn of_error(alloc: Global, name: &Text) -> NoAddress
    ensures { IsFault result (of_error name.now) }
{
    if name.as_str() == "org.varlink.resolver.InterfaceNotFound" {
        return NoAddress::Missing;
    }
    match Text::of(alloc, name.as_str()) {
        Ok(name) => NoAddress::OtherError(name),
        Err(_) => NoAddress::Memory,
    }
}

// The address that the member `address` of a reply tells.
fn by_member(alloc: Global, member: Option<&Json>) -> Result<Address, NoAddress>
    ensures { TellsAddress result (by_member (option_map (λ found. view found.now) member.entry)) }
{
    match member {
        Some(Json::String(text)) => match Address::read(alloc, text.as_str()) {
            Ok(address) => Ok(address),
            Err(AddressFault::BadAddress) => Err(NoAddress::BadAddress),
            Err(AddressFault::Memory) => Err(NoAddress::Memory),
        },
        _ => Err(NoAddress::NoText),
    }
}
