// Who made the resolver, and the replies that tell it.
ghost use Rattle.std.specs.Prelude.{◌≡◌, ◌∷◌, [], IfOk, OnOk};
ghost use Rattle.serde_json.specs.Data.{string, array, object, put as with_member};
ghost use Rattle.serde_json.specs.View.{view, items_view, members_view};
ghost use Rattle.link_port.specs.SoundTrees.{IsSound};
ghost use Rattle.call_form.specs.ReplyText.{IsWritable};
ghost use Rattle.resolver_core.specs.Registries.{names, service_name, resolver_name};
ghost use Rattle.resolver_core.specs.Held.{seen};
ghost use Rattle.resolver_core.specs.Places.{info, info_of, strings, plain};

use crate::files::Addresses;
use call_form::Reply;
use link_port::{List, Memory, Value};
use serde_json::{Map, Value as Json, json, put};
use std::alloc::Global;

/// Tells who made the resolver, and its own interfaces.
pub fn service_info(alloc: Global) -> Result<Reply, Memory>
    ensures reply { IfOk result
        (λ reply. reply ≡ plain (info (service_name ∷ resolver_name ∷ []))) }
    ensures writable { IfOk result IsWritable }
{
    let interfaces = json!(in alloc; ["org.varlink.service", "org.varlink.resolver"])?;
    info_with(alloc, interfaces)
}

/// Tells who made the resolver, and the interfaces that are registered.
pub fn resolver_info(alloc: Global, addresses: &Addresses) -> Result<Reply, Memory>
    ensures reply { IfOk result
        (λ reply. reply ≡ plain (info (names (seen addresses.now.entries)))) }
    ensures writable { IfOk result IsWritable }
{
    info_with(alloc, name_list(alloc, addresses)?)
}

// The names of the interfaces that are registered.
fn name_list(alloc: Global, addresses: &Addresses) -> Result<Json, Memory>
    ensures { IfOk result (λ list. view list ≡ strings (names (seen addresses.now.entries))) }
{
    let mut list = List::new(alloc);
    for (name, _) in addresses.iter() {
        list.push(Json::try_from_str(alloc, name.as_str())?)?;
    }
    Ok(array_of(list.into_vec()))
}

// The array of these values.
fn array_of(values: Vec<Json>) -> Json
    ensures { view result ≡ array (items_view values.items) }
{
    Json::Array(values)
}

// The reply with these interfaces.
fn info_with(alloc: Global, interfaces: Json) -> Result<Reply, Memory>
    requires { IsSound (view interfaces) }
    ensures reply { IfOk result (λ reply. reply ≡ plain (info_of (view interfaces))) }
    ensures writable { IfOk result IsWritable }
{
    Ok(Reply {
        parameters: Value::of(info_object(alloc, interfaces)?),
        continues: false,
        error: None,
    })
}

// The parameters of that reply.
fn info_object(alloc: Global, interfaces: Json) -> Result<Json, Memory>
    ensures { IfOk result (λ parameters. view parameters ≡ info_of (view interfaces)) }
{
    let mut members = Map::new(alloc);
    put(&mut members, alloc, "interfaces", interfaces)?;
    put_text(alloc, &mut members, "product", "resolver")?;
    put_text(alloc, &mut members, "url", "https://varlink.org")?;
    put_text(alloc, &mut members, "vendor", "Varlink")?;
    put_text(alloc, &mut members, "version", "1")?;
    Ok(object_of(members))
}

// The object with these members.
fn object_of(members: Map<String, Json>) -> Json
    ensures { view result ≡ object (members_view members.entries) }
{
    Json::Object(members)
}

// Puts a text as the member of this name.
fn put_text(
    alloc: Global,
    members: &mut Map<String, Json>,
    name: &str,
    text: &str,
) -> Result<(), Memory>
    ensures { OnOk result (members_view members.new.entries
        ≡ with_member name.now (string text.now) (members_view members.old.entries)) }
{
    put(members, alloc, name, Json::try_from_str(alloc, text)?)?;
    Ok(())
}
