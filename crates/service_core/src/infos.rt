// Who made a service, and which interfaces it has.
ghost use Rattle.std.specs.Prelude.{◌≡◌, ◌∷◌, [], ◌++◌, map, IfOk, OnOk};
ghost use Rattle.serde_json.specs.Data.{string, array, object, put as with_member};
ghost use Rattle.serde_json.specs.View.{view, items_view, members_view};
ghost use Rattle.sheet_form.specs.Interfaces.{names_of};
ghost use Rattle.service_core.specs.Descriptions.{service_name, strings, names, info_of};

use crate::services::Service;
use idl_tree::Checked;
use link_port::{List, Memory};
use serde_json::{Map, Value as Json, put};
use std::alloc::Global;

/// The parameters of the reply that tells it.
pub fn info_object(alloc: Global, service: &Service) -> Result<Json, Memory>
    ensures { IfOk result (λ parameters. view parameters ≡ info_of service.now) }
{
    let info = service.sheet().info();
    let mut members = Map::new(alloc);
    put(
        &mut members,
        alloc,
        "interfaces",
        name_list(alloc, service.sheet().interfaces())?,
    )?;
    put_text(alloc, &mut members, "product", info.product.as_str())?;
    put_text(alloc, &mut members, "url", info.url.as_str())?;
    put_text(alloc, &mut members, "vendor", info.vendor.as_str())?;
    put_text(alloc, &mut members, "version", info.version.as_str())?;
    Ok(object_of(members))
}

// The name of the interface that every service has, and those of these interfaces.
fn name_list(alloc: Global, interfaces: &[Checked]) -> Result<Json, Memory>
    ensures { IfOk result (λ list. view list ≡ strings (service_name ∷ names_of interfaces.now)) }
{
    let mut list = List::new(alloc);
    list.push(Json::try_from_str(alloc, "org.varlink.service")?)?;
    for interface in interfaces {
        list.push(Json::try_from_str(alloc, interface.tree().name.as_str())?)?;
    }
    Ok(array_of(list.into_vec()))
}

// The array of these values.
fn array_of(values: Vec<Json>) -> Json
    ensures { view result ≡ array (items_view values.items) }
{
    Json::Array(values)
}

// The object with these members.
fn object_of(members: Map<String, Json>) -> Json
    ensures { view result ≡ object (members_view members.entries) }
{
    Json::Object(members)
}

// Puts a text as the member of this name.
fn put_text(
    alloc: Global,
    members: &mut Map<String, Json>,
    name: &str,
    text: &str,
) -> Result<(), Memory>
    ensures { OnOk result (members_view members.new.entries
        ≡ with_member name.now (string text.now) (members_view members.old.entries)) }
{
    put(members, alloc, name, Json::try_from_str(alloc, text)?)?;
    Ok(())
}
