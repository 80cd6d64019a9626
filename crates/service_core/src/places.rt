// What calls come to before a rule runs, case by case.
ghost use Rattle.std.specs.Prelude.{◌≡◌, true, false, Err, IfOk, IfSome, option_map};
ghost use Rattle.std.specs.Option.{option_copied};
ghost use Rattle.serde_json.specs.View.{view};
ghost use Rattle.call_form.specs.declared.Call.{Call};
ghost use Rattle.call_form.specs.CallOf.{IsObject};
ghost use Rattle.call_form.specs.ReplyText.{IsWritable};
ghost use Rattle.idl_tree.specs.Form.{is_struct};
ghost use Rattle.service_core.specs.Descriptions.{info_of};
ghost use Rattle.service_core.specs.Places.{place_of, by_interface, asked, by_method, by_rule, input_named};
ghost use Rattle.service_core.specs.Places.{own_reply, describes, placed, plain, mistakes_upgrade, lacks_more};
ghost use Rattle.service_core.specs.Renders.{PlacedFits};

use crate::kinds::{interface_named, is_upgrade, rule_named, streams};
use crate::replies::{bad_parameter, no_interface, no_method, no_rule, one, plain, with_text};
use crate::requests::{Placed, Request};
use crate::services::Service;
use crate::words::at_last_dot;
use call_form::{Call, Reply, StdError, standard};
use idl_tree::{Body, Checked};
use link_port::Memory;
use serde_json::Value as Json;
use sheet_form::Sheet;
use sheet_rules::Rule;
use std::alloc::Global;
use typed_value::{FieldFault, read_fields};

/// What a call comes to.
#[tactic(auto, unfolding(crate::specs::Places::place_of))]
pub fn place(alloc: Global, service: &Service, call: &Call) -> Result<Placed, Memory>
    requires { IsObject call.now.parameters }
    ensures placed { IfOk result (λ there. there ≡ placed (place_of service.now call.now)) }
    ensures fits { IfOk result (λ there. PlacedFits call.now there) }
{
    let word = call.method.as_str();
    match at_last_dot(word) {
        Some((interface, method)) => by_interface(alloc, service, call, interface, method),
        None => answer(alloc, no_interface(alloc, word)?),
    }
}

// The call is answered with this reply.
fn answer(alloc: Global, reply: Reply) -> Result<Placed, Memory>
    requires last { reply.continues ≡ false }
    requires writable { IsWritable reply }
    ensures placed { IfOk result (λ there. there ≡ placed (Err reply)) }
    ensures fits { IfOk result (λ there. (call : Call) → PlacedFits call there) }
{
    Ok(Placed::Answered(one(alloc, reply)?))
}

// A call of `org.varlink.service`, or of another interface.
fn by_interface(
    alloc: Global,
    service: &Service,
    call: &Call,
    interface: &str,
    method: &str,
) -> Result<Placed, Memory>
    requires { IsObject call.now.parameters }
    ensures placed { IfOk result
        (λ there. there ≡ placed (by_interface service.now call.now (interface.now, method.now))) }
    ensures fits { IfOk result (λ there. PlacedFits call.now there) }
{
    if interface == "org.varlink.service" {
        answer(alloc, own_reply(alloc, service, call, method)?)
    } else {
        ask(alloc, service.sheet(), call, interface, method)
    }
}

// The reply to a method of `org.varlink.service`.
fn own_reply(alloc: Global, service: &Service, call: &Call, method: &str) -> Result<Reply, Memory>
    ensures reply { IfOk result (λ reply. reply ≡ own_reply service.now call.now method.now) }
    ensures last { IfOk result (λ reply. reply.continues ≡ false) }
    ensures writable { IfOk result IsWritable }
{
    let is_info = method == "GetInfo";
    if !is_info && method != "GetInterfaceDescription" {
        return no_method(alloc, call.method.as_str());
    }
    if call.upgrade {
        return bad_parameter(alloc, "upgrade");
    }
    if is_info {
        tell_info(alloc, service)
    } else {
        describe(alloc, service, call.parameters.inner().get("interface"))
    }
}

// Tells who made the service, and which interfaces it has.
fn tell_info(alloc: Global, service: &Service) -> Result<Reply, Memory>
    ensures reply { IfOk result (λ reply. reply ≡ plain (info_of service.now)) }
    ensures writable { IfOk result IsWritable }
{
    Ok(plain(service.info(alloc)?))
}

// Tells the definition of an interface.
fn describe(alloc: Global, service: &Service, interface: Option<&Json>) -> Result<Reply, Memory>
    ensures reply { IfOk result (λ reply. reply ≡ describes service.now
        (option_map (λ found. view found.now) interface.entry)) }
    ensures last { IfOk result (λ reply. reply.continues ≡ false) }
    ensures writable { IfOk result IsWritable }
{
    match interface {
        Some(Json::String(name)) => {
            let name = name.as_str();
            match service.description(name) {
                Some(text) => with_text(alloc, "description", text),
                None => no_interface(alloc, name),
            }
        }
        _ => bad_parameter(alloc, "interface"),
    }
}

// A call of an interface of the sheet.
fn ask(
    alloc: Global,
    sheet: &Sheet,
    call: &Call,
    interface: &str,
    method: &str,
) -> Result<Placed, Memory>
    requires { IsObject call.now.parameters }
    ensures placed { IfOk result
        (λ there. there ≡ placed (asked sheet.now call.now interface.now method.now)) }
    ensures fits { IfOk result (λ there. PlacedFits call.now there) }
{
    match interface_named(sheet, interface) {
        Some((place, home)) => ask_method(alloc, sheet, call, place, home, method),
        None => answer(alloc, no_interface(alloc, interface)?),
    }
}

// A method of an interface of the sheet, which stands at this place.
fn ask_method(
    alloc: Global,
    sheet: &Sheet,
    call: &Call,
    place: u64,
    home: &Checked,
    method: &str,
) -> Result<Placed, Memory>
    requires { IsObject call.now.parameters }
    ensures placed { IfOk result
        (λ there. there ≡ placed (by_method sheet.now call.now method.now (place, home.now))) }
    ensures fits { IfOk result (λ there. PlacedFits call.now there) }
{
    let word = call.method.as_str();
    let Some(input) = input_of(home, method) else {
        return answer(alloc, no_method(alloc, word)?);
    };
    match rule_named(sheet, place, method) {
        Some((place, rule)) => ask_rule(alloc, call, home, input, place, rule),
        None => answer(alloc, no_rule(alloc, word)?),
    }
}

// The parameters of the method of this name.
fn input_of<'x>(home: &'x Checked, method: &str) -> Option<&'x Body>
    ensures found { option_copied result ≡ input_named method.now home.now }
    ensures of_struct { IfSome result (λ input. is_struct input.now ≡ true) }
{
    let _tree = home.tree();
    match home.method(method) {
        Some((input, _)) => Some(input),
        None => None,
    }
}

// A call of a method that has this rule.
fn ask_rule(
    alloc: Global,
    call: &Call,
    home: &Checked,
    input: &Body,
    place: u64,
    rule: &Rule,
) -> Result<Placed, Memory>
    requires object { IsObject call.now.parameters }
    requires of_struct { is_struct input.now ≡ true }
    ensures placed { IfOk result
        (λ there. there ≡ placed (by_rule call.now home.now input.now (place, rule.now))) }
    ensures fits { IfOk result (λ there. PlacedFits call.now there) }
{
    if mistakes_upgrade(call, rule) {
        return answer(alloc, bad_parameter(alloc, "upgrade")?);
    }
    if lacks_more(call, rule) {
        return answer(alloc, standard(alloc, StdError::ExpectedMore)?);
    }
    match read_fields(alloc, home, input, &call.parameters) {
        Ok(parameters) => Ok(Placed::Ask(Request {
            rule: place,
            parameters,
        })),
        Err(FieldFault::First(field)) => answer(alloc, bad_parameter(alloc, field.as_str())?),
        Err(FieldFault::Memory) => Err(Memory),
    }
}

// Whether an upgrade is asked for where the rule is none, or in a way in which none is given, or is not
// asked for where it is one.
fn mistakes_upgrade(call: &Call, rule: &Rule) -> bool
    ensures { result ≡ mistakes_upgrade call.now rule.now }
{
    let is_upgrade = is_upgrade(rule);
    if call.upgrade {
        !is_upgrade || call.oneway || call.more
    } else {
        is_upgrade
    }
}

// Whether several replies would come to a caller that takes one.
fn lacks_more(call: &Call, rule: &Rule) -> bool
    ensures { result ≡ lacks_more call.now rule.now }
{
    streams(rule) && !call.more
}
