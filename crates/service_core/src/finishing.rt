// The replies to calls whose steps are done.
ghost use Rattle.std.specs.Prelude.{◌≡◌, Ok, IfOk, OnErr, option_map};
ghost use Rattle.session_core.specs.Outcomes.{Fits};
ghost use Rattle.service_core.specs.Sheets.{output_of, error_of};
ghost use Rattle.service_core.specs.Places.{place_of, one};
ghost use Rattle.service_core.specs.Comes.{IsComeTo, MayCome, called};
ghost use Rattle.service_core.specs.Outcomes.{shown, refusal_of, outcome_of};
ghost use Rattle.service_core.specs.Renders.{left_of, Renders, Refuses};
ghost use Rattle.service_core.specs.declared.requests.Request.{Request};
ghost use Rattle.service_core.specs.declared.renderings.Rendering.TheVariants as rendering;

use crate::kinds::{error_of, interface_named, output_of, rule_named};
use crate::lates::Late;
use crate::renderings::Rendering;
use crate::replies::{bad_parameter, one};
use crate::services::Service;
use crate::upgrades::Upgrade;
use crate::words::at_last_dot;
use call_form::{Call, Reply};
use idl_tree::{Body, Checked};
use link_port::{Memory, Text, Value};
use serde_json::Value as Json;
use session_core::Given;
use sheet_form::Sheet;
use sheet_step::Done;
use std::alloc::Global;
use typed_value::{Val, show_fields};

impl Service {
    /// The replies to a call whose step came to this. Those that follow each other are made when they are
    /// asked for, and so is the one that accepts an upgrade.
    pub fn finish(&self, alloc: Global, call: &Call, done: Done) -> Result<Rendering<'_>, Memory>
        requires { IsComeTo self.now call.now done }
        ensures outcome { IfOk result (λ replies. (request : Request)
            → place_of self.now call.now ≡ Ok request
            → left_of replies ≡ outcome_of self.now request.rule done) }
        ensures renders { IfOk result (λ replies. (request : Request)
            → place_of self.now call.now ≡ Ok request
            → Renders self.now request.rule done replies) }
        ensures fits { IfOk result (λ replies. Fits call.now (left_of replies)) }
    {
        match called(self.sheet(), call.method.as_str()) {
            Some(rule) => self.render(alloc, rule, done),
            None => unreachable!(),
        }
    }

    /// The replies to a request of the rule at a place, whose step came to this. Want of memory comes only
    /// where the step was refused, and so changed nothing.
    pub fn render(&self, alloc: Global, rule: u64, done: Done) -> Result<Rendering<'_>, Memory>
        requires { MayCome self.now rule done }
        ensures outcome { IfOk result (λ replies. left_of replies ≡ outcome_of self.now rule done) }
        ensures renders { IfOk result (λ replies. Renders self.now rule done replies) }
        ensures memory { OnErr result (Refuses done) }
    {
        match done {
            Done::Replies(values) => Ok(Rendering::Late(Late::new(self, rule, values))),
            Done::Upgrade { raw, parameters } => {
                Ok(Rendering::Upgrade(Upgrade::new(self, rule, raw, parameters)))
            }
            Done::Refused { error, parameters } => {
                given(alloc, refusal(alloc, self, rule, error, parameters)?)
            }
            Done::TooDeep => given(alloc, bad_parameter(alloc, "depth")?),
        }
    }
}

// The place of the rule of the method that a word names.
fn called(sheet: &Sheet, word: &str) -> Option<u64>
    ensures { result ≡ called sheet.now word.now }
{
    let (interface, method) = at_last_dot(word)?;
    let (home, _) = interface_named(sheet, interface)?;
    let (rule, _) = rule_named(sheet, home, method)?;
    Some(rule)
}

// One reply that is there.
fn given<'a>(alloc: Global, reply: Reply) -> Result<Rendering<'a>, Memory>
    ensures { IfOk result (λ replies. replies ≡ rendering.Given (one reply)) }
{
    Ok(Rendering::Given(Given::new(one(alloc, reply)?)))
}

// The reply that tells of a refused guard.
fn refusal(
    alloc: Global,
    service: &Service,
    rule: u64,
    error: Text,
    parameters: Val,
) -> Result<Reply, Memory>
    ensures { IfOk result (λ reply. reply ≡ refusal_of service.now rule error parameters) }
{
    let shown = show_error(alloc, service.sheet(), rule, error.as_str(), &parameters);
    drop(parameters);
    match shown {
        Ok(parameters) => Ok(Reply {
            parameters,
            continues: false,
            error: Some(error),
        }),
        Err(Memory) => {
            drop(error);
            Err(Memory)
        }
    }
}

/// The parameters of a reply of the rule at a place.
pub fn show(alloc: Global, service: &Service, rule: u64, value: &Val) -> Result<Value, Memory>
    ensures { IfOk result (λ parameters. parameters ≡ shown (output_of service.now rule) value.now) }
{
    show_by(alloc, output_of(service.sheet(), rule), value)
}

// The parameters of a refusal by the rule at a place.
fn show_error(
    alloc: Global,
    sheet: &Sheet,
    rule: u64,
    error: &str,
    value: &Val,
) -> Result<Value, Memory>
    ensures { IfOk result (λ parameters. parameters ≡ shown (error_of sheet.now rule error.now) value.now) }
{
    show_by(alloc, error_of(sheet, rule, error), value)
}

// The object that shows a value by a body.
fn show_by(alloc: Global, shape: Option<(&Checked, &Body)>, value: &Val) -> Result<Value, Memory>
    ensures { IfOk result (λ parameters. parameters
        ≡ shown (option_map (λ found. (found.0.now, found.1.now)) shape.entry) value.now) }
{
    match shape {
        Some((home, body)) => show_fields(alloc, home, body, value),
        None => Ok(Value::of(Json::Null)),
    }
}
