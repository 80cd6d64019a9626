// What the replies of a method are, by the definition that a service gives.
ghost use Rattle.std.specs.Prelude.{◌≡◌, true, Ok, IfSome, is_some, MatchResult, Result};
ghost use Rattle.std.specs.Option.{option_copied};
ghost use Rattle.serde_json.specs.Find.{as_object};
ghost use Rattle.idl_tree.specs.Form.{is_struct};
ghost use Rattle.standard_calls.specs.Descriptions.{Output, Says, Answers, Same, MethodIs, output_named, text_in};
ghost use Rattle.standard_calls.specs.Descriptions.{IsWhy, TellsDefinition, TellsField, IsRefusal, unread};
ghost use Rattle.standard_calls.specs.declared.faults.NoDescription.{NoDescription};

use crate::faults::NoDescription;
use call_form::Reply;
use idl_grammar::{IdlFault, read};
use idl_tree::{Body, Checked};
use link_port::{Text, Value};
use serde_json::Value as Json;
use std::alloc::Global;
use std::marker::Model;
use typed_value::{FieldFault, read_fields};

/// A method of a definition that was given, whose replies can be read by it.
#[derive(Drop)]
pub struct Described {
    scope: Checked,
    method: Text,
}

impl Model for Described {
    ghost use Rattle.std.specs.Prelude.{◌≡◌};
    ghost use Rattle.idl_tree.specs.contracts.trees.Interface as tree;
    ghost use Rattle.std.specs.Coded.{codes};
    ghost use Rattle.standard_calls.specs.Descriptions.{Output, IsMethod};

    ghost Value = { Output };

    ghost coded = { Prim.hlevel (codes, tree.the_row.coded) };

    ghost view = { λ described. record { scope = described.scope; method = described.method } };

    ghost invariant = { λ described. IsMethod described.scope described.method };
}

impl Described {
    /// The method of this name by the reply to a call for a definition (varlink.org, "Service":
    /// `GetInterfaceDescription`), or the first thing that is missing in that reply. The definition's own name is
    /// not asked.
    #[tactic(auto, using(crate::proofs::OneAnswer::one_answer))]
    pub fn of(alloc: Global, reply: &Reply, method: &str) -> Result<Described, NoDescription>
        ensures says { Answers (Says reply.now method.now) result }
        ensures exact { (other : Result Output NoDescription) → Says reply.now method.now other
            → Same result other }
    {
        said_of(alloc, reply, method)
    }

    /// Reads the parameters of a reply without error, an object, by the method's output. The fault names the first
    /// field, in declared order, that does not read.
    pub fn check(&self, alloc: Global, parameters: &Value) -> Result<(), FieldFault>
        requires { is_some (as_object parameters.now) ≡ true }
        ensures { TellsField result (unread self.now parameters.now) }
    {
        let Some(output) = output_of(&self.scope, self.method.as_str()) else {
            unreachable!()
        };
        match read_fields(alloc, &self.scope, output, parameters) {
            Ok(value) => {
                drop(value);
                Ok(())
            }
            Err(fault) => Err(fault),
        }
    }
}

// What a reply says of the method of this name.
fn said_of(alloc: Global, reply: &Reply, method: &str) -> Result<Described, NoDescription>
    ensures { Answers (Says reply.now method.now) result }
{
    let text = text_in(alloc, reply)?;
    let scope = definition(alloc, text)?;
    method_of(alloc, scope, method)
}

// The text of the definition in a reply.
fn text_in<'x>(alloc: Global, reply: &'x Reply) -> Result<&'x str, NoDescription>
    ensures { MatchResult result (λ text. text_in reply.now ≡ Ok text.now)
        (λ why. IsWhy why (text_in reply.now)) }
{
    match &reply.error {
        Some(name) => Err(NoDescription::ErrorReply(Text::of(alloc, name.as_str())?)),
        None => match reply.parameters.inner().get("description") {
            Some(Json::String(text)) => Ok(text.as_str()),
            _ => Err(NoDescription::NoText),
        },
    }
}

// The definition that the text is.
fn definition(alloc: Global, text: &str) -> Result<Checked, NoDescription>
    ensures { TellsDefinition result text.now }
{
    match read(alloc, text.as_bytes()) {
        Ok(scope) => Ok(scope),
        Err(IdlFault::Memory) => Err(NoDescription::Memory),
        Err(fault) => Err(NoDescription::Idl(fault)),
    }
}

// The method of this name in a definition.
fn method_of(alloc: Global, scope: Checked, method: &str) -> Result<Described, NoDescription>
    ensures { Answers (MethodIs scope method.now) result }
{
    match refusal(&scope, method) {
        None => match Text::of(alloc, method) {
            Ok(method) => Ok(Described { scope, method }),
            Err(stop) => {
                drop(scope);
                Err(NoDescription::from(stop))
            }
        },
        Some(why) => {
            drop(scope);
            Err(why)
        }
    }
}

// Why nothing is read by a method of this name.
fn refusal(scope: &Checked, method: &str) -> Option<NoDescription>
    ensures { IsRefusal scope.now method.now result }
{
    match output_of(scope, method) {
        None => Some(NoDescription::NoMethod),
        Some(output) if scope.body_reaches_float(output) => Some(NoDescription::Float),
        Some(_) => None,
    }
}

// What the replies of a method are.
fn output_of<'x>(scope: &'x Checked, method: &str) -> Option<&'x Body>
    ensures found { option_copied result ≡ output_named scope.now method.now }
    ensures of_struct { IfSome result (λ output. is_struct output.now ≡ true) }
{
    let _tree = scope.tree();
    match scope.method(method) {
        Some((_, output)) => Some(output),
        None => None,
    }
}
