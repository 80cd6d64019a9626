// Replies that are made when they are asked for.
ghost use Rattle.std.specs.Prelude.{◌≡◌, ◌+◌, ◌^◌, ◌<◌, IfOk, IfSome, OnErr, slice_get};
ghost use Rattle.std.specs.Option.{option_copied};
ghost use Rattle.session_core.specs.Outcomes.{Nexts};
ghost use Rattle.service_core.specs.Lates.{left_late};

use crate::finishing::show;
use crate::services::Service;
use call_form::{Raw, Reply};
use link_port::{List, Memory};
use session_core::Replies;
use std::alloc::Global;
use std::marker::Model;
use typed_value::Val;

/// The replies of a rule, of which the values are there: each is made when it is asked for. Contracts see
/// what the service serves, the place of the rule, the values, and the place of the next one.
#[derive(Drop)]
pub struct Late<'a> {
    service: &'a Service,
    rule: u64,
    values: List<Val>,
    next: u64,
}

impl<'a> Model for Late<'a> {
    ghost use Rattle.std.specs.Coded.{codes};
    ghost use Rattle.sheet_form.specs.contracts.sheets.Contents as contents;
    ghost use Rattle.typed_value.specs.contracts.vals.Val as val;
    ghost use Rattle.service_core.specs.Lates.{Held};

    ghost Value = { Held };

    ghost coded = { Prim.hlevel (codes, contents.the_row.coded, val.the_row.coded) };

    ghost view = { λ late. record {
      sheet = late.service.now;
      rule = late.rule;
      values = late.values;
      next = late.next;
    } };
}

impl<'a> Late<'a> {
    /// The replies to all of these values.
    pub(crate) fn new(service: &'a Service, rule: u64, values: List<Val>) -> Late<'a>
        ensures { result ≡ record { sheet = service.now; rule = rule; values = values; next = 0 } }
    {
        Late {
            service,
            rule,
            values,
            next: 0,
        }
    }
}

impl<'a> Replies for Late<'a> {
    ghost left = { left_late };

    fn next(&mut self, alloc: Global) -> Result<Option<Reply>, Memory>
        ensures given { IfOk result (λ reply. Nexts (left_late self.old) reply (left_late self.new)) }
        ensures memory { OnErr result (left_late self.new ≡ left_late self.old) }
        ensures kept { OnErr result (self.new ≡ self.old) }
        ensures next { IfOk result (λ reply. IfSome reply
            (λ _. self.new ≡ record self.old { next = self.old.next + 1 })) }
    {
        let Some(value) = value_at(&self.values, self.next) else {
            return Ok(None);
        };
        let parameters = show(alloc, self.service, self.rule, value)?;
        let continues = value_at(&self.values, self.next + 1).is_some();
        self.next += 1;
        Ok(Some(Reply {
            parameters,
            continues,
            error: None,
        }))
    }

    fn raw(&self) -> Option<Raw> {
        None
    }
}

// The value at a place.
fn value_at(values: &List<Val>, place: u64) -> Option<&Val>
    ensures value { option_copied result ≡ slice_get values.now place }
    ensures within { IfSome result (λ _. place + 1 < 2 ^ 64) }
{
    if place < values.len() {
        values.as_slice().get(place as usize)
    } else {
        None
    }
}
