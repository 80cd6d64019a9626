// An upgrade that is accepted by a reply that is made when it is asked for.
ghost use Rattle.std.specs.Prelude.{◌≡◌, false};
ghost use Rattle.service_core.specs.Upgrades.{left_accepted};

use crate::finishing::show;
use crate::replies::plain;
use crate::services::Service;
use call_form::{Raw, Reply};
use link_port::Memory;
use session_core::Replies;
use std::alloc::Global;
use std::marker::Model;
use typed_value::Val;

/// An accepted upgrade, with the value that its reply shows: the reply is made when it is asked for.
/// Contracts see what the service serves, the place of the rule, what becomes of the bytes behind the
/// reply, the value, and whether the reply was given.
#[derive(Drop)]
pub struct Upgrade<'a> {
    service: &'a Service,
    rule: u64,
    raw: Raw,
    value: Val,
    given: bool,
}

impl<'a> Model for Upgrade<'a> {
    ghost use Rattle.std.specs.Coded.{codes};
    ghost use Rattle.sheet_form.specs.contracts.sheets.Contents as contents;
    ghost use Rattle.typed_value.specs.contracts.vals.Val as val;
    ghost use Rattle.call_form.specs.contracts.Raw as kind;
    ghost use Rattle.service_core.specs.Upgrades.{Accepted};

    ghost Value = { Accepted };

    ghost coded = { Prim.hlevel (codes, contents.the_row.coded, val.the_row.coded, kind.the_row.coded) };

    ghost view = { λ upgrade. record {
      sheet = upgrade.service.now;
      rule = upgrade.rule;
      raw = upgrade.raw;
      value = upgrade.value;
      given = upgrade.given;
    } };
}

impl<'a> Upgrade<'a> {
    /// The upgrade whose reply shows this value.
    pub(crate) fn new(service: &'a Service, rule: u64, raw: Raw, value: Val) -> Upgrade<'a>
        ensures { result ≡ record {
          sheet = service.now;
          rule = rule;
          raw = raw;
          value = value;
          given = false;
        } }
    {
        Upgrade {
            service,
            rule,
            raw,
            value,
            given: false,
        }
    }
}

impl<'a> Replies for Upgrade<'a> {
    ghost left = { left_accepted };

    fn next(&mut self, alloc: Global) -> Result<Option<Reply>, Memory> {
        if self.given {
            return Ok(None);
        }
        let parameters = show(alloc, self.service, self.rule, &self.value)?;
        self.given = true;
        Ok(Some(plain(parameters)))
    }

    fn raw(&self) -> Option<Raw> {
        Some(self.raw)
    }
}
