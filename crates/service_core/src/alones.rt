// A service with registers of its own.
ghost use Rattle.std.specs.Prelude.{◌≡◌, IfOk, OnErr};
ghost use Rattle.call_form.specs.CallOf.{IsObject};
ghost use Rattle.session_core.specs.Outcomes.{Fits};
ghost use Rattle.session_core.specs.Tells.{tells_by};
ghost use Rattle.service_core.specs.Places.{place_of};
ghost use Rattle.service_core.specs.Tells.{started, tell_of};
ghost use Rattle.service_core.specs.Renders.{left_of, RendersPlaced};

use crate::renderings::Rendering;
use crate::requests::Placed;
use crate::runs::run;
use crate::services::Service;
use call_form::Call;
use link_port::Memory;
use session_core::{Answerer, Given};
use sheet_step::Registers;
use std::alloc::Global;
use std::marker::Model;

/// A service that answers the calls of one session, with registers of its own. Contracts see what it
/// serves, and the values of the registers.
#[derive(Drop)]
pub struct Alone<'a> {
    service: &'a Service,
    registers: Registers,
}

impl<'a> Model for Alone<'a> {
    ghost use Rattle.std.specs.Prelude.{◌≡◌, true};
    ghost use Rattle.std.specs.Coded.{codes};
    ghost use Rattle.sheet_form.specs.contracts.sheets.Contents as contents;
    ghost use Rattle.typed_value.specs.contracts.vals.Val as val;
    ghost use Rattle.step_laws.specs.Ready.{are_of_types};
    ghost use Rattle.service_core.specs.States.{State};

    ghost Value = { State };

    ghost coded = { Prim.hlevel (codes, contents.the_row.coded, val.the_row.coded) };

    ghost view = { λ alone. record { sheet = alone.service.now; registers = alone.registers } };

    ghost invariant = { λ alone.
        are_of_types alone.service.now.interfaces alone.service.now.registers alone.registers ≡ true };
}

impl<'a> Alone<'a> {
    /// The service with the registers that its sheet begins with.
    pub fn new(alloc: Global, service: &'a Service) -> Result<Alone<'a>, Memory>
        ensures { IfOk result (λ alone. alone ≡ started service.now) }
    {
        Ok(Alone {
            service,
            registers: Registers::start(alloc, service.sheet().registers())?,
        })
    }

    /// Lends the registers.
    pub fn registers(&self) -> &Registers
        ensures { result.now ≡ self.now.registers }
    {
        &self.registers
    }
}

impl<'a> Answerer for Alone<'a> {
    type Out = Rendering<'a>;

    ghost tells = { tells_by tell_of };

    fn answer(&mut self, alloc: Global, call: &Call) -> Result<Rendering<'a>, Memory>
        requires { IsObject call.now.parameters }
        ensures told { IfOk result (λ replies.
            tells_by tell_of self.old call.now (left_of replies) self.new) }
        ensures fits { IfOk result (λ replies. Fits call.now (left_of replies)) }
        ensures renders { IfOk result (λ replies.
            RendersPlaced self.old (place_of self.old.sheet call.now) replies) }
        ensures memory { OnErr result (self.new ≡ self.old) }
    {
        let service: &'a Service = self.service;
        let _sheet = service.sheet();
        match service.place(alloc, call)? {
            Placed::Answered(outcome) => Ok(Rendering::Given(Given::new(outcome))),
            Placed::Ask(request) => run(alloc, service, request, &mut self.registers),
        }
    }
}
