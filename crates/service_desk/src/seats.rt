//! A connection's seat at the desk of a service.
ghost use Rattle.std.specs.Prelude.{◌≡◌, ◌≤◌, Ok, IfOk, IfErr};
ghost use Rattle.call_form.specs.CallOf.{IsObject};
ghost use Rattle.session_core.specs.Outcomes.{Fits};
ghost use Rattle.turn_desk.specs.Passes.{IsOf, all_asks};
ghost use Rattle.service_core.specs.Places.{place_of};
ghost use Rattle.service_core.specs.Renders.{left_of};
ghost use Rattle.service_core.specs.Runs.{IsGood};
ghost use Rattle.service_desk.specs.Boards.{IsDeskOf};
ghost use Rattle.service_desk.specs.Seats.{Hears, Misses, RendersPlaced, IsSameSeat};

use crate::boards::Board;
use call_form::Call;
use link_port::Memory;
use service_core::{Placed, Rendering, Request, Service};
use session_core::Given;
use std::alloc::Global;
use std::marker::Model;
use std::sync::Wait;
use turn_desk::{AskFault, Desk, Ledger, Pass};

/// What answers the calls of connections, one after another, by steps in turn with those of others. Contracts
/// see the service's sheet, the desk, the pass, and the number of entries made.
#[derive(Drop)]
pub struct Seated<'a, L: Ledger<Request>> {
    service: &'a Service,
    desk: &'a Desk<Board, L>,
    pass: Pass<Board, L>,
    made: u64,
}

impl<'a, L: Ledger<Request>> Model for Seated<'a, L> {
    ghost use Rattle.std.specs.Prelude.{◌≤◌};
    ghost use Rattle.std.specs.Coded.{codes};
    ghost use Rattle.sheet_form.specs.contracts.sheets.Contents as contents;
    ghost use Rattle.typed_value.specs.contracts.vals.Val as val;
    ghost use Rattle.turn_desk.specs.Passes.{IsOf};
    ghost use Rattle.service_desk.specs.Boards.{IsDeskOf};
    ghost use Rattle.service_desk.specs.Seats.{Seat};

    ghost Value = { Seat };

    ghost coded = { Prim.hlevel (codes, contents.the_row.coded, val.the_row.coded) };

    ghost view = { λ seated. record {
      sheet = seated.service.now;
      desk = seated.desk.now;
      pass = seated.pass;
      made = seated.made;
    } };

    ghost invariant = { λ seated. IsDeskOf seated.service.now seated.desk.now
        × IsOf seated.desk.now seated.pass
        × (seated.made ≤ seated.pass.asked) };
}

impl<'a, L: Ledger<Request>> Seated<'a, L> {
    /// A seat at the desk, with a pass of it.
    pub fn new(
        service: &'a Service,
        desk: &'a Desk<Board, L>,
        pass: Pass<Board, L>,
    ) -> Seated<'a, L>
        requires desk { IsDeskOf service.now desk.now }
        requires pass { IsOf desk.now pass }
        ensures { result ≡ record { sheet = service.now; desk = desk.now; pass = pass; made = 0 } }
    {
        Seated {
            service,
            desk,
            pass,
            made: 0,
        }
    }

    /// Answers a call, whose parameters are an object. One that asks for a step waits for a turn at the desk,
    /// and gives it back before a reply is made.
    ///
    /// After `Worn` and `Full` there is no new entry, and after `Memory` there is none or exactly that of the
    /// call's request.
    pub fn answer<R: Wait>(
        &mut self,
        rt: &R,
        alloc: Global,
        call: &Call,
    ) -> Result<Rendering<'a>, AskFault>
        requires { IsObject call.now.parameters }
        ensures hears { IfOk result (λ replies. Hears self.old call.now (left_of replies) self.new) }
        ensures misses { IfErr result (λ fault. Misses self.old call.now fault self.new) }
        ensures fits { IfOk result (λ replies. Fits call.now (left_of replies)) }
        ensures renders { IfOk result (λ replies.
            RendersPlaced self.old (place_of self.old.sheet call.now) replies self.new) }
        ensures same { IsSameSeat self.old self.new }
        ensures asks { all_asks self.new.pass ≡ all_asks self.old.pass }
    {
        let service: &'a Service = self.service;
        match service.place(alloc, call)? {
            Placed::Answered(outcome) => Ok(Rendering::Given(Given::new(outcome))),
            Placed::Ask(request) => self.ask(rt, alloc, call, request),
        }
    }

    // Asks for the step of a call, which was placed so.
    fn ask<R: Wait>(
        &mut self,
        rt: &R,
        alloc: Global,
        call: &Call,
        request: Request,
    ) -> Result<Rendering<'a>, AskFault>
        requires placed { place_of self.old.sheet call.now ≡ Ok request }
        requires good { IsGood self.old.sheet request }
        ensures hears { IfOk result (λ replies. Hears self.old call.now (left_of replies) self.new) }
        ensures misses { IfErr result (λ fault. Misses self.old call.now fault self.new) }
        ensures fits { IfOk result (λ replies. Fits call.now (left_of replies)) }
        ensures renders { IfOk result (λ replies.
            RendersPlaced self.old (place_of self.old.sheet call.now) replies self.new) }
        ensures same { IsSameSeat self.old self.new }
        ensures asks { all_asks self.new.pass ≡ all_asks self.old.pass }
    {
        let service: &'a Service = self.service;
        let done = self.desk.ask(rt, alloc, &mut self.pass, request)?;
        let _spent = self.pass.asked();
        self.made += 1;
        match service.finish(alloc, call, done) {
            Ok(replies) => Ok(replies),
            Err(Memory) => Err(AskFault::Memory),
        }
    }

    /// How many entries the answers of this seat have put into the history.
    pub fn made(&self) -> u64
        ensures { result ≡ self.now.made }
    {
        self.made
    }

    /// The number of the pass.
    pub fn number(&self) -> u64
        ensures { result ≡ self.now.pass.number }
    {
        self.pass.number()
    }

    /// Gives the pass back.
    pub fn leave(self) -> Pass<Board, L>
        ensures pass { result ≡ self.entry.pass }
        ensures desk { IsOf self.entry.desk result }
        ensures made { self.entry.made ≤ result.asked }
    {
        let Seated {
            service: _,
            desk: _,
            pass,
            made: _,
        } = self;
        pass
    }
}
