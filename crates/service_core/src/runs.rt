// Requests that are run on registers.
ghost use Rattle.std.specs.Prelude.{◌≡◌, Some, IfOk, OnErr};
ghost use Rattle.service_core.specs.Comes.{MayCome};
ghost use Rattle.service_core.specs.Runs.{IsTyped, IsGood, Ran};
ghost use Rattle.service_core.specs.Tells.{stepped};

use crate::kinds::{home_of, rule_at};
use crate::renderings::Rendering;
use crate::requests::Request;
use crate::services::Service;
use link_port::Memory;
use sheet_form::Sheet;
use sheet_step::{Done, Registers, step};
use std::alloc::Global;

/// Runs the rule of a request on registers of their types. After want of memory they are as before.
pub fn run<'a>(
    alloc: Global,
    service: &'a Service,
    request: Request,
    registers: &mut Registers,
) -> Result<Rendering<'a>, Memory>
    requires good { IsGood service.now request }
    requires typed { IsTyped (record { sheet = service.now; registers = registers.old }) }
    ensures ran { IfOk result (λ replies.
        Ran (record { sheet = service.now; registers = registers.old }) request replies registers.new) }
    ensures typed { IsTyped (record { sheet = service.now; registers = registers.new }) }
    ensures memory { OnErr result (registers.new ≡ registers.old) }
{
    let done = request.run(alloc, service.sheet(), registers)?;
    service.render(alloc, request.rule, done)
}

impl Request {
    /// Does one step of the rule on registers of their types, and gives what it came to. After want of
    /// memory they are as before.
    pub fn run(
        &self,
        alloc: Global,
        sheet: &Sheet,
        registers: &mut Registers,
    ) -> Result<Done, Memory>
        requires good { IsGood sheet.now self.now }
        requires typed { IsTyped (record { sheet = sheet.now; registers = registers.old }) }
        ensures stepped { IfOk result (λ done.
            stepped (record { sheet = sheet.now; registers = registers.old }) self.now
            ≡ Some (done, registers.new)) }
        ensures comes { IfOk result (λ done. MayCome sheet.now self.now.rule done) }
        ensures typed { IsTyped (record { sheet = sheet.now; registers = registers.new }) }
        ensures memory { OnErr result (registers.new ≡ registers.old) }
    {
        let Some(rule) = rule_at(sheet, self.rule) else {
            unreachable!()
        };
        let Some(home) = home_of(sheet, self.rule) else {
            unreachable!()
        };
        let name = home.tree().name.as_str();
        step(alloc, name, rule, &self.parameters, registers)
    }
}
