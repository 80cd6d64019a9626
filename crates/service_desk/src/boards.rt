//! The registers of a service as the object of a desk.
ghost use Rattle.std.specs.Prelude.{◌≡◌, IfOk};
ghost use Rattle.service_core.specs.Runs.{IsTyped};
ghost use Rattle.service_core.specs.Tells.{started};

use link_port::Memory;
use service_core::{Request, Service};
use sheet_form::Sheet;
use sheet_step::{Done, Registers};
use std::alloc::Global;
use std::marker::Model;
use std::sync::Arc;
use turn_desk::Object;
use typed_value::weight;

/// What an entry of the history weighs before its parameters.
pub const ENTRY_WEIGHT: u64 = 64;

/// The most that one entry is counted as.
const GREATEST_WEIGHT: u64 = 1 << 63;

/// A shared sheet with its registers, which requests change. Contracts see what the sheet says, and the
/// values of the registers, which are of their types.
#[derive(Drop)]
pub struct Board {
    sheet: Arc<Sheet, Global>,
    registers: Registers,
}

impl Model for Board {
    ghost use Rattle.std.specs.Prelude.{◌≡◌, true};
    ghost use Rattle.std.specs.Coded.{codes};
    ghost use Rattle.sheet_form.specs.contracts.sheets.Contents as contents;
    ghost use Rattle.typed_value.specs.contracts.vals.Val as val;
    ghost use Rattle.step_laws.specs.Ready.{are_of_types};
    ghost use Rattle.service_core.specs.States.{State};

    ghost Value = { State };

    ghost coded = { Prim.hlevel (codes, contents.the_row.coded, val.the_row.coded) };

    ghost view = { λ board. record { sheet = board.sheet.value; registers = board.registers } };

    ghost invariant = { λ board.
        are_of_types board.sheet.value.interfaces board.sheet.value.registers board.registers ≡ true };
}

impl Board {
    /// The service's sheet with the registers that it begins with.
    pub fn start(alloc: Global, service: &Service) -> Result<Board, Memory>
        ensures started { IfOk result (λ board. board ≡ started service.now) }
        ensures typed { IfOk result IsTyped }
    {
        let registers = Registers::start(alloc, service.sheet().registers())?;
        match service.shared() {
            Ok(sheet) => Ok(Board { sheet, registers }),
            Err(Memory) => {
                drop(registers);
                Err(Memory)
            }
        }
    }

    /// Lends the sheet.
    pub fn sheet(&self) -> &Sheet
        ensures { result.now ≡ self.now.sheet }
    {
        &self.sheet
    }

    /// Lends the registers, which are of their types.
    pub fn registers(&self) -> &Registers
        ensures registers { result.now ≡ self.now.registers }
        ensures typed { IsTyped self.now }
    {
        &self.registers
    }
}

impl Object for Board {
    type Request = Request;

    type Reply = Done;

    ghost use Rattle.service_desk.specs.Boards as told;

    ghost good = { told.IsGoodFor };

    ghost after = { told.state_after };

    ghost answer = { told.answer_of };

    ghost weigh = { told.weigh };

    ghost lasting = { λ s q r h. ((λ x. x), λ x. x) };

    fn step(&mut self, alloc: Global, request: &Request) -> Result<Done, Memory> {
        request.run(alloc, &self.sheet, &mut self.registers)
    }

    fn weight(&self, request: &Request) -> u64 {
        let sum = ENTRY_WEIGHT + weight(&request.parameters);
        sum.min(GREATEST_WEIGHT)
    }
}
