// The registers of a sheet.
ghost use Rattle.std.specs.Prelude.{◌≡◌, true, map, Some, IsSome, IfOk, OnErr};
ghost use Rattle.sheet_rules.specs.declared.forms.Register.{Register};
ghost use Rattle.sheet_step.specs.Levels as limits;
ghost use Rattle.sheet_step.specs.Step as told;

use crate::dones::Done;
use crate::steps::run;
use link_port::Memory;
use sheet_rules::{Branch, Register};
use std::alloc::Global;
use std::marker::Model;
use typed_value::{Val, copy};

/// The values of a sheet's registers, in the sheet's order, none of which has more levels than it may.
#[derive(Drop)]
pub struct Registers {
    values: Vec<Val>,
}

impl Model for Registers {
    ghost use Rattle.std.specs.Prelude.{◌≡◌, true, List};
    ghost use Rattle.std.specs.Coded.{coded_list};
    ghost use Rattle.typed_value.specs.declared.vals.Val.{Val};
    ghost use Rattle.typed_value.specs.contracts.vals.Val as row;
    ghost use Rattle.sheet_step.specs.Levels.{are_within};

    ghost Value = { List Val };

    ghost coded = { coded_list row.the_row.coded };

    ghost view = { λ registers. registers.values.items };

    ghost invariant = { λ registers. are_within registers.values.items ≡ true };
}

impl Registers {
    /// The registers as a sheet starts them: each has its initial value.
    pub fn start(alloc: Global, registers: &[Register]) -> Result<Registers, Memory>
        requires { limits.are_within (map (λ (register : Register). register.initial) registers.now) ≡ true }
        ensures { IfOk result (λ started. started ≡ map (λ (register : Register). register.initial) registers.now) }
    {
        Ok(Registers {
            values: initial_values(alloc, registers)?,
        })
    }

    /// Lends the values.
    pub fn values(&self) -> &[Val]
        ensures values { result.now ≡ self.now }
        ensures within { limits.are_within self.now ≡ true }
    {
        self.values.as_slice()
    }

    // Runs a rule's branches.
    pub fn run(
        &mut self,
        alloc: Global,
        interface: &str,
        branches: &[Branch],
        parameters: &Val,
    ) -> Result<Done, Memory>
        requires { IsSome (told.step interface.now branches.now parameters.now self.old) }
        ensures ok { IfOk result (λ done. told.step interface.now branches.now parameters.now self.old
            ≡ Some (done, self.new)) }
        ensures memory { OnErr result (self.new ≡ self.old) }
    {
        run(alloc, interface, branches, parameters, &mut self.values)
    }

    /// An equal copy.
    pub fn copy(&self, alloc: Global) -> Result<Registers, Memory>
        ensures { IfOk result (λ copy. copy ≡ self.now) }
    {
        Ok(Registers {
            values: copies(alloc, self.values.as_slice())?,
        })
    }
}

fn initial_values(alloc: Global, registers: &[Register]) -> Result<Vec<Val>, Memory>
    ensures { IfOk result (λ vals. vals.items ≡ map (λ (register : Register). register.initial) registers.now) }
{
    let mut values = Vec::with_capacity(alloc, registers.len())?;
    for register in registers {
        let value = copy(alloc, &register.initial)?;
        values.push_reserved(value);
    }
    Ok(values)
}

fn copies(alloc: Global, vals: &[Val]) -> Result<Vec<Val>, Memory>
    ensures { IfOk result (λ copies. copies.items ≡ vals.now) }
{
    let mut copies = Vec::with_capacity(alloc, vals.len())?;
    for val in vals {
        let value = copy(alloc, val)?;
        copies.push_reserved(value);
    }
    Ok(copies)
}
