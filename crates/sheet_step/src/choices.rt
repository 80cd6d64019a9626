// Which branch is taken, and which guard refuses.
ghost use Rattle.std.specs.Prelude.{◌≡◌, Some, IfOk, IsSome};
ghost use Rattle.std.specs.Option.{option_copied};
ghost use Rattle.rule_values.specs.Scenes.{env_of};
ghost use Rattle.sheet_step.specs.Step.{is_taken, taken, refusing};

use link_port::Memory;
use rule_values::{Scene, holds};
use sheet_rules::{Branch, Cond, Guard};
use std::alloc::Global;

/// The first branch that has no condition or whose condition holds; there is one.
pub fn choose<'b, 'x>(
    alloc: Global,
    branches: &'b [Branch],
    scene: &Scene<'x>,
) -> Result<&'b Branch, Memory>
    requires { IsSome (taken branches.now (env_of scene.now)) }
    ensures { IfOk result (λ branch. taken branches.now (env_of scene.now) ≡ Some branch.now) }
{
    for branch in branches {
        if is_taken(alloc, &branch.when, scene)? {
            return Ok(branch);
        }
    }
    unreachable!()
}

// Whether a branch with this condition is taken, where no earlier one is.
fn is_taken<'x>(alloc: Global, when: &Option<Cond>, scene: &Scene<'x>) -> Result<bool, Memory>
    requires { IsSome (is_taken when.now (env_of scene.now)) }
    ensures { IfOk result (λ b. is_taken when.now (env_of scene.now) ≡ Some b) }
{
    match when {
        Some(cond) => holds(alloc, cond, scene),
        None => Ok(true),
    }
}

/// The first guard whose condition does not hold, if there is one.
pub fn refusal<'b, 'x>(
    alloc: Global,
    guards: &'b [Guard],
    scene: &Scene<'x>,
) -> Result<Option<&'b Guard>, Memory>
    requires { IsSome (refusing guards.now (env_of scene.now)) }
    ensures { IfOk result (λ guard. refusing guards.now (env_of scene.now) ≡ Some (option_copied guard)) }
{
    for guard in guards {
        if !holds(alloc, &guard.need, scene)? {
            return Ok(Some(guard));
        }
    }
    Ok(None)
}
