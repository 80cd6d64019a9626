// What references refer to.
ghost use Rattle.std.specs.Prelude.{◌≡◌};
ghost use Rattle.std.specs.Option.{option_copied};
ghost use Rattle.rule_values.specs.Meanings.{found};
ghost use Rattle.rule_values.specs.Scenes.{env_of};

use crate::parts::at_path;
use crate::scenes::Scene;
use sheet_rules::Ref;
use typed_value::Val;

/// What is referred to.
pub fn find<'x>(to: &Ref, scene: &Scene<'x>) -> Option<&'x Val>
    ensures { option_copied result ≡ found (env_of scene.now) to.now }
{
    match to {
        Ref::Param(path) => at_path(scene.parameters, path.as_slice()),
        Ref::Register(place, path) => match scene.registers.get(*place as usize) {
            Some(val) => at_path(val, path.as_slice()),
            None => None,
        },
        Ref::Item(path) => match scene.item {
            Some(val) => at_path(val, path.as_slice()),
            None => None,
        },
    }
}
