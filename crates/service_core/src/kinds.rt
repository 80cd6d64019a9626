// The kinds of rules, and what is found in a sheet by name or place.
ghost use Rattle.std.specs.Prelude.{◌≡◌, option_map, slice_get};
ghost use Rattle.std.specs.Option.{option_copied};
ghost use Rattle.step_laws.specs.Kinds as kinds;
ghost use Rattle.service_core.specs.Places.{is_upgrade};
ghost use Rattle.service_core.specs.Sheets as found;

use crate::words::at_last_dot;
use idl_tree::{Body, Checked};
use sheet_form::Sheet;
use sheet_rules::{Ending, Rule};

/// Whether a rule is an upgrade.
pub fn is_upgrade(rule: &Rule) -> bool
    ensures { result ≡ is_upgrade rule.now }
{
    match rule.branches.as_slice().first() {
        Some(branch) => matches!(branch.outcome, Ending::Upgrade { .. }),
        None => false,
    }
}

/// Whether a rule gives a stream of replies.
pub fn streams(rule: &Rule) -> bool
    ensures { result ≡ kinds.streams rule.now }
{
    match rule.branches.as_slice().first() {
        Some(branch) => matches!(branch.outcome, Ending::Stream { .. }),
        None => false,
    }
}

/// The interface of this name, with its place.
pub fn interface_named<'x>(sheet: &'x Sheet, name: &str) -> Option<(u64, &'x Checked)>
    ensures { option_map (λ found. (found.0, found.1.now)) result ≡ found.interface_named sheet.now name.now }
{
    let place = sheet.interface_of(name)?;
    let interface = sheet.interfaces().get(place as usize)?;
    Some((place, interface))
}

/// The rule of the method of this name of the interface at a place, with the rule's place.
pub fn rule_named<'x>(sheet: &'x Sheet, interface: u64, method: &str) -> Option<(u64, &'x Rule)>
    ensures { option_map (λ found. (found.0, found.1.now)) result
        ≡ found.rule_named sheet.now interface method.now }
{
    let place = sheet.rule_of(interface, method)?;
    let rule = sheet.rules().get(place as usize)?;
    Some((place, rule))
}

/// The rule at a place.
pub fn rule_at(sheet: &Sheet, place: u64) -> Option<&Rule>
    ensures { option_copied result ≡ slice_get sheet.now.rules place }
{
    sheet.rules().get(place as usize)
}

/// The interface of the rule at a place.
pub fn home_of(sheet: &Sheet, place: u64) -> Option<&Checked>
    ensures { option_copied result ≡ found.home_of sheet.now place }
{
    let rule = sheet.rules().get(place as usize)?;
    sheet.interfaces().get(rule.interface as usize)
}

/// What the method of the rule at a place replies, with its interface.
pub fn output_of(sheet: &Sheet, place: u64) -> Option<(&Checked, &Body)>
    ensures { option_map (λ shape. (shape.0.now, shape.1.now)) result ≡ found.output_of sheet.now place }
{
    let rule = sheet.rules().get(place as usize)?;
    let home = sheet.interfaces().get(rule.interface as usize)?;
    let (_, output) = home.method(rule.method.as_str())?;
    Some((home, output))
}

/// The parameters of an error, by its qualified name, of the interface of the rule at a place, with that
/// interface.
pub fn error_of<'x>(sheet: &'x Sheet, place: u64, error: &str) -> Option<(&'x Checked, &'x Body)>
    ensures { option_map (λ shape. (shape.0.now, shape.1.now)) result
        ≡ found.error_of sheet.now place error.now }
{
    let home = home_of(sheet, place)?;
    let (_, name) = at_last_dot(error)?;
    let body = home.error_of(name)?;
    Some((home, body))
}
