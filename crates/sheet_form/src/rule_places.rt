// The places of rules by their methods.
ghost use Rattle.std.specs.Prelude.{◌≡◌, ◌&&◌, ◌<◌, ℕ, true, is_none, if◌then◌else◌, length, IfOk, OnOk, Some};
ghost use Rattle.std.specs.List.{list_all};
ghost use Rattle.idl_tree.specs.Names.{Bytes};
ghost use Rattle.sheet_form.specs.RulePlaces.{Tells, is_rule_of, is_within, placed};

use expression_form::put_first;
use link_port::{List, Memory};
use sheet_rules::Rule;
use std::alloc::Global;
use std::collections::BTreeMap;

/// Where the rule of each method stands.
#[derive(Drop)]
pub struct RulePlaces {
    /// For each interface of the sheet the places of its methods' rules.
    pub by_interface: Vec<BTreeMap<String, usize>>,
}

impl RulePlaces {
    /// The places of these rules of a sheet of so many interfaces; of those of one method the first one
    /// counts.
    pub fn of(alloc: Global, interfaces: usize, rules: &[Rule]) -> Result<RulePlaces, Memory>
        requires { list_all (is_within interfaces) rules.now ≡ true }
        ensures { IfOk result (λ places. Tells places.by_interface.items rules.now) }
    {
        let mut by_interface = no_places(alloc, interfaces)?.into_vec();
        for (place, rule) in rules.iter().enumerate() {
            put_rule(alloc, &mut by_interface, rule, place)?;
        }
        Ok(RulePlaces { by_interface })
    }

    /// The place of the rule of this method of the interface of this place.
    pub fn place(&self, interface: u64, method: &str) -> Option<u64>
        ensures { result ≡ placed self.now.by_interface.items interface method.now }
    {
        let methods = self.by_interface.get(interface as usize)?;
        match methods.get(method) {
            Some(place) => Some(*place as u64),
            None => None,
        }
    }
}

// So many interfaces without a rule.
fn no_places(alloc: Global, interfaces: usize) -> Result<List<BTreeMap<String, usize>>, Memory>
    ensures size { IfOk result (λ maps. length maps ≡ interfaces) }
    ensures none { IfOk result (λ maps. (interface : ℕ) (method : Bytes)
        → is_none (placed maps interface method) ≡ true) }
{
    let mut maps = List::new(alloc);
    for _interface in 0..interfaces {
        maps.push(BTreeMap::new(alloc))?;
    }
    Ok(maps)
}

// Puts the place of a rule, unless an earlier one has its method.
fn put_rule(
    alloc: Global,
    maps: &mut Vec<BTreeMap<String, usize>>,
    rule: &Rule,
    place: usize,
) -> Result<(), Memory>
    ensures size { OnOk result (length maps.new.items ≡ length maps.old.items) }
    ensures put { OnOk result ((interface : ℕ) (method : Bytes) → interface < length maps.new.items
        → placed maps.new.items interface method
        ≡ (if is_rule_of interface method rule.now && is_none (placed maps.old.items interface method)
        then Some place else placed maps.old.items interface method)) }
{
    match maps.get_mut(rule.interface as usize) {
        Some(methods) => put_first(alloc, methods, rule.method.as_str(), place),
        None => Ok(()),
    }
}
