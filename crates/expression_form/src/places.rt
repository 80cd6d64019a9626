// The places of registers by their names.
ghost use Rattle.std.specs.Prelude.{◌≡◌, ◌&&◌, is_none, if◌then◌else◌, IfOk, OnOk, Some};
ghost use Rattle.std.specs.Str.{bytes_eq};
ghost use Rattle.std.specs.BTreeMap.{get_by_text};
ghost use Rattle.idl_tree.specs.Names.{Bytes};
ghost use Rattle.expression_form.specs.Places.{Finds};

use link_port::Memory;
use sheet_rules::Register;
use std::alloc::Global;
use std::collections::BTreeMap;

/// Where the register of each name stands.
#[derive(Drop)]
pub struct Places {
    pub by_name: BTreeMap<String, usize>,
}

impl Places {
    /// The places of these registers; of those of one name the first one counts.
    pub fn of(alloc: Global, registers: &[Register]) -> Result<Places, Memory>
        ensures { IfOk result (λ places. Finds places.by_name registers.now) }
    {
        let mut by_name = BTreeMap::new(alloc);
        for (place, register) in registers.iter().enumerate() {
            put_first(alloc, &mut by_name, register.name.as_str(), place)?;
        }
        Ok(Places { by_name })
    }

    /// The place of the register of that name.
    pub fn place(&self, name: &str) -> Option<usize>
        ensures { result ≡ get_by_text self.now.by_name name.now }
    {
        self.by_name.get(name).copied()
    }
}

/// Puts a place at a name that has none; a name that has one keeps it.
pub fn put_first(
    alloc: Global,
    places: &mut BTreeMap<String, usize>,
    name: &str,
    place: usize,
) -> Result<(), Memory>
    ensures { OnOk result ((q : Bytes) → get_by_text places.new q
        ≡ (if bytes_eq name.now q && is_none (get_by_text places.old q)
        then Some place else get_by_text places.old q)) }
{
    if places.contains_key(name) {
        return Ok(());
    }
    let key = String::from_str(alloc, name)?;
    match places.insert(key, place) {
        Ok(_) => Ok(()),
        Err(_) => Err(Memory),
    }
}
