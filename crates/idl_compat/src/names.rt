// Names of fields and of enums.
ghost use Rattle.std.specs.Prelude.{◌≡◌, ◌&&◌, ◌||◌, is_none, if◌then◌else◌, IfOk, OnOk, Some};
ghost use Rattle.std.specs.Str.{bytes_eq};
ghost use Rattle.std.specs.List.{list_all};
ghost use Rattle.std.specs.BTreeMap.{get_by_text};
ghost use Rattle.idl_tree.specs.Names.{Bytes};
ghost use Rattle.idl_compat.specs.Within.{has_all};
ghost use Rattle.idl_compat.specs.Walks.{TellsFields, TellsNames};
ghost use Rattle.idl_tree.specs.Places.{has_name};

use idl_tree::{Field, Named};
use link_port::Memory;
use std::alloc::Global;
use std::collections::{BTreeMap, BTreeSet};

/// The places of fields by their names.
pub type Places = BTreeMap<String, usize>;

/// The place of the first field of each name.
pub fn places_of(alloc: Global, fields: &[Field]) -> Result<Places, Memory>
    ensures { IfOk result (λ places. TellsFields places fields.now) }
{
    let mut places = BTreeMap::new(alloc);
    for (place, field) in fields.iter().enumerate() {
        put_first(alloc, &mut places, field.name.as_str(), place)?;
    }
    Ok(places)
}

// Puts a place at a name that has none.
fn put_first(alloc: Global, places: &mut Places, name: &str, place: usize) -> Result<(), Memory>
    ensures { OnOk result ((q : Bytes) → get_by_text places.new q
        ≡ (if bytes_eq name.now q && is_none (get_by_text places.old q)
        then Some place else get_by_text places.old q)) }
{
    if places.contains_key(name) {
        return Ok(());
    }
    let key = String::from_str(alloc, name)?;
    match places.insert(key, place) {
        Ok(_) => Ok(()),
        Err(_) => Err(Memory),
    }
}

/// Whether each name of the one enum is a name of the other.
pub fn has_all(alloc: Global, names: &[Named], others: &[Named]) -> Result<bool, Memory>
    ensures { IfOk result (λ all. all ≡ has_all names.now others.now) }
{
    let known = names_of(alloc, others)?;
    Ok(are_among(&known, names))
}

// The names of an enum.
fn names_of<'a>(alloc: Global, names: &'a [Named]) -> Result<BTreeSet<&'a str>, Memory>
    ensures { IfOk result (λ known. TellsNames known names.now) }
{
    let mut known = BTreeSet::new(alloc);
    for named in names {
        add_name(&mut known, named.name.as_str())?;
    }
    Ok(known)
}

fn add_name<'a>(known: &mut BTreeSet<&'a str>, name: &'a str) -> Result<(), Memory>
    ensures { OnOk result ((q : Bytes) → has_name known.new q
        ≡ (bytes_eq name.now q || has_name known.old q)) }
{
    match known.insert(name) {
        Ok(_) => Ok(()),
        Err(_) => Err(Memory),
    }
}

// Whether each name is among those.
fn are_among(known: &BTreeSet<&str>, names: &[Named]) -> bool
    ensures { result ≡ list_all (λ named. has_name known.now named.name) names.now }
{
    for named in names {
        if !known.contains(named.name.as_str()) {
            return false;
        }
    }
    true
}
