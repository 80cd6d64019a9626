// The index of the members by their names.
ghost use Rattle.std.specs.Prelude.{◌≡◌, ◌&&◌, is_none, if◌then◌else◌, IfOk, OnOk, Some};
ghost use Rattle.std.specs.Str.{bytes_eq};
ghost use Rattle.std.specs.BTreeMap.{get_by_text};
ghost use Rattle.idl_tree.specs.Names.{Bytes};
ghost use Rattle.idl_tree.specs.Places.{Tells, TellsPlaces, places_in};
ghost use Rattle.idl_tree.specs.declared.spaces.Space.TheVariants.{Methods, Errors};

use crate::spaces::{Space, stands_in};
use crate::trees::Member;
use link_port::Memory;
use std::alloc::Global;
use std::collections::BTreeMap;

// Places by name.
type Places = BTreeMap<String, usize>;

/// Where the members of each name stand.
#[derive(Drop)]
pub struct Index {
    pub types: Places,
    pub methods: Places,
    pub errors: Places,
}

impl Index {
    /// Indexes the members.
    pub fn of(alloc: Global, members: &[Member]) -> Result<Index, Memory>
        ensures { IfOk result (λ index. Tells index members.now) }
    {
        let types = places(alloc, Space::Types, members)?;
        match methods_and_errors(alloc, members) {
            Ok((methods, errors)) => Ok(Index {
                types,
                methods,
                errors,
            }),
            Err(fault) => {
                drop(types);
                Err(fault)
            }
        }
    }

    /// The place of the first member of that name in that name space.
    pub fn place(&self, space: Space, name: &str) -> Option<usize>
        ensures { result ≡ get_by_text (places_in self.now space) name.now }
    {
        match space {
            Space::Types => self.types.get(name).copied(),
            Space::Methods => self.methods.get(name).copied(),
            Space::Errors => self.errors.get(name).copied(),
        }
    }
}

// The places of the methods and the errors.
fn methods_and_errors(alloc: Global, members: &[Member]) -> Result<(Places, Places), Memory>
    ensures methods { IfOk result (λ both. TellsPlaces both.0 Methods members.now) }
    ensures errors { IfOk result (λ both. TellsPlaces both.1 Errors members.now) }
{
    let methods = places(alloc, Space::Methods, members)?;
    match places(alloc, Space::Errors, members) {
        Ok(errors) => Ok((methods, errors)),
        Err(fault) => {
            drop(methods);
            Err(fault)
        }
    }
}

// The place of the first member of each name in one name space.
fn places(alloc: Global, space: Space, members: &[Member]) -> Result<Places, Memory>
    ensures { IfOk result (λ places. TellsPlaces places space members.now) }
{
    let mut places = BTreeMap::new(alloc);
    for (place, member) in members.iter().enumerate() {
        if stands_in(&member.part, space) {
            put_first(alloc, &mut places, member.name.as_str(), place)?;
        }
    }
    Ok(places)
}

// Puts a place at a name that has none.
fn put_first(
    alloc: Global,
    places: &mut BTreeMap<String, usize>,
    name: &str,
    place: usize,
) -> Result<(), Memory>
    ensures { OnOk result ((q : Bytes) → get_by_text places.new q
        ≡ (if bytes_eq name.now q && is_none (get_by_text places.old q)
        then Some place else get_by_text places.old q)) }
{
    if places.contains_key(name) {
        return Ok(());
    }
    let key = String::from_str(alloc, name)?;
    match places.insert(key, place) {
        Ok(_) => Ok(()),
        Err(_) => Err(Memory),
    }
}
