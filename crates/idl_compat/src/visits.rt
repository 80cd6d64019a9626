// Visits of pairs of bodies, and where they stop.
ghost use Rattle.std.specs.Prelude.{◌≡◌, ◌++◌, ◌∷◌, [], OnOk};
ghost use Rattle.idl_compat.specs.Walks.{Added};

use idl_tree::Field;
use link_port::Memory;
use std::alloc::Global;
use std::collections::BTreeSet;

/// The pairs of numbers that were seen.
pub type Seen = BTreeSet<(usize, usize)>;

/// A pair of bodies by their numbers.
#[derive(Drop)]
pub struct Visit<'a> {
    pub from: usize,
    pub to: usize,
    // The place of the visit that led here, and the field that it led through.
    pub origin: Option<(usize, &'a Field)>,
}

/// Where a visit stops.
#[derive(Drop)]
pub enum Stop<'a> {
    /// At the pair of bodies.
    Here,
    /// At a field, behind so many of its prefixes.
    At(&'a Field, usize),
}

/// Adds a visit to the trail unless its pair was seen.
pub fn add_visit<'a>(
    seen: &mut Seen,
    trail: &mut Vec<Visit<'a>>,
    visit: Visit<'a>,
) -> Result<(), Memory>
    ensures { OnOk result (Added seen.old seen.new trail.old.items trail.new.items visit.entry) }
{
    match seen.insert((visit.from, visit.to)) {
        Ok(true) => push_visit(trail, visit),
        Ok(false) => Ok(()),
        Err(_) => Err(Memory),
    }
}

fn push_visit<'a>(trail: &mut Vec<Visit<'a>>, visit: Visit<'a>) -> Result<(), Memory>
    ensures { OnOk result (trail.new.items ≡ trail.old.items ++ visit.entry ∷ []) }
{
    match trail.push(visit) {
        Ok(()) => Ok(()),
        Err(_) => Err(Memory),
    }
}
