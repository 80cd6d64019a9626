// The entries of a map, changed in place.
ghost use Rattle.std.specs.Prelude.{◌≡◌, ◌<◌, ◌≤◌, ◌+◌, length, Some, IsSome, IfOk, OnErr, slice_get, slice_set};
ghost use Rattle.std.specs.List.{insert, remove};
ghost use Rattle.sheet_step.specs.Entries.{IsSpot, IsFound};

use link_port::Text;
use std::cmp::Ordering;
use typed_value::Val;

/// Where a key stands among entries in the byte order of their keys.
#[derive(Clone, Copy)]
pub enum Spot {
    /// It is the key of the entry at a place.
    At(usize),
    /// It stands before the entry at a place, or behind all.
    Before(usize),
}

/// Where an entry with this key is put.
pub fn spot_of(entries: &[(Text, Val)], key: &str) -> Spot
    ensures { IsSpot key.now entries.now result }
{
    for (place, entry) in entries.iter().enumerate() {
        match key.cmp(entry.0.as_str()) {
            Ordering::Less => return Spot::Before(place),
            Ordering::Equal => return Spot::At(place),
            Ordering::Greater => {}
        }
    }
    Spot::Before(entries.len())
}

/// The place of the entry with this key, if there is one.
pub fn place_of(entries: &[(Text, Val)], key: &str) -> Option<usize>
    ensures { IsFound key.now entries.now result }
{
    for (place, entry) in entries.iter().enumerate() {
        if key == entry.0.as_str() {
            return Some(place);
        }
    }
    None
}
