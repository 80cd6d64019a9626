// Walks along the pairs that a pair of bodies requires, with a list of visits in place of a recursion.
ghost use Rattle.std.specs.Prelude.{◌≡◌, ◌++◌, ◌∷◌, true, Some, None, IfOk, OnOk, [], reverse, take, option_and_then, slice_get};
ghost use Rattle.idl_tree.specs.Names.{Bytes};
ghost use Rattle.idl_tree.specs.declared.trees.Body.{Body};
ghost use Rattle.idl_compat.specs.Within.{word_of};
ghost use Rattle.idl_compat.specs.Numbers.{IsTable};
ghost use Rattle.idl_compat.specs.Walks.{AllWithin, Found, HasBodies, HasTrail, AreAt, IsTrail, StopsVisit, words_of, stop_words};

use crate::looks::{Walk, visit};
use crate::visits::{Seen, Stop, Visit, add_visit};
use idl_tree::{Field, Prefix};
use link_port::{List, Memory, Text};
use std::alloc::Global;

/// The words that lead from a pair of bodies to one that fails, and None where no words do. Each pair of
/// bodies is visited once in all walks with the same pairs seen.
pub fn first_failure<'a>(
    alloc: Global,
    walk: &Walk<'_, 'a>,
    root: (usize, usize),
    seen: &mut Seen,
) -> Result<Option<List<Text>>, Memory>
    requires from { IsTable walk.now.from.now }
    requires to { IsTable walk.now.to.now }
    requires root { HasBodies walk.now.from.now walk.now.to.now root.0 root.1 }
    requires within { AllWithin walk.now.from.now walk.now.to.now seen.old }
    ensures found { IfOk result (λ path. (body reads : Body) → AreAt walk.now.from.now walk.now.to.now root.0 root.1 body reads
        → Found walk.now.from.now walk.now.to.now body reads path) }
    ensures within { IfOk result (λ path. path ≡ None → AllWithin walk.now.from.now walk.now.to.now seen.new) }
{
    let mut trail = Vec::new(alloc);
    let first = Visit {
        from: root.0,
        to: root.1,
        origin: None,
    };
    add_visit(seen, &mut trail, first)?;
    let mut place = 0;
    while place < trail.len() {
        match visit(alloc, walk, place, seen, &mut trail)? {
            Some(stop) => return Ok(Some(path(alloc, walk, trail.as_slice(), place, stop)?)),
            None => place += 1,
        }
    }
    Ok(None)
}

// The words from the root of a trail to where the visit at a place stops.
fn path(
    alloc: Global,
    walk: &Walk<'_, '_>,
    trail: &[Visit<'_>],
    place: usize,
    stop: Stop<'_>,
) -> Result<List<Text>, Memory>
    requires trail { HasTrail walk.now.from.now walk.now.to.now trail.now place }
    requires stops { StopsVisit walk.now.from.now walk.now.to.now trail.now place stop }
    ensures { IfOk result (λ path. (root by : Body) → IsTrail walk.now.from.now walk.now.to.now root by trail.now
        → Found walk.now.from.now walk.now.to.now root by (Some path)) }
{
    let mut backwards = Vec::new(alloc);
    add_stop(alloc, &mut backwards, stop)?;
    let mut at = place;
    while let Some((earlier, field)) = origin(trail, at) {
        add_words(
            alloc,
            &mut backwards,
            field,
            field.of.prefixes.as_slice().len(),
        )?;
        at = earlier;
    }
    backwards.reverse();
    Ok(List::from_vec(backwards))
}

// Where the visit at a place comes from.
fn origin<'a>(trail: &[Visit<'a>], at: usize) -> Option<(usize, &'a Field)>
    ensures { result ≡ option_and_then (λ visit. visit.origin) (slice_get trail.now at) }
{
    match trail.get(at) {
        Some(visit) => visit.origin,
        None => None,
    }
}

// Adds the words to where a visit stops, the last one first.
fn add_stop(alloc: Global, words: &mut Vec<Text>, stop: Stop<'_>) -> Result<(), Memory>
    ensures { OnOk result (reverse words.new.items ≡ stop_words stop.entry ++ reverse words.old.items) }
{
    match stop {
        Stop::Here => Ok(()),
        Stop::At(field, count) => add_words(alloc, words, field, count),
    }
}

// Adds the words of a field and so many of its prefixes, the last one first.
fn add_words(
    alloc: Global,
    words: &mut Vec<Text>,
    field: &Field,
    count: usize,
) -> Result<(), Memory>
    ensures { OnOk result (reverse words.new.items
        ≡ field.now.name ∷ words_of (take count field.now.of.prefixes) ++ reverse words.old.items) }
{
    add_prefixes(alloc, words, front(field.of.prefixes.as_slice(), count))?;
    add_word(alloc, words, field.name.as_str())
}

// So many of the prefixes, or all.
fn front(prefixes: &[Prefix], count: usize) -> &[Prefix]
    ensures { result.now ≡ take count prefixes.now }
{
    match prefixes.get(..count) {
        Some(front) => front,
        None => prefixes,
    }
}

// Adds the words of prefixes, the last one first.
fn add_prefixes(alloc: Global, words: &mut Vec<Text>, prefixes: &[Prefix]) -> Result<(), Memory>
    ensures { OnOk result (reverse words.new.items ≡ words_of prefixes.now ++ reverse words.old.items) }
{
    let mut left = prefixes.len();
    while left > 0 {
        left -= 1;
        add_word(alloc, words, word_of(prefixes[left]))?;
    }
    Ok(())
}

fn add_word(alloc: Global, words: &mut Vec<Text>, word: &str) -> Result<(), Memory>
    ensures { OnOk result (words.new.items ≡ words.old.items ++ word.now ∷ []) }
{
    match words.push(Text::of(alloc, word)?) {
        Ok(()) => Ok(()),
        Err(_) => Err(Memory),
    }
}

fn word_of(prefix: Prefix) -> &'static str
    ensures { result.now ≡ word_of prefix }
{
    match prefix {
        Prefix::Maybe => "?",
        Prefix::Array => "[]",
        Prefix::Map => "[string]",
    }
}
