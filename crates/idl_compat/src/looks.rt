// Pairs of types that are looked at.
ghost use Rattle.std.specs.Prelude.{◌≡◌, ◌<◌, ℕ, Some, None, IfOk, OnOk, option_map, length, slice_get, if◌then◌else◌};
ghost use Rattle.idl_tree.specs.Form.{begins_with_maybe};
ghost use Rattle.idl_tree.specs.declared.trees.Body.{Body};
ghost use Rattle.idl_tree.specs.declared.trees.Core.{out-Core};
ghost use Rattle.typed_value.specs.Bodies.{body_of, fields_of};
ghost use Rattle.idl_compat.specs.Within.{kind_of, core_line, nothing_where, same_basic, is_string, enum_or_none, field_step, field_steps, field_named};
ghost use Rattle.idl_compat.specs.Numbers.{IsTable, IsTarget, AreTargets};
ghost use Rattle.idl_compat.specs.Walks.{Looked, LookedAll, Moved, IsStepAt, AreStepsAt, IsVisit, Visited, HasVisit, HasVisited, TellsFields};
ghost use Rattle.idl_compat.specs.declared.visits.Stop.TheVariants.{Here, At};

use crate::names::{Places, has_all, places_of};
use crate::numbers::Table;
use crate::prefixes::stuck;
use crate::visits::{Seen, Stop, Visit, add_visit};
use idl_tree::{Body, Core, Field};
use link_port::Memory;
use std::alloc::Global;
use typed_value::begins_with_maybe;

/// The definition of the values, and that of the types which read them.
#[derive(Drop)]
pub struct Walk<'w, 'a> {
    pub from: &'w Table<'a>,
    pub to: &'w Table<'a>,
}

/// A body, with the numbers of its fields' types' bodies.
#[derive(Drop)]
pub struct Node<'w, 'a> {
    pub body: &'a Body,
    pub targets: &'w [Option<usize>],
}

// The fields of a struct, with the numbers of their types' bodies and their places by name.
#[derive(Drop)]
struct Given<'w, 'a> {
    fields: &'a [Field],
    targets: &'w [Option<usize>],
    places: Places,
}

// A field, with the number of its type's body.
#[derive(Drop)]
struct Target<'a> {
    field: &'a Field,
    target: Option<usize>,
}

/// Visits the pair of bodies at a place of the trail: adds those that it requires, or tells where it stops.
pub fn visit<'a>(
    alloc: Global,
    walk: &Walk<'_, 'a>,
    place: usize,
    seen: &mut Seen,
    trail: &mut Vec<Visit<'a>>,
) -> Result<Option<Stop<'a>>, Memory>
    requires from { IsTable walk.now.from.now }
    requires to { IsTable walk.now.to.now }
    requires at { HasVisit walk.now.from.now walk.now.to.now trail.old.items place }
    ensures moved { OnOk result (Moved walk.now.from.now walk.now.to.now seen.old seen.new trail.old.items trail.new.items) }
    ensures visited { IfOk result (HasVisited walk.now.from.now walk.now.to.now seen.new trail.old.items place) }
{
    let Some(at) = trail.get(place) else {
        unreachable!()
    };
    let (n, m) = (at.from, at.to);
    let Some(body) = walk.from.body(n) else {
        unreachable!()
    };
    let Some(reads) = walk.to.body(m) else {
        unreachable!()
    };
    let given = Node {
        body,
        targets: walk.from.targets(n),
    };
    let read = Node {
        body: reads,
        targets: walk.to.targets(m),
    };
    visit_bodies(alloc, walk, &given, &read, place, seen, trail)
}

fn visit_bodies<'a>(
    alloc: Global,
    walk: &Walk<'_, 'a>,
    given: &Node<'_, '_>,
    read: &Node<'_, 'a>,
    place: usize,
    seen: &mut Seen,
    trail: &mut Vec<Visit<'a>>,
) -> Result<Option<Stop<'a>>, Memory>
    requires given { AreTargets walk.now.from.now.scope.now walk.now.from.now.inner.items given.now.targets.now (fields_of given.now.body.now) }
    requires read { AreTargets walk.now.to.now.scope.now walk.now.to.now.inner.items read.now.targets.now (fields_of read.now.body.now) }
    requires at { IsVisit walk.now.from.now walk.now.to.now trail.old.items place given.now.body.now read.now.body.now }
    ensures moved { OnOk result (Moved walk.now.from.now walk.now.to.now seen.old seen.new trail.old.items trail.new.items) }
    ensures visited { IfOk result (Visited walk.now.from.now walk.now.to.now seen.new given.now.body.now read.now.body.now) }
{
    match given.body {
        Body::Struct { fields, .. } => match read.body {
            Body::Struct { fields: others, .. } => {
                let given = Given {
                    fields: fields.as_slice(),
                    targets: given.targets,
                    places: places_of(alloc, fields.as_slice())?,
                };
                look_at_fields(
                    walk,
                    &given,
                    others.as_slice(),
                    read.targets,
                    place,
                    seen,
                    trail,
                )
            }
            Body::Enum { .. } => Ok(Some(Stop::Here)),
        },
        Body::Enum { names, .. } => match read.body {
            Body::Struct { .. } => Ok(Some(Stop::Here)),
            Body::Enum { names: others, .. } => {
                Ok(stop_unless(has_all(alloc, names.as_slice(), others.as_slice())?))
            }
        },
    }
}

fn stop_unless<'a>(holds: bool) -> Option<Stop<'a>>
    ensures { result ≡ (if holds then None else Some Here) }
{
    if holds { None } else { Some(Stop::Here) }
}

// Looks at the fields of the struct that reads, in order, up to the first that stops the walk.
fn look_at_fields<'a>(
    walk: &Walk<'_, 'a>,
    given: &Given<'_, '_>,
    others: &'a [Field],
    targets: &[Option<usize>],
    place: usize,
    seen: &mut Seen,
    trail: &mut Vec<Visit<'a>>,
) -> Result<Option<Stop<'a>>, Memory>
    requires places { TellsFields given.now.places given.now.fields.now }
    requires given { AreTargets walk.now.from.now.scope.now walk.now.from.now.inner.items given.now.targets.now given.now.fields.now }
    requires read { AreTargets walk.now.to.now.scope.now walk.now.to.now.inner.items targets.now others.now }
    requires steps { AreStepsAt walk.now.from.now walk.now.to.now trail.old.items place (field_steps given.now.fields.now others.now) }
    ensures moved { OnOk result (Moved walk.now.from.now walk.now.to.now seen.old seen.new trail.old.items trail.new.items) }
    ensures looked { IfOk result (LookedAll walk.now.from.now walk.now.to.now seen.new (field_steps given.now.fields.now others.now)) }
{
    for (i, field) in others.iter().enumerate() {
        let read = Target {
            field,
            target: targets[i],
        };
        let found = look_at_field(walk, given, &read, place, seen, trail)?;
        if found.is_some() {
            return Ok(found);
        }
    }
    Ok(None)
}

fn look_at_field<'a>(
    walk: &Walk<'_, 'a>,
    given: &Given<'_, '_>,
    read: &Target<'a>,
    place: usize,
    seen: &mut Seen,
    trail: &mut Vec<Visit<'a>>,
) -> Result<Option<Stop<'a>>, Memory>
    requires places { TellsFields given.now.places given.now.fields.now }
    requires given { AreTargets walk.now.from.now.scope.now walk.now.from.now.inner.items given.now.targets.now given.now.fields.now }
    requires read { IsTarget walk.now.to.now.scope.now walk.now.to.now.inner.items read.now.target
        (body_of walk.now.to.now.scope.now read.now.field.now.of.core) }
    requires steps { AreStepsAt walk.now.from.now walk.now.to.now trail.old.items place
        (field_step (field_named read.now.field.now.name given.now.fields.now) read.now.field.now) }
    ensures moved { OnOk result (Moved walk.now.from.now walk.now.to.now seen.old seen.new trail.old.items trail.new.items) }
    ensures looked { IfOk result (LookedAll walk.now.from.now walk.now.to.now seen.new
        (field_step (field_named read.now.field.now.name given.now.fields.now) read.now.field.now)) }
{
    match given.places.get(read.field.name.as_str()).copied() {
        Some(i) => {
            let given = target_at(walk.from, given, i);
            look_at_types(walk, &given, read, place, seen, trail)
        }
        None => Ok(missing(read.field)),
    }
}

// The field at a place, with the number of its type's body.
fn target_at<'b>(from: &Table<'_>, given: &Given<'_, 'b>, i: usize) -> Target<'b>
    requires within { i < length given.now.fields.now }
    requires given { AreTargets from.now.scope.now from.now.inner.items given.now.targets.now given.now.fields.now }
    ensures field { slice_get given.now.fields.now i ≡ Some result.field.now }
    ensures target { IsTarget from.now.scope.now from.now.inner.items result.target
        (body_of from.now.scope.now result.field.now.of.core) }
{
    Target {
        field: &given.fields[i],
        target: given.targets[i],
    }
}

// What a field stops that the values lack.
fn missing<'a>(field: &'a Field) -> Option<Stop<'a>>
    ensures { result ≡ (if begins_with_maybe field.now.of.prefixes then None else Some (At field.entry 0)) }
{
    if begins_with_maybe(field.of.prefixes.as_slice()) {
        None
    } else {
        Some(Stop::At(field, 0))
    }
}

fn look_at_types<'a>(
    walk: &Walk<'_, 'a>,
    given: &Target<'_>,
    read: &Target<'a>,
    place: usize,
    seen: &mut Seen,
    trail: &mut Vec<Visit<'a>>,
) -> Result<Option<Stop<'a>>, Memory>
    requires given { IsTarget walk.now.from.now.scope.now walk.now.from.now.inner.items given.now.target
        (body_of walk.now.from.now.scope.now given.now.field.now.of.core) }
    requires read { IsTarget walk.now.to.now.scope.now walk.now.to.now.inner.items read.now.target
        (body_of walk.now.to.now.scope.now read.now.field.now.of.core) }
    requires step { IsStepAt walk.now.from.now walk.now.to.now trail.old.items place
        (read.now.field.now.name, Some (kind_of given.now.field.now, kind_of read.now.field.now)) }
    ensures moved { OnOk result (Moved walk.now.from.now walk.now.to.now seen.old seen.new trail.old.items trail.new.items) }
    ensures looked { IfOk result (Looked walk.now.from.now walk.now.to.now seen.new
        (read.now.field.now.name, Some (kind_of given.now.field.now, kind_of read.now.field.now))) }
{
    let to = read.field.of.prefixes.as_slice();
    if let Some(count) = stuck(given.field.of.prefixes.as_slice(), to) {
        return Ok(Some(Stop::At(read.field, count)));
    }
    if let (Some(n), Some(m)) = (given.target, read.target) {
        let origin = Some((place, read.field));
        add_visit(
            seen,
            trail,
            Visit {
                from: n,
                to: m,
                origin,
            },
        )?;
        return Ok(None);
    }
    if agree(walk, given, read) {
        return Ok(None);
    }
    Ok(Some(Stop::At(read.field, to.len())))
}

// Whether a pair of cores that aren't both bodies requires nothing.
fn agree(walk: &Walk<'_, '_>, given: &Target<'_>, read: &Target<'_>) -> bool
    requires given { IsTarget walk.now.from.now.scope.now walk.now.from.now.inner.items given.now.target
        (body_of walk.now.from.now.scope.now given.now.field.now.of.core) }
    requires read { IsTarget walk.now.to.now.scope.now walk.now.to.now.inner.items read.now.target
        (body_of walk.now.to.now.scope.now read.now.field.now.of.core) }
    requires apart { (n m : ℕ) → given.now.target ≡ Some n → read.now.target ≡ Some m → ⊥ }
    ensures { core_line given.now.field.now.of.core read.now.field.now.of.core
        (body_of walk.now.from.now.scope.now given.now.field.now.of.core)
        (body_of walk.now.to.now.scope.now read.now.field.now.of.core) ≡ nothing_where result }
{
    match (given.target, read.target) {
        (None, None) => same_basic(&given.field.of.core, &read.field.of.core),
        (Some(n), None) => is_enum(walk.from.body(n)) && is_string(&read.field.of.core),
        _ => false,
    }
}

fn is_enum(body: Option<&Body>) -> bool
    ensures { result ≡ enum_or_none (option_map (λ b. b.now) body.entry) }
{
    matches!(body, Some(Body::Enum { .. }))
}

fn is_string(core: &Core) -> bool
    ensures { result ≡ is_string (out-Core core.now) }
{
    matches!(core, Core::Str)
}

fn same_basic(one: &Core, other: &Core) -> bool
    ensures { result ≡ same_basic (out-Core one.now) (out-Core other.now) }
{
    match (one, other) {
        (Core::Bool, Core::Bool) => true,
        (Core::Int, Core::Int) => true,
        (Core::Float, Core::Float) => true,
        (Core::Str, Core::Str) => true,
        (Core::Object, Core::Object) => true,
        _ => false,
    }
}
