// The bodies of a definition by numbers: first that of each member, by its place, and behind them those in place and
// those that are asked for.
ghost use Rattle.std.specs.Prelude.{◌≡◌, ◌++◌, ◌∷◌, [], option_map, slice_get, IfOk, OnOk};
ghost use Rattle.idl_tree.specs.Faults.{type_named};
ghost use Rattle.typed_value.specs.Bodies.{body_of, fields_of};
ghost use Rattle.idl_compat.specs.Numbers.{AllTold, Grown, Gained, IsTarget, AreTargets, first_body, body_at, targets_at, entry_body, entry_targets, or_none, RowsTold, IsTable};

use idl_tree::{Body, Checked, Core, Field, Member, Part};
use link_port::{List, Memory};
use std::alloc::Global;

// The numbers of the bodies of the types of a body's fields, and None where such a type has no body.
type Targets = List<Option<usize>>;

/// A body, with the numbers of the bodies of its fields' types.
#[derive(Drop)]
pub struct Entry<'a> {
    pub body: &'a Body,
    pub targets: Targets,
}

/// The bodies of a definition.
#[derive(Drop)]
pub struct Table<'a> {
    pub scope: &'a Checked,
    pub named: Vec<Targets>,
    pub inner: Vec<Entry<'a>>,
}

impl<'a> Table<'a> {
    /// Numbers the bodies of a definition's members and those in place in them.
    pub fn of(alloc: Global, scope: &'a Checked) -> Result<Table<'a>, Memory>
        ensures scope { IfOk result (λ table. table.scope.now ≡ scope.now) }
        ensures table { IfOk result IsTable }
    {
        let mut inner = Vec::new(alloc);
        let named = member_targets(alloc, scope, &mut inner)?;
        Ok(Table {
            scope,
            named,
            inner,
        })
    }

    /// Gives a body of the definition a number.
    pub fn number(&mut self, alloc: Global, body: &'a Body) -> Result<usize, Memory>
        requires { IsTable self.old }
        ensures scope { OnOk result (self.new.scope.now ≡ self.old.scope.now) }
        ensures named { OnOk result (self.new.named.items ≡ self.old.named.items) }
        ensures gained { IfOk result (Gained self.old.scope.now self.old.inner.items self.new.inner.items body.now) }
        ensures table { OnOk result (IsTable self.new) }
    {
        number(alloc, self.scope, body, &mut self.inner)
    }

    /// The body of that number.
    pub fn body(&self, number: usize) -> Option<&'a Body>
        ensures { option_map (λ body. body.now) result ≡ body_at self.now.scope.now self.now.inner.items number }
    {
        let members = self.scope.tree().members.as_slice();
        if number < members.len() {
            return Some(first_body(&members[number].part));
        }
        entry_body(self.inner.as_slice(), number - members.len())
    }

    /// The numbers of the bodies of its fields' types.
    pub fn targets(&self, number: usize) -> &[Option<usize>]
        ensures { result.now ≡ targets_at self.now.scope.now self.now.named.items self.now.inner.items number }
    {
        let count = self.scope.tree().members.as_slice().len();
        if number < count {
            return named_targets(self.named.as_slice(), number);
        }
        entry_targets(self.inner.as_slice(), number - count)
    }
}

fn entry_body<'a>(inner: &[Entry<'a>], place: usize) -> Option<&'a Body>
    ensures { option_map (λ body. body.now) result ≡ entry_body inner.now place }
{
    match inner.get(place) {
        Some(entry) => Some(entry.body),
        None => None,
    }
}

fn entry_targets<'b>(inner: &'b [Entry<'_>], place: usize) -> &'b [Option<usize>]
    ensures { result.now ≡ entry_targets inner.now place }
{
    match inner.get(place) {
        Some(entry) => entry.targets.as_slice(),
        None => &[],
    }
}

fn named_targets(named: &[Targets], place: usize) -> &[Option<usize>]
    ensures { result.now ≡ or_none (slice_get named.now place) }
{
    match named.get(place) {
        Some(targets) => targets.as_slice(),
        None => &[],
    }
}

// The body that stands for a member.
fn first_body(part: &Part) -> &Body
    ensures { result.now ≡ first_body part.now }
{
    match part {
        Part::Shape(body) => body,
        Part::Method { input, .. } => input,
        Part::Fault(body) => body,
    }
}

// The targets of the members' bodies.
fn member_targets<'a>(
    alloc: Global,
    scope: &'a Checked,
    inner: &mut Vec<Entry<'a>>,
) -> Result<Vec<Targets>, Memory>
    requires { AllTold scope.now inner.old.items }
    ensures told { OnOk result (AllTold scope.now inner.new.items) }
    ensures rows { IfOk result (λ named. RowsTold scope.now inner.new.items named.items scope.now.members) }
{
    let mut named = List::new(alloc);
    for member in scope.tree().members.as_slice() {
        named.push(targets(alloc, scope, first_body(&member.part), inner)?)?;
    }
    Ok(named.into_vec())
}

#[cycle(numbers)]
fn number<'a>(
    alloc: Global,
    scope: &Checked,
    body: &'a Body,
    inner: &mut Vec<Entry<'a>>,
) -> Result<usize, Memory>
    requires { AllTold scope.now inner.old.items }
    ensures grown { OnOk result (Grown scope.now inner.old.items inner.new.items) }
    ensures here { IfOk result (λ number. body_at scope.now inner.new.items number ≡ Some body.now) }
{
    let targets = targets(alloc, scope, body, inner)?;
    let place = inner.len();
    add_entry(inner, Entry { body, targets })?;
    match scope.tree().members.as_slice().len().checked_add(place) {
        Some(number) => Ok(number),
        None => Err(Memory),
    }
}

fn add_entry<'a>(inner: &mut Vec<Entry<'a>>, entry: Entry<'a>) -> Result<(), Memory>
    ensures { OnOk result (inner.new.items ≡ inner.old.items ++ entry.entry ∷ []) }
{
    match inner.push(entry) {
        Ok(()) => Ok(()),
        Err(_) => Err(Memory),
    }
}

#[cycle(numbers)]
fn targets<'a>(
    alloc: Global,
    scope: &Checked,
    body: &'a Body,
    inner: &mut Vec<Entry<'a>>,
) -> Result<Targets, Memory>
    requires { AllTold scope.now inner.old.items }
    ensures grown { OnOk result (Grown scope.now inner.old.items inner.new.items) }
    ensures told { IfOk result (λ targets. AreTargets scope.now inner.new.items targets (fields_of body.now)) }
{
    match body {
        Body::Struct { fields, .. } => field_targets(alloc, scope, fields.as_slice(), inner),
        Body::Enum { .. } => Ok(List::new(alloc)),
    }
}

#[cycle(numbers)]
fn field_targets<'a>(
    alloc: Global,
    scope: &Checked,
    fields: &'a [Field],
    inner: &mut Vec<Entry<'a>>,
) -> Result<Targets, Memory>
    requires { AllTold scope.now inner.old.items }
    ensures grown { OnOk result (Grown scope.now inner.old.items inner.new.items) }
    ensures told { IfOk result (λ targets. AreTargets scope.now inner.new.items targets fields.now) }
{
    let mut targets = List::new(alloc);
    for field in fields {
        targets.push(target(alloc, scope, &field.of.core, inner)?)?;
    }
    Ok(targets)
}

#[cycle(numbers)]
fn target<'a>(
    alloc: Global,
    scope: &Checked,
    core: &'a Core,
    inner: &mut Vec<Entry<'a>>,
) -> Result<Option<usize>, Memory>
    requires { AllTold scope.now inner.old.items }
    ensures grown { OnOk result (Grown scope.now inner.old.items inner.new.items) }
    ensures told { IfOk result (λ target. IsTarget scope.now inner.new.items target (body_of scope.now core.now)) }
{
    match core {
        Core::Name(name) => Ok(scope.type_place(name.as_str())),
        Core::Inline(body) => Ok(Some(number(alloc, scope, body, inner)?)),
        _ => Ok(None),
    }
}
