// Whether values are of types.
ghost use Rattle.std.specs.Prelude.{◌≡◌, ◌&&◌, is_some, length, map, nat_lt};
ghost use Rattle.std.specs.List.{list_all};
ghost use Rattle.std.specs.Option.{option_copied};
ghost use Rattle.serde_json.specs.Find.{as_object};
ghost use Rattle.idl_tree.specs.Names.{Bytes};
ghost use Rattle.idl_tree.specs.declared.trees.Core.{out-Core};
ghost use Rattle.typed_value.specs.Bodies.{body_of, names_or_none};
ghost use Rattle.typed_value.specs.OfType.{Fit, fits, is_bool, is_text, is_foreign, body_fits, fields_fit, items_fit};
ghost use Rattle.typed_value.specs.Ints.{is_int};
ghost use Rattle.typed_value.specs.KeyOrder.{are_in_order, is_whole_tree};
ghost use Rattle.typed_value.specs.declared.vals.Val.{Val};
ghost use Rattle.sheet_rules.specs.Types.{is_of_typ, is_before_next, map_fits};
ghost use Rattle.sheet_rules.specs.Views.{typ_of, core_of};

use crate::types::{Kind, Typ, is_int_kind, prefixes_of};
use idl_tree::{Body, Checked, Core, Field, Prefix};
use link_port::{Text, Value};
use typed_value::{Val, begins_with_maybe, behind_maybes, body_of, has_only_ints, names_of};

/// Whether a value is of a type.
pub fn is_of_typ<'x>(value: &Val, interfaces: &'x [Checked], of: &Typ<'x>) -> bool
    ensures { result ≡ is_of_typ interfaces.now (typ_of of.now) value.now }
{
    match interfaces.get(of.scope as usize) {
        Some(scope) => is_of(value, scope, prefixes_of(&of.kind), &of.kind),
        None => false,
    }
}

// What stands before the core is told apart, since it is taken off from its front.
#[cycle(values)]
fn is_of<'x>(value: &Val, scope: &'x Checked, prefixes: &'x [Prefix], kind: &Kind<'x>) -> bool
    ensures { result ≡ fits scope.now value.now prefixes.now (core_of kind.now) }
{
    match value {
        Val::Bool(_) => behind_maybes(prefixes).is_empty() && is_bool_kind(kind),
        Val::Int(number) => {
            behind_maybes(prefixes).is_empty() && is_int_kind(kind) && is_int(*number)
        }
        Val::Str(_) => behind_maybes(prefixes).is_empty() && is_string_kind(kind),
        Val::Items(values) => {
            array_is_of(values.as_slice(), scope, behind_maybes(prefixes), kind)
        }
        Val::Map(entries) => map_is_of(entries.as_slice(), scope, behind_maybes(prefixes), kind),
        Val::Struct(values) => {
            behind_maybes(prefixes).is_empty() && body_is_of(values.as_slice(), scope, kind)
        }
        Val::Pick(place) => {
            behind_maybes(prefixes).is_empty() && *place < count_names(scope, kind)
        }
        Val::Nothing => begins_with_maybe(prefixes),
        Val::Foreign(tree) => {
            behind_maybes(prefixes).is_empty() && is_object_kind(kind) && is_foreign(tree)
        }
    }
}

#[cycle(values)]
fn array_is_of<'x>(
    values: &[Val],
    scope: &'x Checked,
    prefixes: &'x [Prefix],
    kind: &Kind<'x>,
) -> bool
    ensures { result
        ≡ items_fit (map (fits scope.now) values.now) prefixes.now (core_of kind.now) }
{
    match prefixes {
        [Prefix::Array, rest @ ..] => are_of(values, scope, rest, kind),
        _ => false,
    }
}

#[cycle(values)]
fn map_is_of<'x>(
    entries: &[(Text, Val)],
    scope: &'x Checked,
    prefixes: &'x [Prefix],
    kind: &Kind<'x>,
) -> bool
    ensures { result ≡ map_fits scope.now entries.now prefixes.now (core_of kind.now) }
{
    match prefixes {
        [Prefix::Map, rest @ ..] => entries_are_of(entries, scope, rest, kind),
        _ => false,
    }
}

#[cycle(values)]
fn are_of<'x>(values: &[Val], scope: &'x Checked, prefixes: &'x [Prefix], kind: &Kind<'x>) -> bool
    ensures { result
        ≡ list_all (λ (fit : Fit). fit prefixes.now (core_of kind.now))
        (map (fits scope.now) values.now) }
{
    for value in values {
        if !is_of(value, scope, prefixes, kind) {
            return false;
        }
    }
    true
}

#[cycle(values)]
fn entries_are_of<'x>(
    entries: &[(Text, Val)],
    scope: &'x Checked,
    prefixes: &'x [Prefix],
    kind: &Kind<'x>,
) -> bool
    ensures { result ≡ (are_in_order (map (λ (entry : Bytes × Val). entry.0) entries.now)
        && list_all (λ (entry : Bytes × Val). fits scope.now entry.1 prefixes.now (core_of kind.now))
        entries.now) }
{
    if !keys_rise(entries) {
        return false;
    }
    for entry in entries {
        if !is_of(&entry.1, scope, prefixes, kind) {
            return false;
        }
    }
    true
}

#[cycle(values)]
fn body_is_of<'x>(values: &[Val], scope: &'x Checked, kind: &Kind<'x>) -> bool
    ensures { result
        ≡ body_fits (body_of scope.now (core_of kind.now)) (map (fits scope.now) values.now) }
{
    match kind_body(scope, kind) {
        Some(Body::Struct { fields, .. }) => fields_are_of(values, scope, fields.as_slice()),
        Some(Body::Enum { .. }) => false,
        None => false,
    }
}

#[cycle(values)]
fn fields_are_of<'x>(values: &[Val], scope: &'x Checked, fields: &'x [Field]) -> bool
    ensures { result ≡ fields_fit fields.now (map (fits scope.now) values.now) }
{
    if fields.len() != values.len() {
        return false;
    }
    for (i, value) in values.iter().enumerate() {
        let of = &fields[i].of;
        let prefixes = of.prefixes.as_slice();
        if !is_of(value, scope, prefixes, &Kind::Used(prefixes, &of.core)) {
            return false;
        }
    }
    true
}

/// The body of what stands behind a type's prefixes, where it is one in place or by name.
pub fn kind_body<'x>(scope: &'x Checked, kind: &Kind<'x>) -> Option<&'x Body>
    ensures { option_copied result ≡ body_of scope.now (core_of kind.now) }
{
    match kind {
        Kind::Used(_, core) => body_of(scope, core),
        Kind::Body(body) => Some(body),
        Kind::Int => None,
        Kind::Str => None,
    }
}

fn count_names<'x>(scope: &'x Checked, kind: &Kind<'x>) -> u64
    ensures { result ≡ length (names_or_none (body_of scope.now (core_of kind.now))) }
{
    match kind_body(scope, kind) {
        Some(body) => names_of(body).len() as u64,
        None => 0,
    }
}

// Whether the keys are in byte order, each once.
fn keys_rise(entries: &[(Text, Val)]) -> bool
    ensures { result ≡ are_in_order (map (λ (entry : Bytes × Val). entry.0) entries.now) }
{
    for (i, entry) in entries.iter().enumerate() {
        if !is_before(entry, &entries[i + 1..]) {
            return false;
        }
    }
    true
}

// Whether the key is before the next one, where there is one.
fn is_before(first: &(Text, Val), behind: &[(Text, Val)]) -> bool
    ensures { result ≡ is_before_next first.now.0 (map (λ (entry : Bytes × Val). entry.0) behind.now) }
{
    match behind {
        [next, ..] => first.0.as_str() < next.0.as_str(),
        [] => true,
    }
}

// Whether 64 bits with a sign hold the number.
fn is_int(number: i64) -> bool
    ensures { result ≡ is_int number }
{
    i64::MIN <= number && number <= i64::MAX
}

fn is_foreign(tree: &Value) -> bool
    ensures { result ≡ (is_some (as_object tree.now) && is_whole_tree tree.now) }
{
    tree.inner().is_object() && has_only_ints(tree.inner())
}

fn is_bool_kind(kind: &Kind<'_>) -> bool
    ensures { result ≡ is_bool (out-Core (core_of kind.now)) }
{
    match kind {
        Kind::Used(_, core) => matches!(core, Core::Bool),
        Kind::Body(_) => false,
        Kind::Int => false,
        Kind::Str => false,
    }
}

fn is_string_kind(kind: &Kind<'_>) -> bool
    ensures { result ≡ is_text (out-Core (core_of kind.now)) }
{
    match kind {
        Kind::Used(_, core) => matches!(core, Core::Str),
        Kind::Body(_) => false,
        Kind::Int => false,
        Kind::Str => true,
    }
}

fn is_object_kind(kind: &Kind<'_>) -> bool
    ensures { result ≡ is_foreign (out-Core (core_of kind.now)) }
{
    match kind {
        Kind::Used(_, core) => matches!(core, Core::Object),
        Kind::Body(_) => false,
        Kind::Int => false,
        Kind::Str => false,
    }
}
