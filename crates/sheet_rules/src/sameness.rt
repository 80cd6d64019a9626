// Which types are the same, and which fit.
ghost use Rattle.std.specs.Prelude.{◌≡◌};
ghost use Rattle.idl_tree.specs.Same.{same_core};
ghost use Rattle.idl_tree.specs.declared.trees.Core.TheVariants.{Inline};
ghost use Rattle.sheet_rules.specs.Types.{same_typ, fits_typ};
ghost use Rattle.sheet_rules.specs.Views.{typ_of, core_of};

use crate::names::has_name;
use crate::types::{Kind, Typ, maybe_part, prefixes_of};
use idl_tree::{Body, Core, same_body, same_core, same_prefixes};

/// Whether two types are the same: their prefixes and cores agree, notes not counted, and where the name
/// of a type stands in them, both belong to the same interface. It takes no memory.
pub fn same(one: &Typ<'_>, other: &Typ<'_>) -> bool
    ensures { result ≡ same_typ (typ_of one.now) (typ_of other.now) }
{
    same_prefixes(prefixes_of(&one.kind), prefixes_of(&other.kind))
        && same_kind(&one.kind, &other.kind)
        && (one.scope == other.scope || !has_name(&one.kind))
}

/// Whether a type fits another: they are the same, or the other is the type behind a `?`.
pub fn fits(one: &Typ<'_>, other: &Typ<'_>) -> bool
    ensures { result ≡ fits_typ (typ_of one.now) (typ_of other.now) }
{
    if same(one, other) {
        return true;
    }
    match maybe_part(other) {
        Some(part) => same(one, &part),
        None => false,
    }
}

fn same_kind(one: &Kind<'_>, other: &Kind<'_>) -> bool
    ensures { result ≡ same_core (core_of one.now) (core_of other.now) }
{
    match (one, other) {
        (Kind::Used(_, a), Kind::Used(_, b)) => same_core(a, b),
        (Kind::Used(_, a), Kind::Body(b)) => is_body(a, b),
        (Kind::Used(_, a), Kind::Int) => matches!(a, Core::Int),
        (Kind::Used(_, a), Kind::Str) => matches!(a, Core::Str),
        (Kind::Body(a), Kind::Used(_, b)) => body_is(a, b),
        (Kind::Body(a), Kind::Body(b)) => same_body(a, b),
        (Kind::Int, Kind::Used(_, b)) => matches!(b, Core::Int),
        (Kind::Str, Kind::Used(_, b)) => matches!(b, Core::Str),
        (Kind::Int, Kind::Int) => true,
        (Kind::Str, Kind::Str) => true,
        _ => false,
    }
}

// Whether a core is a body in place, the same as this one.
fn is_body(core: &Core, body: &Body) -> bool
    ensures { result ≡ same_core core.now (Inline body.now) }
{
    match core {
        Core::Inline(inner) => same_body(inner, body),
        _ => false,
    }
}

fn body_is(body: &Body, core: &Core) -> bool
    ensures { result ≡ same_core (Inline body.now) core.now }
{
    match core {
        Core::Inline(inner) => same_body(body, inner),
        _ => false,
    }
}
