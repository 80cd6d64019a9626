// Types as rules meet them, with the place of the interface that their names belong to.
ghost use Rattle.std.specs.Prelude.{◌≡◌, option_map};
ghost use Rattle.std.specs.Option.{option_copied};
ghost use Rattle.sheet_rules.specs.Types.{array_part, map_part, maybe_part, without_maybe, is_int_typ, is_int_core, int_typ, string_typ, body_typ, type_in, behind_maybe, after_array, after_map, after_maybe};
ghost use Rattle.sheet_rules.specs.Views.{typ_of, prefixes_of, core_of};

use idl_tree::{Body, Core, Prefix, TypeRef};

/// A type that a rule meets.
#[derive(Clone, Copy)]
pub struct Typ<'x> {
    /// The place, among the sheet's interfaces, of the one that its names belong to.
    pub scope: u64,
    /// What it is there.
    pub kind: Kind<'x>,
}

/// What a type is.
#[derive(Clone, Copy)]
pub enum Kind<'x> {
    /// A type in use: its prefixes, and the core behind them.
    Used(&'x [Prefix], &'x Core),
    /// The body of a method or an error, as a type in place.
    Body(&'x Body),
    /// `int`.
    Int,
    /// `string`.
    Str,
}

/// A type in use, whose names belong to the interface at that place.
pub fn type_in<'x>(scope: u64, of: &'x TypeRef) -> Typ<'x>
    ensures { typ_of result ≡ type_in scope of.now }
{
    Typ {
        scope,
        kind: Kind::Used(of.prefixes.as_slice(), &of.core),
    }
}

/// A body, as a type in place.
pub fn body_typ<'x>(scope: u64, body: &'x Body) -> Typ<'x>
    ensures { typ_of result ≡ body_typ scope body.now }
{
    Typ {
        scope,
        kind: Kind::Body(body),
    }
}

/// The type `int`.
pub fn int_typ<'x>(scope: u64) -> Typ<'x>
    ensures { typ_of result ≡ int_typ scope }
{
    Typ {
        scope,
        kind: Kind::Int,
    }
}

/// The type `string`.
pub fn string_typ<'x>(scope: u64) -> Typ<'x>
    ensures { typ_of result ≡ string_typ scope }
{
    Typ {
        scope,
        kind: Kind::Str,
    }
}

/// What stands before the core of a type.
pub fn prefixes_of<'x>(kind: &Kind<'x>) -> &'x [Prefix]
    ensures { result.now ≡ prefixes_of kind.now }
{
    match kind {
        Kind::Used(prefixes, _) => prefixes,
        Kind::Body(_) => &[],
        Kind::Int => &[],
        Kind::Str => &[],
    }
}

/// Whether it is `int`.
pub fn is_int(of: &Typ<'_>) -> bool
    ensures { result ≡ is_int_typ (typ_of of.now) }
{
    prefixes_of(&of.kind).is_empty() && is_int_kind(&of.kind)
}

/// Whether it is `int`, as what stands behind prefixes.
pub fn is_int_kind(kind: &Kind<'_>) -> bool
    ensures { result ≡ is_int_core (core_of kind.now) }
{
    match kind {
        Kind::Used(_, core) => matches!(core, Core::Int),
        Kind::Body(_) => false,
        Kind::Int => true,
        Kind::Str => false,
    }
}

/// The type without a leading `?`.
pub fn without_maybe<'x>(of: &Typ<'x>) -> Typ<'x>
    ensures { typ_of result ≡ without_maybe (typ_of of.now) }
{
    match of.kind {
        Kind::Used(prefixes, core) => used(of.scope, behind_maybe(prefixes), core),
        Kind::Body(body) => body_typ(of.scope, body),
        Kind::Int => int_typ(of.scope),
        Kind::Str => string_typ(of.scope),
    }
}

/// The type of an array's items, and None of another type.
pub fn array_part<'x>(of: &Typ<'x>) -> Option<Typ<'x>>
    ensures { option_map typ_of result ≡ array_part (typ_of of.now) }
{
    match of.kind {
        Kind::Used(prefixes, core) => match after_array(prefixes) {
            Some(rest) => Some(used(of.scope, rest, core)),
            None => None,
        },
        Kind::Body(_) => None,
        Kind::Int => None,
        Kind::Str => None,
    }
}

/// The type of a map's values, and None of another type.
pub fn map_part<'x>(of: &Typ<'x>) -> Option<Typ<'x>>
    ensures { option_map typ_of result ≡ map_part (typ_of of.now) }
{
    match of.kind {
        Kind::Used(prefixes, core) => match after_map(prefixes) {
            Some(rest) => Some(used(of.scope, rest, core)),
            None => None,
        },
        Kind::Body(_) => None,
        Kind::Int => None,
        Kind::Str => None,
    }
}

/// The type behind a leading `?`, and None of another type.
pub fn maybe_part<'x>(of: &Typ<'x>) -> Option<Typ<'x>>
    ensures { option_map typ_of result ≡ maybe_part (typ_of of.now) }
{
    match of.kind {
        Kind::Used(prefixes, core) => match after_maybe(prefixes) {
            Some(rest) => Some(used(of.scope, rest, core)),
            None => None,
        },
        Kind::Body(_) => None,
        Kind::Int => None,
        Kind::Str => None,
    }
}

fn used<'x>(scope: u64, prefixes: &'x [Prefix], core: &'x Core) -> Typ<'x>
    ensures { typ_of result ≡ record { scope = scope; prefixes = prefixes.now; core = core.now } }
{
    Typ {
        scope,
        kind: Kind::Used(prefixes, core),
    }
}

fn behind_maybe(prefixes: &[Prefix]) -> &[Prefix]
    ensures { result.now ≡ behind_maybe prefixes.now }
{
    match prefixes {
        [Prefix::Maybe, rest @ ..] => rest,
        all => all,
    }
}

fn after_array(prefixes: &[Prefix]) -> Option<&[Prefix]>
    ensures { option_copied result ≡ after_array prefixes.now }
{
    match prefixes {
        [Prefix::Array, rest @ ..] => Some(rest),
        _ => None,
    }
}

fn after_map(prefixes: &[Prefix]) -> Option<&[Prefix]>
    ensures { option_copied result ≡ after_map prefixes.now }
{
    match prefixes {
        [Prefix::Map, rest @ ..] => Some(rest),
        _ => None,
    }
}

fn after_maybe(prefixes: &[Prefix]) -> Option<&[Prefix]>
    ensures { option_copied result ≡ after_maybe prefixes.now }
{
    match prefixes {
        [Prefix::Maybe, rest @ ..] => Some(rest),
        _ => None,
    }
}
