// What is left of a type behind its prefixes.
ghost use Rattle.std.specs.Prelude.{◌≡◌, false};
ghost use Rattle.idl_tree.specs.Form.{begins_with_maybe};
ghost use Rattle.typed_value.specs.Bodies.{behind_maybes, part_prefixes};

use idl_tree::Prefix;

/// Whether the first prefix is `?`.
pub fn begins_with_maybe(prefixes: &[Prefix]) -> bool
    ensures { result ≡ begins_with_maybe prefixes.now }
{
    matches!(prefixes, [Prefix::Maybe, ..])
}

/// The prefixes behind those that are `?`.
pub fn behind_maybes(prefixes: &[Prefix]) -> &[Prefix]
    ensures rest { result.now ≡ behind_maybes prefixes.now }
    ensures plain { begins_with_maybe result.now ≡ false }
{
    let mut rest = prefixes;
    while let [Prefix::Maybe, behind @ ..] = rest {
        rest = behind;
    }
    rest
}

/// The prefixes of an array's items or a map's values.
pub fn part_prefixes(prefixes: &[Prefix]) -> &[Prefix]
    ensures { result.now ≡ part_prefixes prefixes.now }
{
    match behind_maybes(prefixes) {
        [] => &[],
        [_, behind @ ..] => behind,
    }
}
