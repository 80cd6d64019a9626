// Prefixes of two types, side by side.
ghost use Rattle.std.specs.Prelude.{◌≡◌, option_map, Some};
ghost use Rattle.idl_tree.specs.declared.trees.Prefix.TheVariants.{Array, Map, Maybe};
ghost use Rattle.idl_compat.specs.Walks.{next_left, stuck};

use idl_tree::Prefix;

/// How many prefixes of the type that reads are behind when the pair fails, and None where both types
/// come to their cores.
pub fn stuck(from: &[Prefix], to: &[Prefix]) -> Option<usize>
    ensures { result ≡ stuck to.now from.now }
{
    let mut left = from;
    for (count, prefix) in to.iter().enumerate() {
        match next_left(left, *prefix) {
            Some(rest) => left = rest,
            None => return Some(count),
        }
    }
    if left.is_empty() {
        None
    } else {
        Some(to.len())
    }
}

// What is left behind a prefix of the type that reads.
fn next_left(left: &[Prefix], prefix: Prefix) -> Option<&[Prefix]>
    ensures { option_map (λ rest. rest.now) result ≡ next_left left.now prefix }
{
    match prefix {
        Prefix::Maybe => Some(behind_maybe(left)),
        Prefix::Array => behind_array(left),
        Prefix::Map => behind_map(left),
    }
}

fn behind_maybe(left: &[Prefix]) -> &[Prefix]
    ensures { Some result.now ≡ next_left left.now Maybe }
{
    match left {
        [Prefix::Maybe, rest @ ..] => rest,
        _ => left,
    }
}

fn behind_array(left: &[Prefix]) -> Option<&[Prefix]>
    ensures { option_map (λ rest. rest.now) result ≡ next_left left.now Array }
{
    match left {
        [Prefix::Array, rest @ ..] => Some(rest),
        _ => None,
    }
}

fn behind_map(left: &[Prefix]) -> Option<&[Prefix]>
    ensures { option_map (λ rest. rest.now) result ≡ next_left left.now Map }
{
    match left {
        [Prefix::Map, rest @ ..] => Some(rest),
        _ => None,
    }
}
