// The three name spaces of an interface.
ghost use Rattle.std.specs.Prelude.{◌≡◌};
ghost use Rattle.idl_tree.specs.Faults.{space_of, is_space};

use crate::trees::Part;

/// The three name spaces of an interface.
#[derive(Clone, Copy)]
pub enum Space {
    /// The types.
    Types,
    /// The methods.
    Methods,
    /// The errors.
    Errors,
}

/// The name space in which such a member's name stands.
pub fn space_of(part: &Part) -> Space
    ensures { result ≡ space_of part.now }
{
    match part {
        Part::Shape(_) => Space::Types,
        Part::Method { .. } => Space::Methods,
        Part::Fault(_) => Space::Errors,
    }
}

/// Whether such a member's name stands in that name space.
pub fn stands_in(part: &Part, space: Space) -> bool
    ensures { result ≡ is_space space (space_of part.now) }
{
    match (space, part) {
        (Space::Types, Part::Shape(_)) => true,
        (Space::Methods, Part::Method { .. }) => true,
        (Space::Errors, Part::Fault(_)) => true,
        _ => false,
    }
}
