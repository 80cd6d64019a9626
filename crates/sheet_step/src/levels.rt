// Which values have no more levels than they may.
ghost use Rattle.std.specs.Prelude.{◌≡◌};
ghost use Rattle.sheet_step.specs.Levels as limits;

use crate::LEVEL_LIMIT;
use crate::deeds::Deed;
use typed_value::{Val, levels};

/// Whether a value has no more levels than a register and a reply may have.
pub fn is_within(val: &Val) -> bool
    ensures { result ≡ limits.is_within val.now }
{
    levels(val) <= LEVEL_LIMIT
}

/// Whether none of the values has more levels.
pub fn are_within(vals: &[Val]) -> bool
    ensures { result ≡ limits.are_within vals.now }
{
    for val in vals {
        if !is_within(val) {
            return false;
        }
    }
    true
}

/// What is known of the levels of registers, without looking through them.
#[derive(Clone, Copy)]
pub enum Depth {
    /// None has more than it may.
    Within,
    /// The register at a place has more.
    DeepAt(u64),
    /// Nothing.
    Unknown,
}

/// Whether no register has more levels than it may. They are looked through only where nothing is known.
pub fn are_level(depth: Depth, registers: &[Val]) -> bool
    requires { limits.Told depth registers.now }
    ensures { result ≡ limits.are_within registers.now }
{
    match depth {
        Depth::Within => true,
        Depth::DeepAt(_) => false,
        Depth::Unknown => are_within(registers),
    }
}

/// What is known after a change of the register at a place.
pub fn next_depth(depth: Depth, place: u64, small: bool) -> Depth
    ensures { result ≡ limits.next_depth depth place small }
{
    match depth {
        _ if !small => Depth::DeepAt(place),
        Depth::Within => Depth::Within,
        Depth::DeepAt(deep) if deep != place => depth,
        _ => Depth::Unknown,
    }
}

/// Whether what is put in leaves a register within its levels.
pub fn is_small(deed: &Deed) -> bool
    ensures { result ≡ limits.is_small deed.now }
{
    match deed {
        Deed::Set(val) => is_within(val),
        Deed::Push(val) => levels(val) < LEVEL_LIMIT,
        Deed::Put(_, val) => levels(val) < LEVEL_LIMIT,
        Deed::Drop(_) => true,
    }
}
