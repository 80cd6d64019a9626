// How doors are bound to addresses.
ghost use Rattle.std.specs.Prelude.{◌≡◌, ℕ, List, All, None, IfOk, IfSome, length};
ghost use Rattle.std.specs.declared.option.Option.{Option};
ghost use Rattle.link_reach.specs.Deeds.{CountsFault};
ghost use Rattle.door_binder.specs.Binds.{Gains, tried, IsUnused, IsWithin};
ghost use Rattle.door_binder.specs.declared.binders.Bind.{Bind};

use link_doors::{Address, Listener};
use link_reach::DialFault;
use std::alloc::Global;

/// What was asked of a bind.
#[derive(Debug, Drop)]
pub struct Bind {
    /// The address.
    pub address: Address,
    /// The number of doors.
    pub doors: u64,
    /// The number of connections that each door gives at most, where that is said.
    pub connections: Option<u64>,
}

/// How doors are bound to addresses.
///
/// It tells how many binds failed. Which binds there were, and which doors were given back, it tells or
/// does not.
pub trait Binder {
    /// A door.
    type Door: Listener + Drop;

    /// How many binds failed.
    ghost faults: { Self → ℕ };

    /// The binds in order, failed ones among them, where they are told.
    ghost binds: { Self → Option (List Bind) } = { λ _. None };

    /// The doors last given back, where they are told.
    ghost freed: { Self → Option (List Self.Door) } = { λ _. None };

    /// Binds so many doors to one address. Each gives at most `connections` connections, where that is
    /// said, and has given none yet.
    fn bind(
        &mut self,
        alloc: Global,
        address: &Address,
        doors: u64,
        connections: Option<u64>,
    ) -> Result<Vec<Self::Door>, DialFault>
        ensures count { IfOk result (λ made. length made.items ≡ doors) }
        ensures unused { IfOk result (λ made. All (λ door. IsUnused (Self.Door.given door) (Self.Door.faults door)
            (Self.Door.back door)) made.items) }
        ensures within { IfOk result (λ made. All (λ door. IsWithin connections (Self.Door.stated door)) made.items) }
        ensures log { Gains (binds self.old) (binds self.new)
            (tried (record { address = address.now; doors = doors; connections = connections }) result) }
        ensures fault { CountsFault (faults self.old) (faults self.new) result }
        ensures freed { freed self.new ≡ freed self.old };

    /// Gives doors back.
    fn free(&mut self, doors: Vec<Self::Door>)
        ensures freed { IfSome (freed self.new) (λ given. given ≡ doors.items) }
        ensures log { binds self.new ≡ binds self.old }
        ensures fault { faults self.new ≡ faults self.old };
}
