// Laws of every history that a service at several doors comes to. The function does nothing.
ghost use Rattle.door_host.specs.Doors.{kind_of};
ghost use Rattle.host_laws.specs.Laws.{EntriesAreShallow};

use link_doors::Listener;

/// The law that the parameters of each entry of a service's history have at most 126 levels, whatever its doors are: a
/// call's text nests 127 deep at most, and its parameters stand in it.
#[tactic(auto, using(crate::proofs::HistoryDepths::entries_are_shallow))]
pub fn entries_are_shallow<D: Listener>()
    ensures { EntriesAreShallow
        (kind_of D.stated D.given D.faults D.coming D.back D.Conn.left D.Conn.written) }
{}
