// Files of sockets: a bind takes the place of one at which nobody listens, and of no other.
ghost use Rattle.std.specs.Prelude.{◌≡◌};

use crate::places::Place;
use door_binder::Binder;
use link_doors::Address;
use link_reach::DialFault;
use socket_edges::RealBinder;
use std::alloc::Global;
use std::fs;
use std::rt::Files;

// Whether a door is bound at an address.
fn binds<B: Binder>(alloc: Global, binder: &mut B, address: &Address) -> Result<(), DialFault> {
    let doors = binder.bind(alloc, address, 1, None)?;
    binder.free(doors);
    Ok(())
}

// Whether an address is taken while a door is there, and free again when the door was left and not given back.
fn is_taken_over<B: Binder>(alloc: Global, binder: &mut B, address: &Address) -> bool {
    let Ok(left) = binder.bind(alloc, address, 1, None) else {
        return false;
    };
    let beside = binds(alloc, binder, address);
    drop(left);
    let after = binds(alloc, binder, address);
    (beside, after) == (Err(DialFault::Failed), Ok(()))
}

#[test]
fn a_socket_is_taken_over_when_nobody_listens(rt: HostRuntime) {
    let mut binder = RealBinder::new(rt);
    let right = match Place::new(&rt, rt.alloc(), rt.process(), "sockets") {
        Ok(place) => {
            let taken = match place.address(rt.alloc()) {
                Ok(address) => is_taken_over(rt.alloc(), &mut binder, &address),
                Err(_) => false,
            };
            place.remove(&rt) && taken
        }
        Err(_) => false,
    };
    assert!(rt; right);
}

// Whether a bind at a file that is no socket fails, and the file is still there.
fn is_spared<R: Files, B: Binder>(
    system: &R,
    alloc: Global,
    binder: &mut B,
    place: &Place,
) -> bool {
    let path = place.path.as_str();
    if fs::write(system, path, "text").is_err() {
        return false;
    }
    let bound = match place.address(alloc) {
        Ok(address) => binds(alloc, binder, &address),
        Err(_) => Ok(()),
    };
    fs::remove_file(system, path).is_ok() && bound == Err(DialFault::Failed)
}

#[test]
fn another_file_stays_where_it_is(rt: HostRuntime) {
    let mut binder = RealBinder::new(rt);
    let right = match Place::new(&rt, rt.alloc(), rt.process(), "files") {
        Ok(place) => {
            let spared = is_spared(&rt, rt.alloc(), &mut binder, &place);
            place.remove(&rt) && spared
        }
        Err(_) => false,
    };
    assert!(rt; right);
}
