// Links to doors: what is sent on the one arrives at the other, both ways and to the end.
ghost use Rattle.std.specs.Prelude.{◌≡◌, false, None};

use crate::places::{Place, free_port};
use door_binder::Binder;
use link_doors::{Address, Leave, Listener};
use link_port::{Sink, Source};
use link_reach::{DialFault, Reach};
use socket_edges::{RealBinder, RealReach};
use std::alloc::Global;
use std::net::{Net, TcpListener, TcpStream};
use std::process::{Processes, SystemProcess};
use std::rt::Files;

// Whether `call` comes in, and `reply` is sent and then the end.
fn is_answered<C: Source + Sink>(conn: &mut C) -> bool
    requires { C.Ends.finished conn.old ≡ false }
{
    let mut into = [0u8; 16];
    let taken = conn.take(&mut into);
    let put = conn.put(b"reply");
    let finished = conn.finish();
    (taken, put, finished) == (Ok(4), Ok(5), Ok(())) && into.starts_with(b"call")
}

// Whether a call and its reply pass over a link that is closed from both ends.
fn is_exchanged<R: Reach, L: Listener>(
    alloc: Global,
    reach: &mut R,
    door: &mut L,
    address: &Address,
) -> bool
    requires { L.back door.old ≡ None }
{
    let Ok(link) = reach.dial(alloc, address) else {
        return false;
    };
    let sent = reach.send(alloc, link, b"call");
    let Ok(Some(mut conn)) = door.accept() else {
        return false;
    };
    let answered = is_answered(&mut conn);
    let mut into = [0u8; 16];
    let taken = reach.take(alloc, link, &mut into);
    let right = into.starts_with(b"reply");
    let ended = reach.take(alloc, link, &mut into);
    reach.close(link);
    let left = conn.take(&mut into);
    door.done(conn, Leave::Whole, 0);
    answered && right && (sent, taken, ended, left) == (Ok(4), Ok(5), Ok(0), Ok(0))
}

// Whether the same passes over a link that is taken out as two ends, which are given back.
fn is_halved<R: Reach, L: Listener>(
    alloc: Global,
    reach: &mut R,
    door: &mut L,
    address: &Address,
) -> bool
    requires { L.back door.old ≡ None }
{
    let Ok(link) = reach.dial(alloc, address) else {
        return false;
    };
    let Ok((mut up, mut down)) = reach.halves(alloc, link) else {
        return false;
    };
    let put = up.put(b"call");
    let Ok(Some(mut conn)) = door.accept() else {
        reach.free(up, down);
        return false;
    };
    let answered = is_answered(&mut conn);
    let mut into = [0u8; 16];
    let taken = down.take(&mut into);
    let right = into.starts_with(b"reply");
    let ended = down.take(&mut into);
    reach.free(up, down);
    let left = conn.take(&mut into);
    door.done(conn, Leave::Whole, 0);
    answered && right && (put, taken, ended, left) == (Ok(4), Ok(5), Ok(0), Ok(0))
}

// Whether two doors at an address serve a link each, give none past that, and nobody listens there any more once
// they were given back.
fn is_served<L: Reach, R: Files + Net<Stream = TcpStream, Listener = TcpListener>>(
    alloc: Global,
    reach: &mut L,
    binder: &mut RealBinder<R>,
    address: &Address,
) -> bool {
    let Ok(mut doors) = binder.bind(alloc, address, 2, Some(1)) else {
        return false;
    };
    let served = match doors.as_mut_slice() {
        [first, second] => {
            is_exchanged(alloc, reach, first, address)
                && is_halved(alloc, reach, second, address)
                && first.accept().is_ok_and(|conn| conn.is_none())
        }
        _ => false,
    };
    binder.free(doors);
    served && reach.dial(alloc, address) == Err(DialFault::Failed)
}

// The same through the real edges.
fn is_real<
    R: Files
        + Net<Stream = TcpStream, Listener = TcpListener>
        + Processes<Started = SystemProcess>
        + Copy,
>(system: R, alloc: Global, address: &Address) -> bool {
    let mut reach = RealReach::new(alloc, system);
    let mut binder = RealBinder::new(system);
    is_served(alloc, &mut reach, &mut binder, address)
}

#[test]
fn links_over_unix_sockets(rt: HostRuntime) {
    let right = match Place::new(&rt, rt.alloc(), rt.process(), "links") {
        Ok(place) => {
            let served = match place.address(rt.alloc()) {
                Ok(address) => is_real(rt, rt.alloc(), &address),
                Err(_) => false,
            };
            place.remove(&rt) && served
        }
        Err(_) => false,
    };
    assert!(rt; right);
}

#[test]
fn links_over_tcp(rt: HostRuntime) {
    let right = match free_port(&rt) {
        Ok(address) => is_real(rt, rt.alloc(), &address),
        Err(_) => false,
    };
    assert!(rt; right);
}
