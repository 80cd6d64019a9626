// Links are dialled, used, closed and taken out.
ghost use Rattle.std.specs.Prelude.{◌≡◌};
ghost use Rattle.link_reach.specs.declared.deeds.LinkState.TheVariants.{Open};

use link_doors::Address;
use link_port::{List, Memory, Sink, Source, Text};
use link_reach::{Deed, DialFault, LinkNo, MemReach, Reach};
use std::alloc::Global;

fn copied(alloc: Global, bytes: &[u8]) -> Result<List<u8>, Memory> {
    match Vec::from_slice(alloc, bytes) {
        Ok(copy) => Ok(List::from_vec(copy)),
        Err(_) => Err(Memory),
    }
}

// A reach of two links, whose peers say `one` and nothing.
fn reach(alloc: Global) -> Result<MemReach, Memory> {
    let one = copied(alloc, b"one")?;
    match vec![in alloc; one, List::new(alloc)] {
        Ok(links) => MemReach::new(alloc, List::from_vec(links)),
        Err(failed) => {
            drop(failed);
            Err(Memory)
        }
    }
}

fn path(alloc: Global) -> Result<Address, Memory> {
    Ok(Address::Unix(Text::of(alloc, "/a")?))
}

// Whether a call is sent on a link, and its peer's bytes are taken in two pieces up to their end.
fn is_used<R: Reach>(alloc: Global, reach: &mut R, link: LinkNo) -> bool
    requires { R.state reach.old link.0 ≡ Open }
{
    let mut into = [0u8; 2];
    let sent = reach.send(alloc, link, b"call");
    let first = reach.take(alloc, link, &mut into);
    let begins = into == *b"on";
    let second = reach.take(alloc, link, &mut into);
    let ends = into == *b"en";
    let last = reach.take(alloc, link, &mut into);
    reach.close(link);
    (sent, first, second, last) == (Ok(4), Ok(2), Ok(1), Ok(0)) && begins && ends
}

// Whether the link of an address is the first one, and is used.
fn is_dialled<R: Reach>(alloc: Global, reach: &mut R, address: &Address) -> bool {
    match reach.dial(alloc, address) {
        Ok(link) => is_used(alloc, reach, link) && link == LinkNo(0),
        Err(_) => false,
    }
}

// Whether a link is taken out as two ends, which are used and given back.
fn is_halved<R: Reach>(alloc: Global, reach: &mut R, address: &Address) -> bool {
    let Ok(link) = reach.dial(alloc, address) else {
        return false;
    };
    let Ok((mut up, mut down)) = reach.halves(alloc, link) else {
        return false;
    };
    let mut into = [0u8; 4];
    let put = up.put(b"x");
    let taken = down.take(&mut into);
    reach.free(up, down);
    (put, taken) == (Ok(1), Ok(3)) && into == *b"one\0"
}

// Whether this is what was done.
fn is_deed(deed: &Deed, want: (&str, u64, &[u8])) -> bool {
    match deed {
        Deed::Dialled(Address::Unix(path)) => want == ("dialled", 0, path.as_str().as_bytes()),
        Deed::Dialled(Address::Tcp { ip, port }) => want
            == ("dialled", *port as u64, ip.as_slice()),
        Deed::Started { program, .. } => want == ("started", 0, program.as_str().as_bytes()),
        Deed::Sent { link, bytes } => want == ("sent", *link, bytes.as_slice()),
        Deed::Took { link, bytes } => want == ("took", *link, bytes.as_slice()),
        Deed::Ended { link } => want == ("ended", *link, b""),
    }
}

fn are_deeds(deeds: &[Deed], wants: &[(&str, u64, &[u8])]) -> bool {
    deeds.len() == wants.len()
        && deeds
            .iter()
            .zip(wants.iter())
            .all(|(deed, want)| is_deed(deed, *want))
}

// Whether what is done stands in the log, in order.
fn is_logged(alloc: Global) -> bool {
    let Ok(mut reach) = reach(alloc) else {
        return false;
    };
    let Ok(address) = path(alloc) else {
        drop(reach);
        return false;
    };
    let used = is_dialled(alloc, &mut reach, &address);
    let child = reach.dial_child(alloc, "p", &address);
    let past = reach.dial(alloc, &address);
    let right = are_deeds(
        reach.deeds(),
        &[
            ("dialled", 0, b"/a"),
            ("sent", 0, b"call"),
            ("took", 0, b"on"),
            ("took", 0, b"e"),
            ("ended", 0, b""),
            ("started", 0, b"p"),
            ("dialled", 0, b"/a"),
        ],
    );
    drop((reach, address));
    used && right && child == Ok(LinkNo(1)) && past == Err(DialFault::Failed)
}

#[test]
fn links_are_used_in_order(rt: HostRuntime) {
    assert!(rt; is_logged(rt.alloc()));
}

// Whether the end of a link that was given back holds what was put to it.
fn is_freed(alloc: Global) -> bool {
    let Ok(mut reach) = reach(alloc) else {
        return false;
    };
    let Ok(address) = path(alloc) else {
        drop(reach);
        return false;
    };
    let halved = is_halved(alloc, &mut reach, &address);
    let right = match reach.freed() {
        Some((up, _)) => up.bytes() == b"x".as_slice(),
        None => false,
    };
    drop((reach, address));
    halved && right
}

#[test]
fn links_are_taken_out_and_given_back(rt: HostRuntime) {
    assert!(rt; is_freed(rt.alloc()));
}

// Whether the first call fails, and stands in the log.
fn fails(alloc: Global, reach: MemReach) -> bool {
    let Ok(failing) = numbers(alloc) else {
        drop(reach);
        return false;
    };
    let mut reach = reach.failing(failing);
    let Ok(address) = path(alloc) else {
        drop(reach);
        return false;
    };
    let first = reach.dial(alloc, &address);
    let second = reach.dial(alloc, &address);
    let right = are_deeds(
        reach.deeds(),
        &[("dialled", 0, b"/a"), ("dialled", 0, b"/a")],
    );
    drop((reach, address));
    right && first == Err(DialFault::Failed) && second == Ok(LinkNo(0))
}

// The number of the first call.
fn numbers(alloc: Global) -> Result<List<u64>, Memory> {
    let mut numbers = List::new(alloc);
    numbers.push(0)?;
    Ok(numbers)
}

#[test]
fn planned_calls_fail(rt: HostRuntime) {
    let right = match reach(rt.alloc()) {
        Ok(reach) => fails(rt.alloc(), reach),
        Err(Memory) => false,
    };
    assert!(rt; right);
}
