// A resolver is asked for an address: what it tells, and what was done.
use address_finding::{ResolveEnd, ResolveFault, resolve};
use link_doors::Address;
use link_port::{List, Memory, Text};
use link_reach::{Deed, MemReach};
use std::alloc::Global;

/// The text of the question.
const ASKED: &[u8] =
    b"{\"method\":\"org.varlink.resolver.Resolve\",\"parameters\":{\"interface\":\"a.b\"}}\0";

fn copied(alloc: Global, bytes: &[u8]) -> Result<List<u8>, Memory> {
    match Vec::from_slice(alloc, bytes) {
        Ok(copy) => Ok(List::from_vec(copy)),
        Err(_) => Err(Memory),
    }
}

// A reach of one link, whose peer says these bytes.
fn reach(alloc: Global, says: &[u8]) -> Result<MemReach, Memory> {
    let says = copied(alloc, says)?;
    match vec![in alloc; says] {
        Ok(links) => MemReach::new(alloc, List::from_vec(links)),
        Err(failed) => {
            drop(failed);
            Err(Memory)
        }
    }
}

// In one word, what is told.
fn word(told: &Result<Address, ResolveEnd>) -> &str {
    match told {
        Ok(Address::Unix(path)) => path.as_str(),
        Ok(_) => "tcp",
        Err(ResolveEnd::Missing) => "missing",
        Err(ResolveEnd::Bad(fault)) => fault_word(fault),
        Err(ResolveEnd::LinkFault) => "link fault",
        Err(ResolveEnd::Memory) => "memory",
    }
}

fn fault_word(fault: &ResolveFault) -> &str {
    match fault {
        ResolveFault::NotReply(_) => "no reply",
        ResolveFault::Continues => "continues",
        ResolveFault::Ended => "ended",
        ResolveFault::TooLong => "too long",
        ResolveFault::Long => "long",
        ResolveFault::OtherError(name) => name.as_str(),
        ResolveFault::NoText => "no text",
        ResolveFault::BadAddress => "bad address",
    }
}

// Whether the resolver was dialled once and asked once, before anything else was done.
fn is_asked(deeds: &[Deed]) -> bool {
    match deeds {
        [
            Deed::Dialled(Address::Unix(path)),
            Deed::Sent { bytes, .. },
            ..
        ] => { path.as_str() == "/r" && bytes.as_slice() == ASKED && deeds.len() <= 4 }
        _ => false,
    }
}

// Whether a resolver that says these bytes is asked, and tells this.
fn tells(alloc: Global, says: &[u8], want: &str) -> bool {
    let Ok(path) = Text::of(alloc, "/r") else {
        return false;
    };
    let resolver = Address::Unix(path);
    let right = match reach(alloc, says) {
        Ok(mut reach) => {
            let told = resolve(alloc, &mut reach, &resolver, "a.b");
            let right = word(&told) == want && is_asked(reach.deeds());
            drop((told, reach));
            right
        }
        Err(_) => false,
    };
    drop(resolver);
    right
}

#[test]
fn a_resolver_tells_an_address(rt: HostRuntime) {
    let rows: [(&[u8], &str); 11] = [
        (
            b"{\"parameters\":{\"address\":\"unix:/count;x=1\"}}\0",
            "/count",
        ),
        (
            b"{\"parameters\":{\"address\":\"tcp:127.0.0.1:80\"}}\0{}\0",
            "tcp",
        ),
        (
            b"{\"error\":\"org.varlink.resolver.InterfaceNotFound\",\"parameters\":{\"interface\":\"a.b\"}}\0",
            "missing",
        ),
        (
            b"{\"error\":\"org.varlink.service.MethodNotFound\"}\0",
            "org.varlink.service.MethodNotFound",
        ),
        (b"{}\0", "no text"),
        (b"{\"parameters\":{\"address\":5}}\0", "no text"),
        (b"{\"parameters\":{\"address\":\"5\"}}\0", "bad address"),
        (
            b"{\"continues\":true,\"parameters\":{\"address\":\"unix:/a\"}}\0",
            "continues",
        ),
        (b"[]\0", "no reply"),
        (b"{\"parameters\":{\"address\":\"unix:/a\"}}", "ended"),
        (b"", "ended"),
    ];
    for (says, want) in rows {
        assert!(rt; tells(rt.alloc(), says, want));
    }
}
