// Registries at their bytes: what is refused, what is answered, and where calls go.
ghost use Rattle.std.specs.Prelude.{◌≡◌, false, IfOk};

use call_form::{Call, Outcome, RESOLVER_TEXT, SERVICE_TEXT, read_call};
use link_doors::Address;
use link_port::{List, MemSink, MemSource, Memory};
use resolver_core::{Goal, Registry, RegistryFault, target};
use session_core::{Stop, serve_alone};
use std::alloc::Global;

/// Texts that are no registries, each with what is told of it.
const REFUSED: [(&[u8], &str); 12] = [
    (b"", "not JSON"),
    (b"{", "not JSON"),
    (b"\xff", "not JSON"),
    (b"[]", "not an object"),
    (b"null", "not an object"),
    (b"{\"x\":\"unix:/a\"}", "bad name x"),
    (b"{\"a.b\":\"unix:\"}", "bad address of a.b"),
    (b"{\"a.b\":1}", "bad address of a.b"),
    (
        b"{\"org.varlink.service\":\"unix:/a\"}",
        "bad name org.varlink.service",
    ),
    (
        b"{\"org.varlink.resolver\":\"unix:/a\"}",
        "bad name org.varlink.resolver",
    ),
    (b"{\"x\":1,\"a.b\":1}", "bad address of a.b"),
    (b"{\"a.b\":1,\"0\":1}", "bad name 0"),
];

/// Whether a fault is told so.
fn tells(alloc: Global, fault: RegistryFault, wanted: &str) -> bool {
    match format!(in alloc; "{fault}") {
        Ok(line) => line.as_str() == wanted,
        Err(_) => false,
    }
}

fn are_refused<'x>(alloc: Global, rows: &'x [(&'x [u8], &'x str)]) -> bool {
    for (text, wanted) in rows {
        match Registry::read(alloc, text) {
            Ok(registry) => {
                drop(registry);
                return false;
            }
            Err(fault) => {
                if !tells(alloc, fault, wanted) {
                    return false;
                }
            }
        }
    }
    true
}

#[test]
fn texts_that_are_no_registries_are_refused(rt: HostRuntime) {
    assert!(rt; are_refused(rt.alloc(), &REFUSED));
}

/// A registry of one interface, and one of two that stand out of order and twice.
const ONE: &[u8] = b"{\"a.b\":\"unix:/a\"}";

const TWO: &[u8] =
    b"{\"c.d\":\"tcp:1.2.3.4:5\",\"a.b\":\"unix:/old\",\"a.b\":\"unix:/a;mode=0600\"}";

const OWN_INFO: &[u8] =
    b"{\"parameters\":{\"interfaces\":[\"org.varlink.service\",\"org.varlink.resolver\"],\
\"product\":\"resolver\",\"url\":\"https://varlink.org\",\"vendor\":\"Varlink\",\"version\":\"1\"}}\0";

const ONE_INFO: &[u8] = b"{\"parameters\":{\"interfaces\":[\"a.b\"],\
\"product\":\"resolver\",\"url\":\"https://varlink.org\",\"vendor\":\"Varlink\",\"version\":\"1\"}}\0";

const TWO_INFO: &[u8] = b"{\"parameters\":{\"interfaces\":[\"a.b\",\"c.d\"],\
\"product\":\"resolver\",\"url\":\"https://varlink.org\",\"vendor\":\"Varlink\",\"version\":\"1\"}}\0";

const NO_UPGRADE: &[u8] = b"{\"error\":\"org.varlink.service.InvalidParameter\",\
\"parameters\":{\"parameter\":\"upgrade\"}}\0";

const NO_INTERFACE: &[u8] = b"{\"error\":\"org.varlink.service.InvalidParameter\",\
\"parameters\":{\"parameter\":\"interface\"}}\0";

/// Calls to a registry, each with its reply.
const ANSWERED: [(&[u8], &[u8], &[u8]); 16] = [
    (
        ONE,
        b"{\"method\":\"org.varlink.service.GetInfo\"}\0",
        OWN_INFO,
    ),
    (
        ONE,
        b"{\"method\":\"org.varlink.resolver.GetInfo\"}\0",
        ONE_INFO,
    ),
    (
        TWO,
        b"{\"method\":\"org.varlink.resolver.GetInfo\"}\0",
        TWO_INFO,
    ),
    (
        ONE,
        b"{\"method\":\"org.varlink.resolver.Resolve\",\"parameters\":{\"interface\":\"a.b\"}}\0",
        b"{\"parameters\":{\"address\":\"unix:/a\"}}\0",
    ),
    (
        TWO,
        b"{\"method\":\"org.varlink.resolver.Resolve\",\"parameters\":{\"interface\":\"a.b\"}}\0",
        b"{\"parameters\":{\"address\":\"unix:/a\"}}\0",
    ),
    (
        TWO,
        b"{\"method\":\"org.varlink.resolver.Resolve\",\"parameters\":{\"interface\":\"c.d\"}}\0",
        b"{\"parameters\":{\"address\":\"tcp:1.2.3.4:5\"}}\0",
    ),
    (
        ONE,
        b"{\"method\":\"org.varlink.resolver.Resolve\",\"parameters\":{\"interface\":\"c.d\"}}\0",
        b"{\"error\":\"org.varlink.resolver.InterfaceNotFound\",\
\"parameters\":{\"interface\":\"c.d\"}}\0",
    ),
    (
        ONE,
        b"{\"method\":\"org.varlink.resolver.Resolve\"}\0",
        NO_INTERFACE,
    ),
    (
        ONE,
        b"{\"method\":\"org.varlink.resolver.Resolve\",\"upgrade\":true}\0",
        NO_UPGRADE,
    ),
    (
        ONE,
        b"{\"method\":\"org.varlink.service.GetInfo\",\"upgrade\":true}\0",
        NO_UPGRADE,
    ),
    (
        ONE,
        b"{\"method\":\"org.varlink.service.GetInterfaceDescription\"}\0",
        NO_INTERFACE,
    ),
    (
        ONE,
        b"{\"method\":\"org.varlink.service.GetInterfaceDescription\",\
\"parameters\":{\"interface\":\"a.b\"}}\0",
        b"{\"error\":\"org.varlink.service.InterfaceNotFound\",\
\"parameters\":{\"interface\":\"a.b\"}}\0",
    ),
    (
        ONE,
        b"{\"method\":\"Ping\",\"upgrade\":true}\0",
        b"{\"error\":\"org.varlink.service.InterfaceNotFound\",\
\"parameters\":{\"interface\":\"Ping\"}}\0",
    ),
    (
        ONE,
        b"{\"method\":\"a.b.Ping\"}\0",
        b"{\"error\":\"org.varlink.service.InterfaceNotFound\",\
\"parameters\":{\"interface\":\"a.b\"}}\0",
    ),
    (
        ONE,
        b"{\"method\":\"org.varlink.resolver.Ping\"}\0",
        b"{\"error\":\"org.varlink.service.MethodNotFound\",\
\"parameters\":{\"method\":\"org.varlink.resolver.Ping\"}}\0",
    ),
    (
        ONE,
        b"{\"method\":\"org.varlink.resolver.GetInfo\",\"oneway\":true}\0",
        b"",
    ),
];

/// What a registry is served with.
#[derive(Drop)]
struct Served {
    source: MemSource,
    sink: MemSink,
}

fn source_of(alloc: Global, input: &[u8]) -> Result<MemSource, Memory> {
    match Vec::from_slice(alloc, input) {
        Ok(bytes) => {
            MemSource::new(
                alloc,
                List::from_vec(bytes),
                List::new(alloc),
                List::new(alloc),
            )
        }
        Err(_) => Err(Memory),
    }
}

fn ends_of(alloc: Global, input: &[u8]) -> Result<Served, Memory>
    ensures { IfOk result (λ ends. ends.sink.finished ≡ false) }
{
    let source = source_of(alloc, input)?;
    match MemSink::new(alloc, 4096, List::new(alloc), List::new(alloc)) {
        Ok(sink) => Ok(Served { source, sink }),
        Err(memory) => {
            drop(source);
            Err(memory)
        }
    }
}

/// Whether the registry that a text is gives this output to this input.
fn is_answered(alloc: Global, text: &[u8], input: &[u8], output: &[u8]) -> bool {
    let Ok(registry) = Registry::read(alloc, text) else {
        return false;
    };
    let right = is_served(alloc, &registry, input, output);
    drop(registry);
    right
}

fn is_served(alloc: Global, registry: &Registry, input: &[u8], output: &[u8]) -> bool {
    let Ok(mut ends) = ends_of(alloc, input) else {
        return false;
    };
    let mut answerer = registry;
    let stop = serve_alone(alloc, &mut ends.source, &mut ends.sink, &mut answerer);
    let right = stop == Stop::End && ends.sink.bytes() == output;
    drop(ends);
    right
}

fn are_answered<'x>(alloc: Global, rows: &'x [(&'x [u8], &'x [u8], &'x [u8])]) -> bool {
    for (text, input, output) in rows {
        if !is_answered(alloc, text, input, output) {
            return false;
        }
    }
    true
}

#[test]
fn a_registry_answers(rt: HostRuntime) {
    assert!(rt; are_answered(rt.alloc(), &ANSWERED));
}

/// Calls for a description, each with the description.
const DESCRIBED: [(&[u8], &str); 2] = [
    (
        b"{\"method\":\"org.varlink.service.GetInterfaceDescription\",\
\"parameters\":{\"interface\":\"org.varlink.service\"}}",
        SERVICE_TEXT,
    ),
    (
        b"{\"method\":\"org.varlink.service.GetInterfaceDescription\",\
\"parameters\":{\"interface\":\"org.varlink.resolver\"}}",
        RESOLVER_TEXT,
    ),
];

/// Whether the one reply holds the description.
fn describes(outcome: &Outcome, wanted: &str) -> bool {
    for reply in outcome.replies.as_slice() {
        match reply.parameters.inner().get("description") {
            Some(text) if text.as_str() == Some(wanted) => {}
            _ => return false,
        }
    }
    outcome.replies.len() == 1
}

fn is_described(alloc: Global, registry: &Registry, payload: &[u8], wanted: &str) -> bool {
    let Ok(call) = read_call(alloc, payload) else {
        return false;
    };
    let outcome = registry.answer(alloc, &call);
    drop(call);
    match outcome {
        Ok(outcome) => {
            let right = describes(&outcome, wanted);
            drop(outcome);
            right
        }
        Err(Memory) => false,
    }
}

fn are_described<'x>(alloc: Global, rows: &'x [(&'x [u8], &'x str)]) -> bool {
    let Ok(registry) = Registry::read(alloc, ONE) else {
        return false;
    };
    let mut right = true;
    for (payload, wanted) in rows {
        right = right && is_described(alloc, &registry, payload, wanted);
    }
    drop(registry);
    right
}

#[test]
fn a_registry_describes_its_own_interfaces(rt: HostRuntime) {
    assert!(rt; are_described(rt.alloc(), &DESCRIBED));
}

/// The address of an interface, and none of one that is not registered.
fn has_addresses(alloc: Global) -> bool {
    let Ok(registry) = Registry::read(alloc, TWO) else {
        return false;
    };
    let found = matches!(registry.address("c.d"), Some(Address::Tcp { port: 5, .. }));
    let right = found && registry.address("c").is_none();
    drop(registry);
    right
}

#[test]
fn addresses_are_found_by_names(rt: HostRuntime) {
    assert!(rt; has_addresses(rt.alloc()));
}

/// Where a call goes.
#[derive(Clone, Copy)]
enum To {
    Resolver,
    Interface,
    Nowhere,
}

/// Calls, each with where it goes.
const TARGETS: [(&[u8], To, &str); 8] = [
    (b"{\"method\":\"Ping\"}", To::Nowhere, "Ping"),
    (
        b"{\"method\":\"org.varlink.service.GetInfo\"}",
        To::Resolver,
        "",
    ),
    (
        b"{\"method\":\"org.varlink.resolver.Ping\"}",
        To::Resolver,
        "",
    ),
    (
        b"{\"method\":\"org.varlink.service.GetInterfaceDescription\",\
\"parameters\":{\"interface\":\"a.b\"}}",
        To::Interface,
        "a.b",
    ),
    (
        b"{\"method\":\"org.varlink.service.GetInterfaceDescription\",\"parameters\":{}}",
        To::Resolver,
        "",
    ),
    (
        b"{\"method\":\"org.varlink.service.GetInterfaceDescription\",\
\"parameters\":{\"interface\":\"org.varlink.service\"}}",
        To::Resolver,
        "",
    ),
    (b"{\"method\":\"a.b.C\"}", To::Interface, "a.b"),
    (b"{\"method\":\".\"}", To::Interface, ""),
];

fn is_goal(goal: Goal, to: To, name: &str) -> bool {
    match (goal, to) {
        (Goal::Resolver, To::Resolver) => true,
        (Goal::Interface(found), To::Interface) => found.as_str() == name,
        (Goal::Nowhere(found), To::Nowhere) => found.as_str() == name,
        other => {
            drop(other.0);
            false
        }
    }
}

fn goes(alloc: Global, call: Call, to: To, name: &str) -> bool {
    match target(alloc, &call) {
        Ok(goal) => is_goal(goal, to, name),
        Err(Memory) => false,
    }
}

fn are_targets<'x>(alloc: Global, rows: &'x [(&'x [u8], To, &'x str)]) -> bool {
    for (payload, to, name) in rows {
        let Ok(call) = read_call(alloc, payload) else {
            return false;
        };
        if !goes(alloc, call, *to, name) {
            return false;
        }
    }
    true
}

#[test]
fn calls_go_to_the_resolver_or_to_interfaces(rt: HostRuntime) {
    assert!(rt; are_targets(rt.alloc(), &TARGETS));
}
