// Lists of words, each with what it means.
use call_form::Call;
use link_doors::Address;
use link_port::{List, Memory, Text, Value};
use network_words::{Network, Serving, Target, Way, is_network, network_of};
use std::alloc::Global;

// The words of a line, between spaces.
fn words_of(alloc: Global, line: &str) -> Result<List<Text>, Memory> {
    let mut words = List::new(alloc);
    for word in line.split(' ') {
        words.push(Text::of(alloc, word)?)?;
    }
    Ok(words)
}

// What the words of a line mean, in words of its own.
fn meaning(alloc: Global, line: &str) -> Result<String, Memory> {
    let words = words_of(alloc, line)?;
    let found = network_of(alloc, words.as_slice());
    drop(words);
    match found? {
        Some(command) => told(alloc, command),
        None => Ok(String::from_str(alloc, "none")?),
    }
}

fn told(alloc: Global, command: Network) -> Result<String, Memory> {
    match command {
        Network::Serve { serving, forgets } => {
            told_serving(
                alloc,
                if forgets { "serve and forget" } else { "serve" },
                serving,
            )
        }
        Network::Resolver(serving) => told_serving(alloc, "resolver", serving),
        Network::Call { way, call, typed } => told_call(alloc, way, call, typed),
        Network::Resolve {
            resolver,
            interface,
        } => {
            let address = shown(alloc, resolver)?;
            Ok(format!(in alloc; "resolve {} by {}", interface.as_str(), address.as_str())?)
        }
        Network::Bridge(Target::At(to)) => {
            let address = shown(alloc, to)?;
            Ok(format!(in alloc; "bridge to {}", address.as_str())?)
        }
        Network::Bridge(Target::Resolver(resolver)) => {
            let address = shown(alloc, resolver)?;
            Ok(format!(in alloc; "bridge by {}", address.as_str())?)
        }
    }
}

fn shown(alloc: Global, address: Address) -> Result<Text, Memory> {
    let text = address.text(alloc);
    drop(address);
    text
}

fn told_serving(alloc: Global, what: &str, serving: Serving) -> Result<String, Memory> {
    let Serving {
        address,
        path,
        workers,
        connections,
    } = serving;
    let address = shown(alloc, address)?;
    let most = connections.unwrap_or(0);
    Ok(format!(in alloc;
        "{what} {} at {}, {workers} workers, {most} connections",
        path.as_str(),
        address.as_str()
    )?)
}

fn told_call(alloc: Global, way: Way, call: Call, typed: bool) -> Result<String, Memory> {
    let way = told_way(alloc, way)?;
    let Call {
        method,
        parameters,
        oneway,
        more,
        upgrade,
    } = call;
    let parameters = parameters.inner().to_string(alloc)?;
    Ok(format!(in alloc;
        "{} {} {} oneway {oneway} more {more} upgrade {upgrade} typed {typed}",
        way.as_str(),
        method.as_str(),
        parameters.as_str()
    )?)
}

fn told_way(alloc: Global, way: Way) -> Result<String, Memory> {
    match way {
        Way::At(address) => {
            let address = shown(alloc, address)?;
            Ok(format!(in alloc; "at {}", address.as_str())?)
        }
        Way::Resolver(resolver) => {
            let address = shown(alloc, resolver)?;
            Ok(format!(in alloc; "by {}", address.as_str())?)
        }
        Way::Child { program, resolver } => {
            let address = shown(alloc, resolver)?;
            Ok(format!(in alloc; "over {} by {}", program.as_str(), address.as_str())?)
        }
    }
}

// Whether the words of a line mean this.
fn means(alloc: Global, line: &str, want: &str) -> bool {
    match meaning(alloc, line) {
        Ok(told) => {
            let right = told.as_str() == want;
            drop(told);
            right
        }
        Err(_) => false,
    }
}

#[test]
fn words_mean_commands(rt: HostRuntime) {
    let rows: [(&str, &str); 18] = [
        (
            "serve unix:a s.json",
            "serve s.json at unix:a, 4 workers, 0 connections",
        ),
        (
            "serve --workers 64 unix:a --connections 4294967296 s.json",
            "serve s.json at unix:a, 64 workers, 4294967296 connections",
        ),
        (
            "serve unix:a s.json --forget --workers 1",
            "serve and forget s.json at unix:a, 1 workers, 0 connections",
        ),
        (
            "serve unix:a;x=1 -",
            "serve - at unix:a, 4 workers, 0 connections",
        ),
        (
            "resolver tcp:127.0.0.1:12345 r.json",
            "resolver r.json at tcp:127.0.0.1:12345, 4 workers, 0 connections",
        ),
        (
            "resolver unix:r r.json --connections 1",
            "resolver r.json at unix:r, 4 workers, 1 connections",
        ),
        (
            "call --at unix:a a.b.C",
            "at unix:a a.b.C {} oneway false more false upgrade false typed false",
        ),
        (
            "call a.b.C --at unix:a {\"n\":1,\"m\":[]}",
            "at unix:a a.b.C {\"m\":[],\"n\":1} oneway false more false upgrade false typed false",
        ),
        (
            "call --more --typed a.b.C --oneway --resolver unix:r",
            "by unix:r a.b.C {} oneway true more true upgrade false typed true",
        ),
        (
            "call --child --x --resolver unix:r C",
            "over --x by unix:r C {} oneway false more false upgrade false typed false",
        ),
        (
            "call --at unix:a a.b.C {\"x\":-9223372036854775808}",
            "at unix:a a.b.C {\"x\":-9223372036854775808} oneway false more false upgrade false typed false",
        ),
        ("resolve --resolver unix:r a.b", "resolve a.b by unix:r"),
        (
            "resolve a.b --resolver tcp:127.0.0.1:1",
            "resolve a.b by tcp:127.0.0.1:1",
        ),
        ("resolve --resolver unix:r -", "resolve - by unix:r"),
        ("bridge --to unix:a", "bridge to unix:a"),
        ("bridge --resolver unix:r", "bridge by unix:r"),
        ("bridge --resolver unix:--to", "bridge by unix:--to"),
        (
            "call --at unix:--at a.b.C {}",
            "at unix:--at a.b.C {} oneway false more false upgrade false typed false",
        ),
    ];
    for (line, want) in rows {
        assert!(rt; means(rt.alloc(), line, want));
    }
}

#[test]
fn other_words_mean_nothing(rt: HostRuntime) {
    let rows: [&str; 44] = [
        "",
        "session",
        "Serve unix:a s.json",
        "serve",
        "serve unix:a",
        "serve unix:a s.json more",
        "serve a s.json",
        "serve unix: s.json",
        "serve unix:a s.json --workers",
        "serve unix:a s.json --workers 0",
        "serve unix:a s.json --workers 65",
        "serve unix:a s.json --workers 04",
        "serve unix:a s.json --workers +4",
        "serve unix:a s.json --workers 4.0",
        "serve unix:a s.json --workers -1",
        "serve unix:a s.json --workers 1 --workers 1",
        "serve unix:a s.json --connections 0",
        "serve unix:a s.json --connections 4294967297",
        "serve unix:a s.json --connections 18446744073709551617",
        "serve unix:a s.json --forget --forget",
        "serve unix:a s.json --at unix:a",
        "serve unix:a s.json --",
        "resolver unix:r r.json --forget",
        "resolver unix:r",
        "call",
        "call --at unix:a",
        "call a.b.C",
        "call --at unix:a --resolver unix:r a.b.C",
        "call --at unix:a --child p a.b.C",
        "call --child p a.b.C",
        "call --at a a.b.C",
        "call --at unix:a --at unix:a a.b.C",
        "call --at unix:a --more --more a.b.C",
        "call --at unix:a --upgrade a.b.C",
        "call --at unix:a a.b.C [1]",
        "call --at unix:a a.b.C {\"x\":1.5}",
        "call --at unix:a a.b.C {\"x\":9223372036854775808}",
        "call --at unix:a a.b.C {",
        "call --at unix:a a.b.C {} {}",
        "resolve a.b",
        "resolve --resolver unix:r",
        "resolve --resolver unix:r a.b c.d",
        "bridge",
        "bridge --to unix:a --resolver unix:r",
    ];
    for line in rows {
        assert!(rt; means(rt.alloc(), line, "none"));
    }
}

// Whether the first word of a line is that of a command that needs the network.
fn needs_network(alloc: Global, line: &str) -> bool {
    match words_of(alloc, line) {
        Ok(words) => {
            let needs = is_network(words.as_slice());
            drop(words);
            needs
        }
        Err(_) => false,
    }
}

#[test]
fn the_first_word_tells_the_program(rt: HostRuntime) {
    let rows: [(&str, bool); 8] = [
        ("serve", true),
        ("resolver x", true),
        ("call --x", true),
        ("resolve", true),
        ("bridge", true),
        ("check serve", false),
        ("", false),
        ("work 3", false),
    ];
    for (line, want) in rows {
        assert!(rt; needs_network(rt.alloc(), line) == want);
    }
}
