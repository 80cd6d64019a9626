// Programs that are linked to: what they are told, and that they are waited for.
ghost use Rattle.std.specs.Prelude.{◌≡◌};
ghost use Rattle.link_reach.specs.declared.deeds.LinkState.TheVariants.{Open};

use crate::places::Place;
use link_doors::Address;
use link_port::{Sink, Source, Text};
use link_reach::{LinkNo, Reach};
use socket_edges::RealReach;
use std::alloc::Global;
use std::fs::Permissions;
use std::os::unix::fs::PermissionsExt;
use std::rt::Files;
use std::{fs, io};

// A program that writes its words, and then what it reads.
const PROGRAM: &str = "#!/bin/sh\necho \"$@\"\nexec cat\n";

// A program that writes without end.
const ENDLESS: &str = "#!/bin/sh\nexec yes\n";

const WORDS: &[u8] = b"bridge --resolver unix:/a\n";

fn program_at<R: Files>(system: &R, path: &str, text: &str) -> io::Result<()> {
    fs::write(system, path, text)?;
    fs::set_permissions(system, path, Permissions::from_mode(0o755))
}

// Whether the words and then what is sent come back on a link, which is closed.
fn is_echoed<R: Reach>(alloc: Global, reach: &mut R, link: LinkNo) -> bool
    requires { R.state reach.old link.0 ≡ Open }
{
    let mut into = [0u8; 64];
    let words = reach.take(alloc, link, &mut into);
    let told = into.starts_with(WORDS);
    let sent = reach.send(alloc, link, b"call");
    let back = reach.take(alloc, link, &mut into);
    reach.close(link);
    told && (words, sent, back) == (Ok(26), Ok(4), Ok(4)) && into.starts_with(b"call")
}

// The same over two ends that are given back.
fn is_halved<R: Reach>(alloc: Global, reach: &mut R, link: LinkNo) -> bool
    requires { R.state reach.old link.0 ≡ Open }
{
    let Ok((mut up, mut down)) = reach.halves(alloc, link) else {
        return false;
    };
    let mut into = [0u8; 64];
    let words = down.take(&mut into);
    let put = up.put(b"call");
    let finished = up.finish();
    let back = down.take(&mut into);
    let right = into.starts_with(b"call");
    let ended = down.take(&mut into);
    reach.free(up, down);
    right && finished.is_ok() && (words, put, back, ended) == (Ok(26), Ok(4), Ok(4), Ok(0))
}

// Whether a program that writes without end is waited for once its link is closed.
fn is_stopped<R: Reach>(alloc: Global, reach: &mut R, link: LinkNo) -> bool
    requires { R.state reach.old link.0 ≡ Open }
{
    let mut into = [0u8; 64];
    let taken = reach.take(alloc, link, &mut into);
    reach.close(link);
    taken == Ok(64)
}

// Whether a program that writes without end is started, and waited for.
fn is_ended<R: Reach>(alloc: Global, reach: &mut R, program: &str, resolver: &Address) -> bool {
    match reach.dial_child(alloc, program, resolver) {
        Ok(link) => is_stopped(alloc, reach, link),
        Err(_) => false,
    }
}

// Whether a program is linked to in both ways.
fn is_bridged<R: Reach>(alloc: Global, reach: &mut R, program: &str, resolver: &Address) -> bool {
    let echoed = match reach.dial_child(alloc, program, resolver) {
        Ok(link) => is_echoed(alloc, reach, link),
        Err(_) => false,
    };
    let halved = match reach.dial_child(alloc, program, resolver) {
        Ok(link) => is_halved(alloc, reach, link),
        Err(_) => false,
    };
    echoed && halved
}

// Whether both programs are linked to, one after the other at one path.
fn are_linked<R: Files, L: Reach>(system: &R, alloc: Global, reach: &mut L, path: &str) -> bool {
    let Ok(text) = Text::of(alloc, "/a") else {
        return false;
    };
    let resolver = Address::Unix(text);
    program_at(system, path, PROGRAM).is_ok()
        && is_bridged(alloc, reach, path, &resolver)
        && program_at(system, path, ENDLESS).is_ok()
        && is_ended(alloc, reach, path, &resolver)
}

#[test]
fn a_program_is_told_the_resolver_and_linked_to(rt: HostRuntime) {
    let mut reach = RealReach::new(rt.alloc(), rt);
    let right = match Place::new(&rt, rt.alloc(), rt.process(), "program") {
        Ok(place) => {
            let path = place.path.as_str();
            let linked = are_linked(&rt, rt.alloc(), &mut reach, path);
            let removed = fs::remove_file(&rt, path).is_ok();
            place.remove(&rt) && linked && removed
        }
        Err(_) => false,
    };
    assert!(rt; right);
}
