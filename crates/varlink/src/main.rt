//! The program `varlink`: Varlink services and callers on the command line.
#![tactic(auto)]

use link_doors::OpenGate;
use link_port::Text;
use network_command::{Network, online};
use network_words::is_network;
use socket_edges::{RealBinder, RealReach};
use std::env;
use std::io::ErrorKind;
use std::process::ExitCode;
use varlink_command::{Desktop, Fault, RealFiles, RealInput, RealOutput, Status, offline, refuse};

fn main(rt: HostRuntime) -> ExitCode {
    let mut net = Network {
        desktop: Desktop {
            input: RealInput::new(rt.stdin()),
            output: RealOutput::new(rt.stdout()),
            faults: RealOutput::new(rt.stderr()),
            files: RealFiles::new(rt),
        },
        reach: RealReach::new(rt.alloc(), rt),
        binder: RealBinder::new(rt),
        gate: OpenGate::new(),
    };
    let Status(status) = match words(rt) {
        Ok(words) if is_network(&words) => online(&rt, rt.alloc(), &words, &mut net),
        Ok(words) => offline(rt.alloc(), &words, &mut net.desktop),
        Err(fault) => refuse(&mut net.desktop, fault),
    };
    ExitCode::from(status)
}

/// The words behind the program's name. Words that are no text are bad words.
fn words(rt: HostRuntime) -> Result<Vec<Text>, Fault> {
    let arguments = match env::args(&rt) {
        Ok(arguments) => arguments,
        Err(error) if error.kind() == ErrorKind::OutOfMemory => return Err(Fault::Memory),
        Err(_) => return Err(Fault::BadWords),
    };
    let mut words = Vec::new(rt.alloc());
    for argument in arguments.skip(1) {
        let word = Text::of(rt.alloc(), argument.as_str()).map_err(|_| Fault::Memory)?;
        words.push(word).map_err(|_| Fault::Memory)?;
    }
    Ok(words)
}
