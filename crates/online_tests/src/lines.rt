// The line of each fault.
use crate::rows::{is_line, sink};
use link_port::{Memory, Text};
use network_command::{NetworkFault, write_network_line};
use std::alloc::Global;
use varlink_command::Status;

// The fault of a number, beside its status and its text.
fn told(alloc: Global, number: u64) -> Result<(NetworkFault, u8, &'static str), Memory> {
    let index = 4_294_967_296;
    Ok(match number {
        0 => (NetworkFault::BadWords, 1, "bad words"),
        1 => (
            NetworkFault::NotReply { index },
            3,
            "reply 4294967296 is no reply",
        ),
        2 => (
            NetworkFault::Continues { index },
            3,
            "reply 4294967296 continues",
        ),
        3 => (
            NetworkFault::Ended { index },
            3,
            "ended before reply 4294967296",
        ),
        4 => (
            NetworkFault::TooLong { index },
            3,
            "reply 4294967296 is too long",
        ),
        5 => (NetworkFault::NoDescription, 3, "no description"),
        6 => (NetworkFault::BadResolver, 3, "bad resolver"),
        7 => (NetworkFault::LinkFault, 5, "link fault"),
        8 => (NetworkFault::WriteFault, 6, "write fault"),
        9 => (NetworkFault::Memory, 7, "out of memory"),
        10 => (NetworkFault::Long, 8, "too many bytes"),
        _ => return named(alloc, number),
    })
}

// The same of the faults that hold a name.
fn named(alloc: Global, number: u64) -> Result<(NetworkFault, u8, &'static str), Memory> {
    let name = Text::of(alloc, "a.b")?;
    Ok(match number {
        11 => (NetworkFault::ErrorReply { name }, 4, "error a.b"),
        12 => (
            NetworkFault::NoAddress { interface: name },
            9,
            "no address of a.b",
        ),
        _ => (
            NetworkFault::IllTyped {
                index: 7,
                field: name,
            },
            3,
            "reply 7 is ill typed at a.b",
        ),
    })
}

// Whether the fault of a number has its status and its line.
fn is_told(alloc: Global, number: u64) -> Result<bool, Memory> {
    let mut faults = sink(alloc, &[])?;
    match told(alloc, number) {
        Ok((fault, status, line)) => {
            let right = write_network_line(&mut faults, &fault).is_ok()
                && fault.status() == Status(status)
                && is_line(faults.bytes(), line);
            drop((fault, faults));
            Ok(right)
        }
        Err(memory) => {
            drop(faults);
            Err(memory)
        }
    }
}

#[test]
fn each_fault_has_its_line(rt: HostRuntime) {
    for number in 0..14 {
        assert!(rt; is_told(rt.alloc(), number) == Ok(true));
    }
}
