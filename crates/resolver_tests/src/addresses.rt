// Texts that are addresses, and texts that are none.
use link_doors::{Address, AddressFault};
use link_port::Text;
use std::alloc::Global;

/// Texts, each with the text of the address that it is; the empty text where it is none.
const ROWS: [(&str, &str); 22] = [
    (
        "unix:/run/org.example.count;mode=0666",
        "unix:/run/org.example.count",
    ),
    ("unix:/run/a;b;c", "unix:/run/a"),
    ("unix:a:b", "unix:a:b"),
    ("tcp:127.0.0.1:12345", "tcp:127.0.0.1:12345"),
    ("tcp:0.0.0.0:1;x", "tcp:0.0.0.0:1"),
    ("tcp:255.255.255.255:65535", "tcp:255.255.255.255:65535"),
    ("unix:", ""),
    ("unix:;a", ""),
    ("unix:@a", ""),
    ("unix:a\0b", ""),
    ("tcp:127.0.0.01:1", ""),
    ("tcp:127.0.0.256:1", ""),
    ("tcp:127.0.0:1", ""),
    ("tcp:127.0.0.1", ""),
    ("tcp:127.0.0.1:", ""),
    ("tcp:127.0.0.1:0", ""),
    ("tcp:127.0.0.1:01", ""),
    ("tcp:127.0.0.1:+1", ""),
    ("tcp:127.0.0.1:65536", ""),
    ("tcp:localhost:1", ""),
    ("device:/dev/a", ""),
    ("", ""),
];

/// Whether the text is read as the address of that text, or as none.
fn is_right(alloc: Global, text: &str, wanted: &str) -> bool {
    match Address::read(alloc, text) {
        Ok(address) => {
            let shown = address.text(alloc);
            drop(address);
            is_text(shown.ok(), wanted)
        }
        Err(fault) => fault == AddressFault::BadAddress && wanted.is_empty(),
    }
}

fn is_text(text: Option<Text>, wanted: &str) -> bool {
    match text {
        Some(text) => text.as_str() == wanted,
        None => false,
    }
}

fn are_right<'x>(alloc: Global, rows: &'x [(&'x str, &'x str)]) -> bool {
    for (text, wanted) in rows {
        if !is_right(alloc, text, wanted) {
            return false;
        }
    }
    true
}

#[test]
fn texts_are_read_as_addresses(rt: HostRuntime) {
    assert!(rt; are_right(rt.alloc(), &ROWS));
}
