// Bytes of any pieces, and the payloads that come out.
ghost use Rattle.std.specs.Prelude.{◌<◌};

use link_port::Memory;
use message_frame::{Frames, Next};

const STREAM: &[u8] = b"{\"a\":1}\0\0rest";

const PAYLOADS: [&[u8]; 2] = [b"{\"a\":1}", b""];

/// Whether the stream in pieces of this size gives these payloads, and leaves what stands behind
/// them.
fn is_cut(frames: &mut Frames, size: usize) -> bool
    requires { 0 < size }
{
    let mut given = 0usize;
    for piece in STREAM.chunks(size) {
        if frames.feed(piece) != piece.len() {
            return false;
        }
        for _ in 0..STREAM.len() {
            match frames.next() {
                Next::Payload(payload) => {
                    if PAYLOADS.get(given) != Some(&payload) {
                        return false;
                    }
                    given = given.saturating_add(1);
                }
                Next::TooLong | Next::NeedMore => break,
            }
        }
    }
    given == PAYLOADS.len() && frames.rest() == b"rest".as_slice()
}

/// The stream in small pieces of each size: the same payloads, also where a NUL stands alone in a
/// piece.
#[test]
fn gives_the_same_payloads_of_any_pieces(rt: HostRuntime) {
    for size in 1..=4 {
        let cut = match Frames::new(rt.alloc(), 8) {
            Ok(mut frames) => is_cut(&mut frames, size),
            Err(Memory) => false,
        };
        assert!(rt; cut, "pieces of {size}");
    }
}

/// Whether a payload of the limit is given, and one byte more is too long until it is dropped.
fn refuses(frames: &mut Frames) -> bool {
    let fed = frames.feed(b"ab") == 2 && frames.next() == Next::NeedMore;
    let given = frames.feed(b"\0cde") == 1 && frames.next() == Next::Payload(b"ab");
    let refused = frames.feed(b"cde\0") == 3 && frames.next() == Next::TooLong;
    let full = frames.feed(b"\0") == 0;
    frames.clear();
    fed && given && refused && full && frames.rest().is_empty() && frames.next() == Next::NeedMore
}

#[test]
fn refuses_past_the_limit(rt: HostRuntime) {
    let refused = match Frames::new(rt.alloc(), 2) {
        Ok(mut frames) => refuses(&mut frames),
        Err(Memory) => false,
    };
    assert!(rt; refused);
}
