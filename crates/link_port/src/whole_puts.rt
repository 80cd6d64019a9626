// A piece is put whole.
ghost use Rattle.std.specs.Prelude.{◌≡◌, ◌<◌, false, IfErr, OnOk, OnErr, length, take};
ghost use Rattle.std.specs.Io.KnownBytes.{Appends};
ghost use Rattle.link_port.specs.Faults.{Rises};
ghost use Rattle.link_port.specs.Flow.{IsAsBefore};

use crate::refusals::Short;
use crate::streams::Sink;

/// Appends the whole piece, in as many puts as the sink needs. It takes no memory.
///
/// It is `Short` only where a put failed: then the first `written` bytes were appended, which are
/// not all.
pub fn put_all<K: Sink>(sink: &mut K, piece: &[u8]) -> Result<(), Short>
    requires { K.finished sink.old ≡ false }
    ensures ok { OnOk result (Appends (K.written sink.old) (K.written sink.new) piece.now) }
    ensures sound { OnOk result (K.write_faults sink.new ≡ K.write_faults sink.old) }

    ensures part { IfErr result (λ short. short.written < length piece.now) }
    ensures short { IfErr result (λ short.
        Appends (K.written sink.old) (K.written sink.new) (take short.written piece.now)) }
    ensures fault { OnErr result (Rises (K.write_faults sink.old) (K.write_faults sink.new)) }

    ensures other { IsAsBefore (K.left sink.old) (K.left sink.new)
        (K.read_faults sink.old) (K.read_faults sink.new) }
    ensures unfinished { K.finished sink.new ≡ false }
{
    let mut done = 0;
    while done < piece.len() {
        match sink.put(&piece[done..]) {
            Ok(count) => done += count,
            Err(_) => {
                return Err(Short {
                    written: done as u64,
                });
            }
        }
    }
    Ok(())
}
