// Texts that are put one after the other.
ghost use Rattle.std.specs.Prelude.{◌≡◌, false};
ghost use Rattle.link_port.specs.Flow.{IsAsBefore};
ghost use Rattle.varlink_command.specs.FixedTexts.{IsShown};
ghost use Rattle.varlink_command.specs.Lines.{joined, PutsAll};

use crate::faults::Fault;
use link_port::{Failed, Sink, put_all};

/// Appends these texts in order. It takes no memory.
///
/// Where the sink fails, a front of them was appended.
pub fn put_texts<K: Sink>(sink: &mut K, texts: &[&str]) -> Result<(), Failed>
    requires { K.finished sink.old ≡ false }
    ensures all { PutsAll (K.written sink.old) (K.written sink.new)
        (K.write_faults sink.old) (K.write_faults sink.new) result (joined texts.now) }
    ensures other { IsAsBefore (K.left sink.old) (K.left sink.new)
        (K.read_faults sink.old) (K.read_faults sink.new) }
    ensures unfinished { K.finished sink.new ≡ false }
{
    for text in texts {
        match put_all(sink, text.as_bytes()) {
            Ok(()) => {}
            Err(_) => return Err(Failed),
        }
    }
    Ok(())
}

/// Shows a text that is the same at each run. It takes no memory.
pub fn show_fixed<O: Sink>(text: &str, output: &mut O) -> Result<(), Fault>
    requires { O.finished output.old ≡ false }
    ensures shows { IsShown text.now (O.written output.old) (O.written output.new)
        (O.write_faults output.old) (O.write_faults output.new) result }
    ensures other { IsAsBefore (O.left output.old) (O.left output.new)
        (O.read_faults output.old) (O.read_faults output.new) }
    ensures unfinished { O.finished output.new ≡ false }
{
    match put_texts(output, &[text]) {
        Ok(()) => Ok(()),
        Err(Failed) => Err(Fault::WriteFault),
    }
}
