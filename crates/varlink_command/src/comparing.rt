// Two definitions are read from files and compared.
ghost use Rattle.std.specs.Prelude.{◌≡◌, ℕ, List, false};
ghost use Rattle.link_port.specs.Flow.{IsAsBefore};
ghost use Rattle.varlink_command.specs.Comparing.{AsksBoth, ReadTexts, ReadsBoth, ShowsVerdict, IsLine};
ghost use Rattle.varlink_command.specs.Definitions.{FilesFault};

use crate::faults::{Fault, Which};
use crate::pieces::show_fixed;
use crate::reading::{DEFINITION_LIMIT, definition_of, read_file};
use idl_compat::{Verdict, compare, line};
use idl_tree::Checked;
use link_port::{Files, Memory, Sink};
use std::alloc::Global;

/// Reads the definitions that the files at these paths hold: the old one's file before the new one's, and
/// both files before what they hold.
pub fn read_both<F: Files>(
    alloc: Global,
    files: &mut F,
    old: &str,
    new: &str,
) -> Result<(Checked, Checked), Fault>
    ensures reads { ReadsBoth (F.holds files.old old.now) (F.holds files.old new.now) result }
    ensures counted { FilesFault (F.faults files.old) (F.faults files.new) result }
    ensures asked { AsksBoth (F.paths files.old) (F.paths files.new) old.now new.now }
    ensures kept { (name : List ℕ) → F.holds files.new name ≡ F.holds files.old name }
{
    let first = match read_file(alloc, files, Which::First, old, DEFINITION_LIMIT) {
        Ok(text) => text,
        Err(fault) => return Err(fault),
    };
    let second = match read_file(alloc, files, Which::Second, new, DEFINITION_LIMIT) {
        Ok(text) => text,
        Err(fault) => {
            drop(first);
            return Err(fault);
        }
    };
    definitions(alloc, first.as_slice(), second.as_slice())
}

// Reads two texts as definitions, the second where the first is one.
fn definitions(alloc: Global, old: &[u8], new: &[u8]) -> Result<(Checked, Checked), Fault>
    ensures { ReadTexts old.now new.now result }
{
    let first = match definition_of(alloc, old) {
        Ok(tree) => tree,
        Err(fault) => return Err(fault),
    };
    match definition_of(alloc, new) {
        Ok(second) => Ok((first, second)),
        Err(fault) => {
            drop(first);
            Err(fault)
        }
    }
}

/// Shows that the new definition can take the old one's place; where it can't, this is the fault.
pub fn show_verdict<O: Sink>(
    alloc: Global,
    old: &Checked,
    new: &Checked,
    output: &mut O,
) -> Result<(), Fault>
    requires { O.finished output.old ≡ false }
    ensures shows { ShowsVerdict old.now new.now (O.written output.old) (O.written output.new)
        (O.write_faults output.old) (O.write_faults output.new) result }
    ensures other { IsAsBefore (O.left output.old) (O.left output.new)
        (O.read_faults output.old) (O.read_faults output.new) }
    ensures unfinished { O.finished output.new ≡ false }
{
    match compare(alloc, old, new) {
        Ok(Verdict::Compatible) => show_fixed("compatible\n", output),
        Ok(verdict) => Err(incompatible(alloc, verdict)),
        Err(Memory) => Err(Fault::Memory),
    }
}

// The fault of a definition that can't take another's place.
fn incompatible(alloc: Global, verdict: Verdict) -> Fault
    ensures { IsLine verdict result }
{
    let told = line(alloc, &verdict);
    drop(verdict);
    match told {
        Ok(text) => Fault::Incompatible(text),
        Err(Memory) => Fault::Memory,
    }
}
