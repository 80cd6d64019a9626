// The top call of the commands that need no network.
ghost use Rattle.std.specs.Prelude.{◌≡◌, ◌≢◌, [], false, Some, None, Err};
ghost use Rattle.link_port.specs.Flow.{IsAsBefore};
ghost use Rattle.varlink_command.specs.Comparing.{ComparesFiles};
ghost use Rattle.varlink_command.specs.Definitions.{ShowsDefinition};
ghost use Rattle.varlink_command.specs.Ends.{AreOpen, KeepsOthers};
ghost use Rattle.varlink_command.specs.Offline.{Concludes, Ran, Runs, path_told as told_path};
ghost use Rattle.varlink_command.specs.Sheets.{CountsSheet};
ghost use Rattle.varlink_command.specs.Words.{command, path_of as path_word, second_path_of as second_path_word};

use crate::comparing::{read_both, show_verdict};
use crate::fault_lines::write_fault_line;
use crate::faults::{Fault, Which};
use crate::pieces::show_fixed;
use crate::reading::{read_definition, read_sheet};
use crate::serving::{session, sheet_session};
use crate::sheets::show_counts;
use crate::showing::{Showing, show};
use crate::words::{Command, command_of, path_of, second_path_of};
use crate::working::tell_work;
use crate::worlds::{Desktop, Status, World};
use link_port::{Files, Sink, Source, Text};
use std::alloc::Global;

/// The words of the commands, one a line.
const HELP: &str =
    "check\nformat\nsheet\nsession\nwork\nhelp\nserve\nresolver\ncall\nresolve\ncompat\n";

/// Runs the command that these words mean, and gives the status to end with.
///
/// `session` serves the calls that come from the input by the service without a sheet, and writes the replies
/// to the output; `session PATH` by the service of the sheet in that file, from the registers that it begins with.
/// `check PATH` prints `ok` and the name of the definition in that file, and `format PATH` its
/// canonical text. `sheet PATH` tells how many interfaces, registers and rules the sheet in that file has.
/// `compat OLD NEW` prints `compatible` where the definition in the file NEW can take the place of the one in
/// the file OLD, and else tells the first difference, status 10; both files are read before what they hold is.
/// `work N` serves a call of each of N methods, N from 1 to 10,000 without a sign or a leading zero, by the sheet
/// that has them, and prints the lengths of its definition, of the calls and of the replies, and the total.
/// `help` prints the words of the commands, those of the network too.
/// All other words are bad words, status 1. A fault is told by a line in the sink of
/// faults; that the line cannot be written changes nothing. The call always returns, and takes at most
/// 2^40 bytes.
pub fn offline<S: Source, O: Sink, E: Sink, F: Files>(
    alloc: Global,
    words: &[Text],
    world: &mut Desktop<S, O, E, F>,
) -> Status
    requires { AreOpen (⟦<Desktop<S, O, E, F> as World>⟧.ends world.old) }
    // each command, in a line of its own: `Ran`
    ensures runs { Runs words.now (⟦<Desktop<S, O, E, F> as World>⟧.ends world.old)
        (⟦<Desktop<S, O, E, F> as World>⟧.ends world.new) result.0 }
    // what files hold, and the sides that no command uses, stay as they were
    ensures kept { KeepsOthers (⟦<Desktop<S, O, E, F> as World>⟧.ends world.old)
        (⟦<Desktop<S, O, E, F> as World>⟧.ends world.new) }
    ensures open { AreOpen (⟦<Desktop<S, O, E, F> as World>⟧.ends world.new) }
    // what a command does not use is not touched
    ensures input { command words.now ≢ Some Command.Session → command words.now ≢ Some Command.SheetSession
        → world.new.input ≡ world.old.input }
    ensures files { command words.now ≡ Some Command.Session → world.new.files ≡ world.old.files }
    ensures refused { command words.now ≡ None
        → world.new ≡ record world.old { faults = world.new.faults } }
{
    let outcome = run(alloc, words, world);
    let path = path_told(words, &outcome);
    conclude(&mut world.faults, path, outcome)
}

// The path of the file that failed, where one did.
fn path_told<'a>(words: &'a [Text], outcome: &Result<(), Fault>) -> &'a str
    ensures { result.now ≡ told_path words.now outcome.now }
{
    match outcome {
        Err(Fault::Unreadable(Which::Second) | Fault::PastLimit(Which::Second)) => {
            second_path_of(words)
        }
        _ => path_of(words),
    }
}

// Does what the words mean, but for telling a fault.
fn run<S: Source, O: Sink, E: Sink, F: Files>(
    alloc: Global,
    words: &[Text],
    world: &mut Desktop<S, O, E, F>,
) -> Result<(), Fault>
    requires { AreOpen (⟦<Desktop<S, O, E, F> as World>⟧.ends world.old) }
    ensures ran { Ran (command words.now) (path_word words.now) (second_path_word words.now)
        (⟦<Desktop<S, O, E, F> as World>⟧.ends world.old)
        (⟦<Desktop<S, O, E, F> as World>⟧.ends world.new) result }
    ensures kept { KeepsOthers (⟦<Desktop<S, O, E, F> as World>⟧.ends world.old)
        (⟦<Desktop<S, O, E, F> as World>⟧.ends world.new) }
    ensures open { AreOpen (⟦<Desktop<S, O, E, F> as World>⟧.ends world.new) }
    ensures faults { world.new.faults ≡ world.old.faults }
    ensures input { command words.now ≢ Some Command.Session → command words.now ≢ Some Command.SheetSession
        → world.new.input ≡ world.old.input }
    ensures files { command words.now ≡ Some Command.Session → world.new.files ≡ world.old.files }
    ensures refused { command words.now ≡ None → world.new ≡ world.old }
{
    match command_of(words) {
        Some(Command::Session) => session(alloc, world),
        Some(Command::SheetSession) => sheet_session(alloc, path_of(words), world),
        Some(Command::Check) => definition(alloc, Showing::Name, path_of(words), world),
        Some(Command::Format) => definition(alloc, Showing::Text, path_of(words), world),
        Some(Command::Sheet) => sheet(alloc, path_of(words), world),
        Some(Command::Work(methods)) => tell_work(alloc, methods, world),
        Some(Command::Help) => show_fixed(HELP, &mut world.output),
        Some(Command::Compat) => compat(alloc, path_of(words), second_path_of(words), world),
        None => Err(Fault::BadWords),
    }
}

// Reads the definition at this path, and shows it.
fn definition<S: Source, O: Sink, E: Sink, F: Files>(
    alloc: Global,
    showing: Showing,
    path: &str,
    world: &mut Desktop<S, O, E, F>,
) -> Result<(), Fault>
    requires { AreOpen (⟦<Desktop<S, O, E, F> as World>⟧.ends world.old) }
    ensures shows { ShowsDefinition showing path.now
        (⟦<Desktop<S, O, E, F> as World>⟧.ends world.old)
        (⟦<Desktop<S, O, E, F> as World>⟧.ends world.new) result }
    ensures kept { KeepsOthers (⟦<Desktop<S, O, E, F> as World>⟧.ends world.old)
        (⟦<Desktop<S, O, E, F> as World>⟧.ends world.new) }
    ensures open { AreOpen (⟦<Desktop<S, O, E, F> as World>⟧.ends world.new) }
    ensures faults { world.new.faults ≡ world.old.faults }
    ensures input { world.new.input ≡ world.old.input }
{
    match read_definition(alloc, &mut world.files, path) {
        Ok(tree) => show(alloc, showing, &tree, &mut world.output),
        Err(fault) => Err(fault),
    }
}

// Reads the sheet at this path, and counts what it has.
fn sheet<S: Source, O: Sink, E: Sink, F: Files>(
    alloc: Global,
    path: &str,
    world: &mut Desktop<S, O, E, F>,
) -> Result<(), Fault>
    requires { AreOpen (⟦<Desktop<S, O, E, F> as World>⟧.ends world.old) }
    ensures counts { CountsSheet path.now (⟦<Desktop<S, O, E, F> as World>⟧.ends world.old)
        (⟦<Desktop<S, O, E, F> as World>⟧.ends world.new) result }
    ensures kept { KeepsOthers (⟦<Desktop<S, O, E, F> as World>⟧.ends world.old)
        (⟦<Desktop<S, O, E, F> as World>⟧.ends world.new) }
    ensures open { AreOpen (⟦<Desktop<S, O, E, F> as World>⟧.ends world.new) }
    ensures faults { world.new.faults ≡ world.old.faults }
    ensures input { world.new.input ≡ world.old.input }
{
    match read_sheet(alloc, &mut world.files, path) {
        Ok(sheet) => {
            let shown = show_counts(&sheet, &mut world.output);
            drop(sheet);
            shown
        }
        Err(fault) => Err(fault),
    }
}

// Reads the definitions at these two paths, and tells whether the new one can take the old one's place.
fn compat<S: Source, O: Sink, E: Sink, F: Files>(
    alloc: Global,
    old: &str,
    new: &str,
    world: &mut Desktop<S, O, E, F>,
) -> Result<(), Fault>
    requires { AreOpen (⟦<Desktop<S, O, E, F> as World>⟧.ends world.old) }
    ensures compares { ComparesFiles old.now new.now (⟦<Desktop<S, O, E, F> as World>⟧.ends world.old)
        (⟦<Desktop<S, O, E, F> as World>⟧.ends world.new) result }
    ensures kept { KeepsOthers (⟦<Desktop<S, O, E, F> as World>⟧.ends world.old)
        (⟦<Desktop<S, O, E, F> as World>⟧.ends world.new) }
    ensures open { AreOpen (⟦<Desktop<S, O, E, F> as World>⟧.ends world.new) }
    ensures faults { world.new.faults ≡ world.old.faults }
    ensures input { world.new.input ≡ world.old.input }
{
    match read_both(alloc, &mut world.files, old, new) {
        Ok((old, new)) => {
            let shown = show_verdict(alloc, &old, &new, &mut world.output);
            drop((old, new));
            shown
        }
        Err(fault) => Err(fault),
    }
}

/// Tells a fault that came before a command could be known, and gives its status. Nothing but the sink
/// of faults changes.
pub fn refuse<S, O, E: Sink, F>(world: &mut Desktop<S, O, E, F>, fault: Fault) -> Status
    requires { E.finished world.old.faults ≡ false }
    ensures told { Concludes [] (Err fault)
        (record {
          left = E.left world.old.faults;
          read_faults = E.read_faults world.old.faults;
          written = E.written world.old.faults;
          write_faults = E.write_faults world.old.faults;
          finished = E.finished world.old.faults;
        })
        (record {
          left = E.left world.new.faults;
          read_faults = E.read_faults world.new.faults;
          written = E.written world.new.faults;
          write_faults = E.write_faults world.new.faults;
          finished = E.finished world.new.faults;
        })
        result.0 }
    ensures rest { world.new ≡ record world.old { faults = world.new.faults } }
{
    conclude(&mut world.faults, "", Err(fault))
}

// Tells the fault that a command on this path came to, if it is one, and gives the status. That the line
// cannot be written changes nothing.
fn conclude<E: Sink>(faults: &mut E, path: &str, outcome: Result<(), Fault>) -> Status
    requires { E.finished faults.old ≡ false }
    ensures told { Concludes path.now outcome
        (record {
          left = E.left faults.old;
          read_faults = E.read_faults faults.old;
          written = E.written faults.old;
          write_faults = E.write_faults faults.old;
          finished = E.finished faults.old;
        })
        (record {
          left = E.left faults.new;
          read_faults = E.read_faults faults.new;
          written = E.written faults.new;
          write_faults = E.write_faults faults.new;
          finished = E.finished faults.new;
        })
        result.0 }
    ensures other { IsAsBefore (E.left faults.old) (E.left faults.new)
        (E.read_faults faults.old) (E.read_faults faults.new) }
    ensures unfinished { E.finished faults.new ≡ false }
{
    match outcome {
        Ok(()) => Status(0),
        Err(fault) => {
            let _ = write_fault_line(faults, path, &fault);
            fault.status()
        }
    }
}
