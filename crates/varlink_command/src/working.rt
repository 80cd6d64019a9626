// The work of many methods, and what is shown of it.
ghost use Rattle.std.specs.Prelude.{◌≡◌, ◌≤◌, false};
ghost use Rattle.link_port.specs.Flow.{IsAsBefore};
ghost use Rattle.varlink_command.specs.Ends.{AreOpen, KeepsOthers};
ghost use Rattle.varlink_command.specs.FixedTexts.{IsShown};
ghost use Rattle.varlink_command.specs.Words.{most_methods};
ghost use Rattle.varlink_command.specs.Working.{TellsWork, figure_lines, fault_of as work_fault};

use crate::faults::Fault;
use crate::pieces::put_texts;
use crate::worlds::{Desktop, World};
use itoa::Buffer;
use link_port::{Failed, Files, Sink, Source};
use std::alloc::Global;
use work_sample::{Figures, WorkFault, work};

/// Serves a call of each of this many methods, and shows what that comes to.
pub fn tell_work<S: Source, O: Sink, E: Sink, F: Files>(
    alloc: Global,
    methods: u64,
    world: &mut Desktop<S, O, E, F>,
) -> Result<(), Fault>
    requires open { AreOpen (⟦<Desktop<S, O, E, F> as World>⟧.ends world.old) }
    requires most { methods ≤ most_methods }
    ensures tells { TellsWork methods (⟦<Desktop<S, O, E, F> as World>⟧.ends world.old)
        (⟦<Desktop<S, O, E, F> as World>⟧.ends world.new) result }
    ensures kept { KeepsOthers (⟦<Desktop<S, O, E, F> as World>⟧.ends world.old)
        (⟦<Desktop<S, O, E, F> as World>⟧.ends world.new) }
    ensures open { AreOpen (⟦<Desktop<S, O, E, F> as World>⟧.ends world.new) }
    ensures faults { world.new.faults ≡ world.old.faults }
    ensures input { world.new.input ≡ world.old.input }
    ensures files { world.new.files ≡ world.old.files }
{
    match work(alloc, methods) {
        Ok(figures) => show_figures(figures, &mut world.output),
        Err(why) => Err(fault_of(why)),
    }
}

// The fault of a work that was not done. That none but want of memory comes isn't shown: the clause `Works`
// of the work says when each does.
fn fault_of(why: WorkFault) -> Fault
    ensures { result ≡ work_fault why }
{
    match why {
        WorkFault::NoSheet(why) => Fault::NoSheet(why),
        WorkFault::NoDefinition | WorkFault::Stopped(_) | WorkFault::NoTotal => Fault::NoWork,
        WorkFault::Memory => Fault::Memory,
    }
}

// Shows the figures of a work, a line each. It takes no memory.
fn show_figures<O: Sink>(figures: Figures, output: &mut O) -> Result<(), Fault>
    requires { O.finished output.old ≡ false }
    ensures shows { IsShown (figure_lines figures) (O.written output.old) (O.written output.new)
        (O.write_faults output.old) (O.write_faults output.new) result }
    ensures other { IsAsBefore (O.left output.old) (O.left output.new)
        (O.read_faults output.old) (O.read_faults output.new) }
    ensures unfinished { O.finished output.new ≡ false }
{
    let Figures {
        definition,
        calls,
        replies,
        total,
    } = figures;
    show_lines(definition, calls, replies, total, output)
}

// Shows the lengths and the total.
fn show_lines<O: Sink>(
    definition: u64,
    calls: u64,
    replies: u64,
    total: i64,
    output: &mut O,
) -> Result<(), Fault>
    requires { O.finished output.old ≡ false }
    ensures shows { IsShown
        (figure_lines (record { definition = definition; calls = calls; replies = replies; total = total }))
        (O.written output.old) (O.written output.new) (O.write_faults output.old) (O.write_faults output.new) result }
    ensures other { IsAsBefore (O.left output.old) (O.left output.new)
        (O.read_faults output.old) (O.read_faults output.new) }
    ensures unfinished { O.finished output.new ≡ false }
{
    let mut definition_digits = Buffer::new();
    let mut calls_digits = Buffer::new();
    let mut replies_digits = Buffer::new();
    let mut total_digits = Buffer::new();
    let definition = definition_digits.format(definition);
    let calls = calls_digits.format(calls);
    let replies = replies_digits.format(replies);
    let total = total_digits.format(total);
    let put = put_texts(
        output,
        &[
            "definition ",
            definition,
            "\ncalls ",
            calls,
            "\nreplies ",
            replies,
            "\ntotal ",
            total,
            "\n",
        ],
    );
    match put {
        Ok(()) => Ok(()),
        Err(Failed) => Err(Fault::WriteFault),
    }
}
