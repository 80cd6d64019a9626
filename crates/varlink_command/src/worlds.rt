// What a program hands to a command, and what contracts see of it.
ghost use Rattle.varlink_command.specs.Ends.{Ends as EndsSeen};

use link_port::{Files, Sink, Source};

/// What a program hands to a command: its standard input, its standard output, the sink for lines
/// that tell faults, and the files.
#[derive(Debug, Drop)]
pub struct Desktop<S, O, E, F> {
    /// Standard input.
    pub input: S,
    /// Standard output.
    pub output: O,
    /// Where lines that tell faults go.
    pub faults: E,
    /// The files.
    pub files: F,
}

/// What contracts see of the ends of a program.
pub trait World {
    /// The input, the output, the sink of faults and the files, as far as they tell.
    ghost ends: { Self → EndsSeen };
}

impl<S: Source, O: Sink, E: Sink, F: Files> World for Desktop<S, O, E, F> {
    ghost ends = { λ world. record {
      input = record {
        left = S.left world.input;
        read_faults = S.read_faults world.input;
        written = S.written world.input;
        write_faults = S.write_faults world.input;
        finished = S.finished world.input;
      };
      output = record {
        left = O.left world.output;
        read_faults = O.read_faults world.output;
        written = O.written world.output;
        write_faults = O.write_faults world.output;
        finished = O.finished world.output;
      };
      faults = record {
        left = E.left world.faults;
        read_faults = E.read_faults world.faults;
        written = E.written world.faults;
        write_faults = E.write_faults world.faults;
        finished = E.finished world.faults;
      };
      files = record {
        holds = F.holds world.files;
        paths = F.paths world.files;
        faults = F.faults world.files;
      };
    } };
}

/// The status that a program ends with.
#[derive(Debug, Clone, Copy, PartialEq, Eq)]
pub struct Status(pub u8);
