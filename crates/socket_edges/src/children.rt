// Programs that were started, and are linked to by their input and output.
use link_doors::Address;
use std::alloc::Global;
use std::io;
use std::io::ErrorKind;
use std::process::{Child, ChildStdin, ChildStdout, Command, Processes, Stdio, SystemProcess};

/// A program that was started, with the other ends of its standard input and output.
#[derive(Debug, Drop)]
pub struct LinkedChild {
    /// What is written here, the program reads.
    pub input: ChildStdin,
    /// What the program writes, and the program itself.
    pub output: ChildOutput,
}

/// What a program writes, and the program itself.
#[derive(Debug, Drop)]
pub struct ChildOutput {
    /// What the program writes is read here.
    pub pipe: ChildStdout,
    /// The program.
    pub child: Child<SystemProcess>,
}

impl LinkedChild {
    /// Starts a program with the words `bridge`, `--resolver` and an address. Its standard error is that of
    /// this program.
    pub fn start<R: Processes<Started = SystemProcess>>(
        system: &R,
        alloc: Global,
        program: &str,
        resolver: &Address,
    ) -> io::Result<LinkedChild> {
        let Ok(resolver) = resolver.text(alloc) else {
            return Err(io::Error::from(ErrorKind::OutOfMemory));
        };
        let child = bridge(alloc, program, resolver.as_str())?
            .stdin(Stdio::piped())
            .stdout(Stdio::piped())
            .spawn(system)?;
        LinkedChild::of(child)
    }

    // A program whose input and output are piped.
    fn of(mut child: Child<SystemProcess>) -> io::Result<LinkedChild> {
        match (child.stdin.take(), child.stdout.take()) {
            (Some(input), Some(pipe)) => Ok(LinkedChild {
                input,
                output: ChildOutput { pipe, child },
            }),
            pipes => {
                drop(pipes);
                child.wait()?;
                Err(io::Error::from(ErrorKind::BrokenPipe))
            }
        }
    }

    /// Closes the program's input, and waits for its end.
    pub fn close(self) {
        drop(self.input);
        self.output.close();
    }
}

impl ChildOutput {
    /// Closes the program's output and waits for the program's end. It writes no more into a pipe that nobody
    /// reads, so it does not wait for a reader in turn.
    pub fn close(self) {
        let ChildOutput { pipe, mut child } = self;
        drop(pipe);
        let _ = child.wait();
    }
}

// The command that bridges to a resolver.
fn bridge(alloc: Global, program: &str, resolver: &str) -> io::Result<Command> {
    let mut command = Command::new(alloc, program)?;
    command.arg("bridge")?.arg("--resolver")?.arg(resolver)?;
    Ok(command)
}
