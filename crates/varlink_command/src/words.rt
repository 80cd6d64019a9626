// The words of a command line.
ghost use Rattle.std.specs.Prelude.{◌≡◌, ◌≤◌, IfSome};
ghost use Rattle.varlink_command.specs.Words.{command, sole_command, path_command, pair_command, work_command, IsWithin, is_option as option_word, path_of as path_word, second_path_of as second_path_word};

use link_port::Text;
use network_words::number_to;
use work_sample::MOST_METHODS;

/// A command that needs no network.
#[derive(Debug, Clone, Copy, PartialEq, Eq)]
pub enum Command {
    /// Serves the calls that come from standard input by the service without a sheet.
    Session,
    /// Serves the calls that come from standard input by the service of a sheet.
    SheetSession,
    /// Checks a definition.
    Check,
    /// Prints a definition in its canonical text.
    Format,
    /// Checks a sheet, and counts what it has.
    Sheet,
    /// Serves a call of each of this many methods, and tells what that comes to.
    Work(u64),
    /// Prints the words of the commands.
    Help,
    /// Tells whether a definition can take another's place.
    Compat,
}

/// The command that these words mean.
pub fn command_of(words: &[Text]) -> Option<Command>
    ensures means { result ≡ command words.now }
    ensures within { IfSome result IsWithin }
{
    match words {
        [word] => sole_command(word.as_str()),
        [_, path] if is_option(path.as_str()) => None,
        [word, path] => command_on_path(word.as_str(), path.as_str()),
        [_, old, new] if is_option(old.as_str()) || is_option(new.as_str()) => None,
        [word, _, _] => command_on_pair(word.as_str()),
        _ => None,
    }
}

/// The command of this word, which stands alone.
fn sole_command(word: &str) -> Option<Command>
    ensures means { result ≡ sole_command word.now }
    ensures within { IfSome result IsWithin }
{
    match word {
        "session" => Some(Command::Session),
        "help" => Some(Command::Help),
        _ => None,
    }
}

/// The command of this word, which a path or a number follows.
fn command_on_path(word: &str, path: &str) -> Option<Command>
    ensures means { result ≡ path_command word.now path.now }
    ensures within { IfSome result IsWithin }
{
    match word {
        "check" => Some(Command::Check),
        "format" => Some(Command::Format),
        "sheet" => Some(Command::Sheet),
        "session" => Some(Command::SheetSession),
        "work" => work_command(path),
        _ => None,
    }
}

/// The work of the number that this text is, from 1 to the most methods.
fn work_command(text: &str) -> Option<Command>
    ensures means { result ≡ work_command text.now }
    ensures within { IfSome result IsWithin }
{
    match number_to(MOST_METHODS, text) {
        Some(methods) => Some(Command::Work(methods)),
        None => None,
    }
}

/// The command of this word, which two paths follow.
fn command_on_pair(word: &str) -> Option<Command>
    ensures means { result ≡ pair_command word.now }
    ensures within { IfSome result IsWithin }
{
    match word {
        "compat" => Some(Command::Compat),
        _ => None,
    }
}

/// Whether the word begins with `--`.
fn is_option(word: &str) -> bool
    ensures { result ≡ option_word word.now }
{
    matches!(word.as_bytes(), [b'-', b'-', ..])
}

/// The path behind a command's word.
pub fn path_of(words: &[Text]) -> &str
    ensures { result.now ≡ path_word words.now }
{
    match words {
        [_, path, ..] => path.as_str(),
        _ => "",
    }
}

/// The path behind that one.
pub fn second_path_of(words: &[Text]) -> &str
    ensures { result.now ≡ second_path_word words.now }
{
    match words {
        [_, _, second, ..] => second.as_str(),
        _ => "",
    }
}
