// Options, and the commands that take them.
ghost use Rattle.std.specs.Prelude.{◌≡◌};
ghost use Rattle.network_words.specs.Settings.{command_named, setting_named, allows, takes_word, is_option as option_word};

/// A command that needs the network, by its first word.
#[derive(Debug, Clone, Copy, PartialEq, Eq)]
pub(crate) enum Kind {
    Serve,
    Resolver,
    Call,
    Resolve,
    Bridge,
}

/// An option.
#[derive(Debug, Clone, Copy, PartialEq, Eq)]
pub(crate) enum Setting {
    At,
    Resolver,
    To,
    Child,
    Workers,
    Connections,
    More,
    Oneway,
    Typed,
    Forget,
}

/// The command of this word.
pub(crate) fn command_named(word: &str) -> Option<Kind>
    ensures { result ≡ command_named word.now }
{
    match word {
        "serve" => Some(Kind::Serve),
        "resolver" => Some(Kind::Resolver),
        "call" => Some(Kind::Call),
        "resolve" => Some(Kind::Resolve),
        "bridge" => Some(Kind::Bridge),
        _ => None,
    }
}

/// Whether the word begins with `--`.
pub(crate) fn is_option(word: &str) -> bool
    ensures { result ≡ option_word word.now }
{
    matches!(word.as_bytes(), [b'-', b'-', ..])
}

/// The option of this word.
pub(crate) fn setting_named(word: &str) -> Option<Setting>
    ensures { result ≡ setting_named word.now }
{
    match word {
        "--at" => Some(Setting::At),
        "--resolver" => Some(Setting::Resolver),
        "--to" => Some(Setting::To),
        "--child" => Some(Setting::Child),
        "--workers" => Some(Setting::Workers),
        "--connections" => Some(Setting::Connections),
        "--more" => Some(Setting::More),
        "--oneway" => Some(Setting::Oneway),
        "--typed" => Some(Setting::Typed),
        "--forget" => Some(Setting::Forget),
        _ => None,
    }
}

/// Whether the command has this option.
pub(crate) fn allows(kind: Kind, setting: Setting) -> bool
    ensures { result ≡ allows kind setting }
{
    match kind {
        Kind::Serve => matches!(
            setting,
            Setting::Workers | Setting::Connections | Setting::Forget
        ),
        Kind::Resolver => matches!(setting, Setting::Workers | Setting::Connections),
        Kind::Call => matches!(
            setting,
            Setting::At
                | Setting::Resolver
                | Setting::Child
                | Setting::More
                | Setting::Oneway
                | Setting::Typed
        ),
        Kind::Resolve => matches!(setting, Setting::Resolver),
        Kind::Bridge => matches!(setting, Setting::To | Setting::Resolver),
    }
}

/// Whether the word behind the option is its value.
pub(crate) fn takes_word(setting: Setting) -> bool
    ensures { result ≡ takes_word setting }
{
    !matches!(
        setting,
        Setting::More | Setting::Oneway | Setting::Typed | Setting::Forget
    )
}
