// The words of one command line apart: its options with the words that they take, and the other words.
ghost use Rattle.std.specs.Prelude.{◌≡◌, None, option_map};
ghost use Rattle.network_words.specs.Given.{nothing, with_word, with_flag, with_plain, taken};
ghost use Rattle.network_words.specs.Given.{parted, parted_from, whole, by_setting};

use crate::settings::{Kind, Setting, allows, is_option, setting_named, takes_word};
use link_port::Text;
use std::marker::Model;

/// The words behind a command's: what each option has, whether a flag stands there, and the other words in order.
#[derive(Drop)]
pub(crate) struct Given<'a> {
    pub at: Option<&'a str>,
    pub resolver: Option<&'a str>,
    pub to: Option<&'a str>,
    pub child: Option<&'a str>,
    pub workers: Option<&'a str>,
    pub connections: Option<&'a str>,
    pub more: bool,
    pub oneway: bool,
    pub typed: bool,
    pub forget: bool,
    pub first: Option<&'a str>,
    pub second: Option<&'a str>,
}

impl<'a> Model for Given<'a> {
    ghost use Rattle.std.specs.Coded.{codes};
    ghost use Rattle.std.specs.Prelude.{option_map};
    ghost use Rattle.network_words.specs.Given.{Words};

    ghost Value = { Words };

    ghost coded = { Prim.hlevel (codes) };

    ghost view = { λ given. record {
      at = option_map (λ word. word.now) given.at;
      resolver = option_map (λ word. word.now) given.resolver;
      to = option_map (λ word. word.now) given.to;
      child = option_map (λ word. word.now) given.child;
      workers = option_map (λ word. word.now) given.workers;
      connections = option_map (λ word. word.now) given.connections;
      more = given.more;
      oneway = given.oneway;
      typed = given.typed;
      forget = given.forget;
      first = option_map (λ word. word.now) given.first;
      second = option_map (λ word. word.now) given.second;
    } };
}

/// The words that are apart so far, and the option that waits for its word.
#[derive(Drop)]
struct Stage<'a> {
    given: Given<'a>,
    waits: Option<Setting>,
}

impl<'a> Model for Stage<'a> {
    ghost use Rattle.std.specs.Coded.{codes};
    ghost use Rattle.network_words.specs.contracts.settings.Setting as setting;
    ghost use Rattle.network_words.specs.Given.{Stage as Seen};

    ghost Value = { Seen };

    ghost coded = { Prim.hlevel (codes, setting.the_row.coded) };

    ghost view = { λ stage. record { given = stage.given; waits = stage.waits } };
}

/// The words behind the command's apart, where they are words of this command.
pub(crate) fn parted<'a>(kind: Kind, words: &'a [Text]) -> Option<Given<'a>>
    ensures { result ≡ parted kind words.now }
{
    let stage = Stage {
        given: Given::none(),
        waits: None,
    };
    parted_from(kind, stage, words)
}

// Those and the words behind them apart. As many are taken as the command has places for, at most.
fn parted_from<'a>(kind: Kind, stage: Stage<'a>, words: &'a [Text]) -> Option<Given<'a>>
    ensures { result ≡ parted_from kind stage.entry words.now }
{
    let [word, rest @ ..] = words else {
        return whole(stage);
    };
    match taken(kind, stage, word.as_str()) {
        Some(next) => parted_from(kind, next, rest),
        None => None,
    }
}

// The words, where no option waits for its word.
fn whole<'a>(stage: Stage<'a>) -> Option<Given<'a>>
    ensures { result ≡ whole stage.entry.given stage.entry.waits }
{
    match stage.waits {
        None => Some(stage.given),
        Some(_) => None,
    }
}

// One word more.
fn taken<'a>(kind: Kind, stage: Stage<'a>, word: &'a str) -> Option<Stage<'a>>
    ensures { result ≡ taken kind stage.entry word.now }
{
    let Stage { given, waits } = stage;
    match waits {
        Some(setting) => closed(given.with_word(setting, word)),
        None if is_option(word) => by_setting(kind, given, setting_named(word)),
        None => closed(given.with_plain(word)),
    }
}

// An option of this command that does not stand there yet.
fn by_setting<'a>(kind: Kind, given: Given<'a>, setting: Option<Setting>) -> Option<Stage<'a>>
    ensures { result ≡ by_setting kind given.entry setting }
{
    match setting {
        Some(setting) if allows(kind, setting) => {
            if takes_word(setting) {
                Some(Stage {
                    given,
                    waits: Some(setting),
                })
            } else {
                closed(given.with_flag(setting))
            }
        }
        _ => None,
    }
}

// No option waits.
fn closed<'a>(given: Option<Given<'a>>) -> Option<Stage<'a>>
    ensures { result ≡ option_map (λ words. record { given = words; waits = None }) given.entry }
{
    match given {
        Some(given) => Some(Stage { given, waits: None }),
        None => None,
    }
}

impl<'a> Given<'a> {
    fn none() -> Given<'a>
        ensures { result ≡ nothing }
    {
        Given {
            at: None,
            resolver: None,
            to: None,
            child: None,
            workers: None,
            connections: None,
            more: false,
            oneway: false,
            typed: false,
            forget: false,
            first: None,
            second: None,
        }
    }

    // The option has this word, unless it has one.
    fn with_word(self, setting: Setting, word: &'a str) -> Option<Given<'a>>
        ensures { result ≡ with_word setting word.now self.entry }
    {
        let word = Some(word);
        match setting {
            Setting::At if self.at.is_none() => Some(Given { at: word, ..self }),
            Setting::Resolver if self.resolver.is_none() => Some(Given {
                resolver: word,
                ..self
            }),
            Setting::To if self.to.is_none() => Some(Given { to: word, ..self }),
            Setting::Child if self.child.is_none() => Some(Given {
                child: word,
                ..self
            }),
            Setting::Workers if self.workers.is_none() => Some(Given {
                workers: word,
                ..self
            }),
            Setting::Connections if self.connections.is_none() => Some(Given {
                connections: word,
                ..self
            }),
            _ => None,
        }
    }

    // The flag stands there, unless it does.
    fn with_flag(self, setting: Setting) -> Option<Given<'a>>
        ensures { result ≡ with_flag setting self.entry }
    {
        match setting {
            Setting::More if !self.more => Some(Given { more: true, ..self }),
            Setting::Oneway if !self.oneway => Some(Given {
                oneway: true,
                ..self
            }),
            Setting::Typed if !self.typed => Some(Given {
                typed: true,
                ..self
            }),
            Setting::Forget if !self.forget => Some(Given {
                forget: true,
                ..self
            }),
            _ => None,
        }
    }

    // One more word that is no option; no command has more than two.
    fn with_plain(self, word: &'a str) -> Option<Given<'a>>
        ensures { result ≡ with_plain word.now self.entry }
    {
        if self.first.is_none() {
            Some(Given {
                first: Some(word),
                ..self
            })
        } else if self.second.is_none() {
            Some(Given {
                second: Some(word),
                ..self
            })
        } else {
            None
        }
    }
}
