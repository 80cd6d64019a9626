// What words mean.
ghost use Rattle.std.specs.Prelude.{◌≡◌, ◌≤◌, option_map, IfOk, IfSome};
ghost use Rattle.network_words.specs.Meanings.{network, is_network, Means, HasRunnable, HasWorkers, by_kind, served, number_or, number_if};
ghost use Rattle.link_doors.specs.Addresses.{address_of};
ghost use Rattle.network_words.specs.declared.settings.Kind.TheVariants as command;

use crate::calls::call;
use crate::given::{Given, parted};
use crate::numbers::number_to;
use crate::settings::{Kind, command_named};
use call_form::Call;
use link_doors::{Address, AddressFault};
use link_port::{Memory, Text};
use std::alloc::Global;

/// The most workers of a service.
pub const MOST_WORKERS: u64 = 64;

/// The workers of a service where none are asked for.
pub const WORKERS: u64 = 4;

/// The most connections that can be asked for.
pub const MOST_CONNECTIONS: u64 = 4_294_967_296;

/// What is served at an address.
#[derive(Debug, Drop)]
pub struct Serving {
    /// Where.
    pub address: Address,
    /// The path of the file that says what is served.
    pub path: Text,
    /// How many connections are served beside each other: 1 to 64.
    pub workers: u64,
    /// How many connections each worker serves, from 1 to 2^32; without end where it is None.
    pub connections: Option<u64>,
}

/// By which way a service is called.
#[derive(Debug, Drop)]
pub enum Way {
    /// At its address.
    At(Address),
    /// Where the resolver at this address says that it is.
    Resolver(Address),
    /// Over a bridge that is started, which asks the resolver at this address.
    Child {
        /// The program that is started.
        program: Text,
        /// The resolver's address.
        resolver: Address,
    },
}

/// Where a bridge leads.
#[derive(Debug, Drop)]
pub enum Target {
    /// To one address.
    At(Address),
    /// Where the resolver at this address says for each call.
    Resolver(Address),
}

/// A command that needs the network.
#[derive(Drop)]
pub enum Network {
    /// Serves a sheet.
    Serve {
        /// What and where.
        serving: Serving,
        /// The history is not kept.
        forgets: bool,
    },
    /// Serves a registry.
    Resolver(Serving),
    /// Calls a method.
    Call {
        /// By which way.
        way: Way,
        /// The call, whose parameters are an object of whole numbers.
        call: Call,
        /// The replies are read by the method's definition.
        typed: bool,
    },
    /// Asks for the address of an interface.
    Resolve {
        /// The resolver's address.
        resolver: Address,
        /// The name of the interface.
        interface: Text,
    },
    /// Passes calls on.
    Bridge(Target),
}

/// Whether the first of the words is that of a command that needs the network.
pub fn is_network(words: &[Text]) -> bool
    ensures { result ≡ is_network words.now }
{
    match words {
        [word, ..] => command_named(word.as_str()).is_some(),
        [] => false,
    }
}

/// The command that these words mean, and None exactly where they mean none. The parameters of a call are
/// sendable, and a service has 1 to 64 workers.
#[tactic(auto, unfolding(crate::specs::Meanings::network))]
pub fn network_of(alloc: Global, words: &[Text]) -> Result<Option<Network>, Memory>
    ensures meaning { Means result (network words.now) }
    ensures runnable { IfOk result HasRunnable }
{
    let [word, rest @ ..] = words else {
        return Ok(None);
    };
    let Some(kind) = command_named(word.as_str()) else {
        return Ok(None);
    };
    match parted(kind, rest) {
        Some(given) => by_kind(alloc, kind, &given),
        None => Ok(None),
    }
}

// The command of this kind.
fn by_kind(alloc: Global, kind: Kind, given: &Given<'_>) -> Result<Option<Network>, Memory>
    ensures meaning { Means result (by_kind kind given.now) }
    ensures runnable { IfOk result HasRunnable }
{
    match kind {
        Kind::Serve => serve(alloc, given),
        Kind::Resolver => resolver(alloc, given),
        Kind::Call => call(alloc, given),
        Kind::Resolve => resolve(alloc, given),
        Kind::Bridge => bridge(alloc, given),
    }
}

fn serve(alloc: Global, given: &Given<'_>) -> Result<Option<Network>, Memory>
    ensures meaning { Means result (by_kind command.Serve given.now) }
    ensures runnable { IfOk result HasRunnable }
{
    let forgets = given.forget;
    match what_is_served(alloc, given)? {
        Some(serving) => Ok(Some(Network::Serve { serving, forgets })),
        None => Ok(None),
    }
}

fn resolver(alloc: Global, given: &Given<'_>) -> Result<Option<Network>, Memory>
    ensures meaning { Means result (by_kind command.Resolver given.now) }
    ensures runnable { IfOk result HasRunnable }
{
    match what_is_served(alloc, given)? {
        Some(serving) => Ok(Some(Network::Resolver(serving))),
        None => Ok(None),
    }
}

// What is served, and where.
fn what_is_served(alloc: Global, given: &Given<'_>) -> Result<Option<Serving>, Memory>
    ensures meaning { Means result (served given.now) }
    ensures workers { IfOk result (λ found. IfSome found HasWorkers) }
{
    let (Some(address), Some(path)) = (given.first, given.second) else {
        return Ok(None);
    };
    let Some(workers) = number_or(WORKERS, MOST_WORKERS, given.workers) else {
        return Ok(None);
    };
    let Some(connections) = number_if(MOST_CONNECTIONS, given.connections) else {
        return Ok(None);
    };
    let path = Text::of(alloc, path)?;
    match address_of(alloc, address) {
        Ok(Some(address)) => Ok(Some(Serving {
            address,
            path,
            workers,
            connections,
        })),
        Ok(None) => {
            drop(path);
            Ok(None)
        }
        Err(stop) => {
            drop(path);
            Err(stop)
        }
    }
}

// The number that was asked for, or this one where none was.
fn number_or(usual: u64, most: u64, word: Option<&str>) -> Option<u64>
    requires { (1 ≤ usual) × (usual ≤ most) }
    ensures within { IfSome result (λ number. (1 ≤ number) × (number ≤ most)) }
    ensures meaning { result ≡ number_or usual most (option_map (λ text. text.now) word.entry) }
{
    match word {
        Some(word) => number_to(most, word),
        None => Some(usual),
    }
}

// The number that was asked for, if one was.
fn number_if(most: u64, word: Option<&str>) -> Option<Option<u64>>
    ensures { result ≡ number_if most (option_map (λ text. text.now) word.entry) }
{
    match word {
        Some(word) => match number_to(most, word) {
            Some(number) => Some(Some(number)),
            None => None,
        },
        None => Some(None),
    }
}

/// The address that a word is.
pub(crate) fn address_of(alloc: Global, word: &str) -> Result<Option<Address>, Memory>
    ensures { Means result (address_of word.now) }
{
    match Address::read(alloc, word) {
        Ok(address) => Ok(Some(address)),
        Err(AddressFault::BadAddress) => Ok(None),
        Err(AddressFault::Memory) => Err(Memory),
    }
}

fn resolve(alloc: Global, given: &Given<'_>) -> Result<Option<Network>, Memory>
    ensures meaning { Means result (by_kind command.Resolve given.now) }
    ensures runnable { IfOk result HasRunnable }
{
    let (Some(resolver), Some(interface), None) = (given.resolver, given.first, given.second) else {
        return Ok(None);
    };
    let interface = Text::of(alloc, interface)?;
    match address_of(alloc, resolver) {
        Ok(Some(resolver)) => Ok(Some(Network::Resolve {
            resolver,
            interface,
        })),
        Ok(None) => {
            drop(interface);
            Ok(None)
        }
        Err(stop) => {
            drop(interface);
            Err(stop)
        }
    }
}

fn bridge(alloc: Global, given: &Given<'_>) -> Result<Option<Network>, Memory>
    ensures meaning { Means result (by_kind command.Bridge given.now) }
    ensures runnable { IfOk result HasRunnable }
{
    match (given.to, given.resolver, given.first) {
        (Some(to), None, None) => match address_of(alloc, to)? {
            Some(to) => Ok(Some(Network::Bridge(Target::At(to)))),
            None => Ok(None),
        },
        (None, Some(resolver), None) => match address_of(alloc, resolver)? {
            Some(resolver) => Ok(Some(Network::Bridge(Target::Resolver(resolver)))),
            None => Ok(None),
        },
        _ => Ok(None),
    }
}
