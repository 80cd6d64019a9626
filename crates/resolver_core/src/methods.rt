// The methods of a resolver.
ghost use Rattle.std.specs.Prelude.{◌≡◌};
ghost use Rattle.resolver_core.specs.Registries.{is_fixed};
ghost use Rattle.resolver_core.specs.Places.{asked_by, of_service, of_resolver, interface_of};

use crate::words::at_dot;

/// What a call asks of a resolver.
#[derive(Clone, Copy)]
pub enum Asked {
    /// Who made it, and which interfaces it has.
    ServiceInfo,
    /// The definition of one of its interfaces.
    Description,
    /// Who made it, and which interfaces it knows.
    ResolverInfo,
    /// The address of an interface.
    Resolve,
    /// A method of an interface that it does not have.
    NoInterface,
    /// A method that its interface does not have.
    NoMethod,
}

/// What the word of a call asks for.
pub fn asked_by(word: &str) -> Asked
    ensures { result ≡ asked_by word.now }
{
    let Some((interface, method)) = at_dot(word) else {
        return Asked::NoInterface;
    };
    if interface == "org.varlink.service" {
        of_service(method)
    } else if interface == "org.varlink.resolver" {
        of_resolver(method)
    } else {
        Asked::NoInterface
    }
}

fn of_service(method: &str) -> Asked
    ensures { result ≡ of_service method.now }
{
    if method == "GetInfo" {
        Asked::ServiceInfo
    } else if method == "GetInterfaceDescription" {
        Asked::Description
    } else {
        Asked::NoMethod
    }
}

fn of_resolver(method: &str) -> Asked
    ensures { result ≡ of_resolver method.now }
{
    if method == "GetInfo" {
        Asked::ResolverInfo
    } else if method == "Resolve" {
        Asked::Resolve
    } else {
        Asked::NoMethod
    }
}

/// The interface that a word names; a word without a dot stands for one.
pub fn interface_of(word: &str) -> &str
    ensures { result.now ≡ interface_of word.now }
{
    match at_dot(word) {
        Some((interface, _)) => interface,
        None => word,
    }
}

/// Whether a name is that of an interface of the resolver itself.
pub fn is_fixed(name: &str) -> bool
    ensures { result ≡ is_fixed name.now }
{
    name == "org.varlink.service" || name == "org.varlink.resolver"
}
