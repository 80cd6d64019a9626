// Laws of every service. The functions do nothing.
ghost use Rattle.service_laws.specs.Laws.{DescriptionsAreAccepted, DescriptionsAreTold};
ghost use Rattle.service_laws.specs.Laws.{RepliesAreDeclared, SessionsAreDeclared, UpgradesAreAccepted};

use standard_interfaces::texts_are_accepted;

/// The description of each interface of a service is accepted as the tree that the service serves under
/// that name, and as no other: the sheet's, or that of `org.varlink.service`. A name that is not one of the
/// service's interfaces has none.
pub fn descriptions_are_accepted()
    ensures { DescriptionsAreAccepted }
{
    texts_are_accepted();
}

/// A call of `GetInterfaceDescription` without `upgrade` has one reply: its text is accepted as that tree and
/// no other, or it is `InterfaceNotFound` with the name, where the service has no such interface.
pub fn descriptions_are_told()
    ensures { DescriptionsAreTold }
{
    texts_are_accepted();
}

/// Where rules are typed and have one way, and each register has a value of its type, a reply without error
/// has parameters that read by the reply of the method that was called. An error is one of that interface or
/// of `org.varlink.service`, and has the parameters that are declared there under its name. All this is so
/// after each call again.
pub fn replies_are_declared()
    ensures { RepliesAreDeclared }
{}

/// The same of calls in a row, each reply by the call at its place; and the premises hold of a sheet and the
/// values that its registers begin with, where each is of its register's type.
pub fn sessions_are_declared()
    ensures { SessionsAreDeclared }
{}

/// On the same premises, a call that asks for an upgrade is followed by raw bytes exactly where its last
/// reply is no error.
pub fn upgrades_are_accepted()
    ensures { UpgradesAreAccepted }
{}
