// Registries: which interface is served at which address.
ghost use Rattle.std.specs.Prelude.{◌≡◌, IfOk, option_copied};
ghost use Rattle.call_form.specs.CallOf.{IsObject};
ghost use Rattle.session_core.specs.Outcomes.{Fits};
ghost use Rattle.session_core.specs.Tells.{tells_by};
ghost use Rattle.resolver_core.specs.Registries.{Reads, AreInOrder, registry_of, names, address_at};
ghost use Rattle.resolver_core.specs.Held.{seen};
ghost use Rattle.resolver_core.specs.Places.{outcome_of, tell_of};

use crate::answers::reply_to;
use crate::faults::RegistryFault;
use crate::files::{Addresses, read_entries};
use call_form::{Call, Outcome};
use link_doors::Address;
use link_port::{List, Memory};
use session_core::{Answerer, Given};
use std::alloc::Global;
use std::marker::Model;

/// Names of interfaces, each with the address at which the interface is served, which contracts
/// see as the list of both in the byte order of the names.
#[derive(Drop)]
pub struct Registry {
    entries: Addresses,
}

impl Model for Registry {
    ghost use Rattle.std.specs.Prelude.{List};
    ghost use Rattle.std.specs.Coded.{codes};
    ghost use Rattle.link_doors.specs.contracts.addresses.Address as address;
    ghost use Rattle.resolver_core.specs.Registries.{Entries};
    ghost use Rattle.resolver_core.specs.Held.{seen};

    ghost Value = { Entries };

    ghost coded = { Prim.hlevel (codes, address.the_row.coded) };

    ghost view = { λ registry. seen registry.entries.entries };
}

impl Registry {
    /// Reads a JSON object from names of interfaces to the texts of addresses. The two interfaces
    /// `org.varlink.service` and `org.varlink.resolver`, which the resolver itself has, are not
    /// registered.
    pub fn read(alloc: Global, text: &[u8]) -> Result<Registry, RegistryFault>
        ensures registry { Reads (registry_of text.now) result }
        ensures order { IfOk result (λ registry. AreInOrder (names registry)) }
    {
        Ok(Registry {
            entries: read_entries(alloc, text)?,
        })
    }

    /// The address at which the interface is served; none where it is not registered.
    pub fn address(&self, interface: &str) -> Option<&Address>
        ensures { option_copied result ≡ address_at interface.now self.now }
    {
        self.entries.get(interface)
    }

    /// The addresses by names.
    pub(crate) fn addresses(&self) -> &Addresses
        ensures { seen result.now.entries ≡ self.now }
    {
        &self.entries
    }

    /// Answers a call as a service of the interfaces `org.varlink.service` and
    /// `org.varlink.resolver`. Its parameters are an object.
    pub fn answer(&self, alloc: Global, call: &Call) -> Result<Outcome, Memory>
        requires { IsObject call.now.parameters }
        ensures outcome { IfOk result (λ outcome. outcome ≡ outcome_of self.now call.now) }
        ensures fits { IfOk result (λ outcome. Fits call.now outcome) }
    {
        let mut replies = List::new(alloc);
        replies.push(reply_to(alloc, self, call)?)?;
        Ok(Outcome { replies, raw: None })
    }
}

impl<'r> Answerer for &'r Registry {
    type Out = Given;

    ghost tells = { tells_by tell_of };

    fn answer(&mut self, alloc: Global, call: &Call) -> Result<Given, Memory> {
        let registry: &Registry = *self;
        Ok(Given::new(registry.answer(alloc, call)?))
    }
}
