//! The definitions of the standard's own interfaces, in canonical layout (varlink.org, "Service", and the
//! interface `org.varlink.resolver`).

/// The definition of `org.varlink.service`, which every service has.
pub const SERVICE_TEXT: &str = "# The interface that every service has.
interface org.varlink.service

# Tells who made the service and which interfaces it has.
method GetInfo() -> (
  vendor: string,
  product: string,
  version: string,
  url: string,
  interfaces: []string
)

# Tells the definition of one interface.
method GetInterfaceDescription(interface: string) -> (description: string)

# The service has no such interface.
error InterfaceNotFound (interface: string)

# The interface has no such method.
error MethodNotFound (method: string)

# The method is defined and the service has nothing for it.
error MethodNotImplemented (method: string)

# One of the parameters or flags is refused.
error InvalidParameter (parameter: string)

# The method gives several replies and was called without more.
error ExpectedMore ()

# The caller may not make this call.
error PermissionDenied ()
";

/// The definition of `org.varlink.resolver`, which finds the address of an interface.
pub const RESOLVER_TEXT: &str = "# Finds the address of an interface.
interface org.varlink.resolver

# Tells who made the resolver and which interfaces it knows.
method GetInfo() -> (
  vendor: string,
  product: string,
  version: string,
  url: string,
  interfaces: []string
)

# Tells the address at which an interface is served.
method Resolve(interface: string) -> (address: string)

# The interface is not registered.
error InterfaceNotFound (interface: string)
";
