//! The commands of `varlink` that serve at an address: `serve`, a sheet, and `resolver`, a registry.
#![tactic(auto)]

mod fault_lines;
mod faults;
mod resolving;
mod serving;

pub use fault_lines::write_host_line;
pub use faults::HostFault;
pub use resolving::{REGISTRY_LIMIT, serve_resolver};
pub use serving::serve;
