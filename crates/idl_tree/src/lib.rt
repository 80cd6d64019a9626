//! The tree of a Varlink interface definition, the forms of its names, and the check of its names.
#![tactic(auto)]

mod checks;
mod copies;
mod definitions;
mod depths;
mod faults;
mod floats;
mod forms;
mod marks;
mod names;
mod places;
mod sameness;
mod spaces;
mod trees;

pub use copies::copy_type;
pub use definitions::Checked;
pub use faults::NameFault;
pub use forms::{MOST_BRACKETS, in_form};
pub use names::{is_field_name, is_interface_name, is_member_name};
pub use sameness::{same_body, same_core, same_prefixes, same_type};
pub use trees::{Body, Core, Field, Interface, Member, Named, Part, Prefix, TypeRef};
