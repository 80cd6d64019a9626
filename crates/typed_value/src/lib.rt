//! JSON values (RFC 8259) read by a type of an interface definition, and shown again (varlink.org,
//! "Interface Definition").
#![tactic(auto)]

mod bodies;
mod copies;
mod equal_trees;
mod equality;
mod faults;
mod prefixes;
mod reading;
mod showing;
mod sizes;
mod structs;
mod trees;
mod vals;
mod weights;

pub use bodies::{body_of, core_fields, core_names, fields_of, names_of};
pub use copies::copy;
pub use equality::same;
pub use faults::{FieldFault, ValueFault};
pub use prefixes::{begins_with_maybe, behind_maybes, part_prefixes};
pub use reading::{read, read_body, read_by};
pub use showing::{show, show_by, show_fields};
pub use sizes::levels;
pub use structs::read_fields;
pub use trees::has_only_ints;
pub use vals::Val;
pub use weights::weight;
