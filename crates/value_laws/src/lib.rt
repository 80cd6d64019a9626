//! Laws of the values of an interface definition's types and of the JSON values (RFC 8259) that show them
//! (varlink.org, "Interface Definition"): over every definition, type and value.
#![tactic(auto)]

mod laws;

pub use laws::{
    shown_fields_are_no_deeper, shown_fields_are_sound, shown_fields_read_back_alone,
    shown_values_are_as_deep, shown_values_are_no_deeper, shown_values_are_sound,
    shown_values_read_back_alone, values_of_types_are_whole, values_read_are_no_deeper,
    values_read_are_of_the_type,
};
