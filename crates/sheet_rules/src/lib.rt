//! The rules of a sheet, and their typing: what a rule says of references, expressions, conditions, steps
//! and outcomes, and which of them are typed by the interface that the rule belongs to.
#![tactic(auto)]

mod actions;
mod conditions;
mod expressions;
mod forms;
mod names;
mod outcomes;
mod paths;
mod rules;
mod sameness;
mod standings;
mod types;
mod values;

pub use actions::{action_is_typed, array_register, map_register};
pub use conditions::{cond_is_typed, error_body, gives_int, gives_string, guard_is_typed};
pub use expressions::gives;
pub use forms::{Action, Branch, Cond, Ending, Expr, Guard, Ref, Register, Rule};
pub use outcomes::{ending_is_typed, gives_reply, items_of, same_kind, same_raw, with_item};
pub use paths::{field_typ, path_typ, ref_typ, register_typ, struct_fields, typ_body};
pub use rules::{branch_is_typed, has_one_way, method_of, rule_is_typed, standing};
pub use sameness::{fits, same};
pub use standings::Standing;
pub use types::{
    Kind, Typ, array_part, body_typ, int_typ, is_int, map_part, maybe_part, string_typ, type_in,
    without_maybe,
};
pub use values::is_of_typ;
