// Values of types.
use link_port::{List, Text, Value};

/// A value of a type of an interface definition (varlink.org, "Interface Definition"): JSON as it was
/// read by the type, where names stand for their places.
#[derive(Drop)]
pub enum Val {
    /// A value of `bool`.
    Bool(bool),
    /// A value of `int`.
    Int(i64),
    /// A value of `string`.
    Str(Text),
    /// The items of an array, in order.
    Items(List<Val>),
    /// The entries of a map, in the byte order of their keys, each key once.
    Map(List<(Text, Val)>),
    /// The values of a struct's fields, in declared order.
    Struct(List<Val>),
    /// The place of a name in an enum, from 0.
    Pick(u64),
    /// `null`, or an absent field.
    Nothing,
    /// A value of `object`, as its JSON tree.
    Foreign(Value),
}
