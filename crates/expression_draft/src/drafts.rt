// References, expressions and conditions by names, before their types are looked at.
use link_port::{Box, List, Text, Value};

/// A condition.
#[derive(Drop)]
pub enum CondDraft {
    /// The values are equal.
    Equal(RefDraft, ExprDraft),
    /// The first number is less than the second.
    Less(ExprDraft, ExprDraft),
    /// The value is not `null`.
    Present(RefDraft),
    /// The map has the key.
    Has(RefDraft, ExprDraft),
    /// The condition does not hold.
    Not(Box<CondDraft>),
}

/// What gives a value.
#[derive(Drop)]
pub enum ExprDraft {
    /// The value that is found there.
    From(RefDraft),
    /// The value that this JSON is.
    Const(Value),
    /// A struct of these members, in the byte order of their names, each name once.
    Struct(List<(Text, ExprDraft)>),
    /// An array of these items.
    Items(List<ExprDraft>),
    /// A sum.
    Sum(Box<ExprDraft>, Box<ExprDraft>),
    /// The number of items or keys.
    Length(RefDraft),
    /// The value of a map at the first expression, and where the key isn't there, the second one.
    At(RefDraft, Box<ExprDraft>, Box<ExprDraft>),
}

/// Where a value is found: a path of names, each of which leads from a struct to its field.
#[derive(Drop)]
pub enum RefDraft {
    /// From the method's parameters on; at least one name.
    Param(List<Text>),
    /// From the register of the first name on; at least one name.
    Register(List<Text>),
    /// From the stream's item on.
    Item(List<Text>),
}
