// Registers and rules as they are read: names of fields and registers stand for their places.
use call_form::Raw;
use idl_tree::TypeRef;
use link_port::{Box, List, Text};
use typed_value::Val;

/// A value that calls change, of a type of one of the sheet's interfaces.
#[derive(Drop)]
pub struct Register {
    /// Its name.
    pub name: Text,
    /// The place, among the sheet's interfaces, of the one that its type's names belong to.
    pub scope: u64,
    /// Its type.
    pub of: TypeRef,
    /// The value that it has first.
    pub initial: Val,
}

/// What the calls of one method do.
#[derive(Drop)]
pub struct Rule {
    /// The method's qualified name.
    pub name: Text,
    /// The place of its interface among the sheet's.
    pub interface: u64,
    /// The method's name.
    pub method: Text,
    /// The branches in order, of which the first is taken whose condition holds.
    pub branches: List<Branch>,
}

/// One way in which a call may go.
#[derive(Drop)]
pub struct Branch {
    /// When it is taken; the last branch always is.
    pub when: Option<Cond>,
    /// What has to hold, in order.
    pub guards: List<Guard>,
    /// What is done to the registers, in order.
    pub steps: List<Action>,
    /// What the call is answered with.
    pub outcome: Ending,
}

/// A condition without which the call is refused.
#[derive(Drop)]
pub struct Guard {
    /// The condition.
    pub need: Cond,
    /// The name of an error of the method's interface.
    pub error: Text,
    /// The error's parameters.
    pub with: Expr,
}

/// A condition on the registers and the parameters.
#[derive(Drop)]
pub enum Cond {
    /// The value referred to is equal to the other.
    Equal(Ref, Expr),
    /// The first number is less than the second.
    Less(Expr, Expr),
    /// There is a value.
    Present(Ref),
    /// The map has the key.
    Has(Ref, Expr),
    /// The condition does not hold.
    Not(Box<Cond>),
}

/// A step, which changes the register at a place.
#[derive(Drop)]
pub enum Action {
    /// The register becomes the value.
    Set(u64, Expr),
    /// The value is added at the array's end.
    Push(u64, Expr),
    /// The map has the value at the key.
    Put(u64, Expr, Expr),
    /// The map does not have the key.
    Drop(u64, Expr),
}

/// What a call is answered with.
#[derive(Drop)]
pub enum Ending {
    /// One reply.
    Reply(Expr),
    /// A reply for each item of an array, and a last one.
    Stream {
        /// The array.
        over: Ref,
        /// The reply for an item.
        each: Expr,
        /// The last reply.
        last: Expr,
    },
    /// One reply, and then raw bytes.
    Upgrade {
        /// What is done with them.
        raw: Raw,
        /// The reply.
        reply: Expr,
    },
}

/// A value that is there: a path is the places of fields, in declared order.
#[derive(Drop)]
pub enum Ref {
    /// A parameter of the method and the path behind it, at least one place.
    Param(List<u64>),
    /// The register at a place, and a path.
    Register(u64, List<u64>),
    /// The item of a stream, and a path.
    Item(List<u64>),
}

/// What a value is made of.
#[derive(Drop)]
pub enum Expr {
    /// The value referred to.
    From(Ref),
    /// The value itself.
    Const(Val),
    /// A struct, with a value for each field in declared order.
    Struct(List<Expr>),
    /// An array of these items.
    Items(List<Expr>),
    /// The sum of two numbers.
    Sum(Box<Expr>, Box<Expr>),
    /// How many items or keys there are.
    Length(Ref),
    /// The value of a map at a key, or else another.
    At(Ref, Box<Expr>, Box<Expr>),
}
