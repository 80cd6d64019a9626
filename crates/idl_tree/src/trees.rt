// The tree of an interface definition.
use link_port::{Box, List, Text};

/// An interface definition.
#[derive(Drop)]
pub struct Interface {
    /// The notes before the word `interface`.
    pub notes: List<Text>,
    /// The interface's name, as `org.example.count`.
    pub name: Text,
    /// Types, methods and errors, in order.
    pub members: List<Member>,
    /// The notes after the last member.
    pub tail: List<Text>,
}

/// A member of an interface.
#[derive(Drop)]
pub struct Member {
    /// The notes before it.
    pub notes: List<Text>,
    /// Its name.
    pub name: Text,
    /// What it is.
    pub part: Part,
}

/// What a member is.
#[derive(Drop)]
pub enum Part {
    /// `type`, with what the name stands for.
    Shape(Body),
    /// `method`, with its parameters and its reply.
    Method {
        /// The parameters.
        input: Body,
        /// The reply.
        output: Body,
    },
    /// `error`, with its parameters.
    Fault(Body),
}

/// What stands between two brackets.
#[derive(Drop)]
#[cycle(tree)]
pub enum Body {
    /// Fields with their types.
    Struct {
        /// The fields in order.
        fields: List<Field>,
        /// The notes before the closing bracket.
        ending: List<Text>,
    },
    /// Names to choose from.
    Enum {
        /// The names in order.
        names: List<Named>,
        /// The notes before the closing bracket.
        ending: List<Text>,
    },
}

/// A field of a struct.
#[derive(Drop)]
#[cycle(tree)]
pub struct Field {
    /// The notes before it.
    pub notes: List<Text>,
    /// Its name.
    pub name: Text,
    /// Its type.
    pub of: TypeRef,
}

/// A name of an enum.
#[derive(Drop)]
pub struct Named {
    /// The notes before it.
    pub notes: List<Text>,
    /// The name.
    pub name: Text,
}

/// A type in use.
#[derive(Drop)]
#[cycle(tree)]
pub struct TypeRef {
    /// What stands before the core, outermost first.
    pub prefixes: List<Prefix>,
    /// The type behind the prefixes.
    pub core: Core,
}

/// What may stand before a type.
#[derive(Debug, Clone, Copy, PartialEq, Eq)]
pub enum Prefix {
    /// `[]`: an array.
    Array,
    /// `[string]`: a map from strings.
    Map,
    /// `?`: a value or nothing.
    Maybe,
}

/// A type without prefixes.
#[derive(Drop)]
#[cycle(tree)]
pub enum Core {
    /// `bool`.
    Bool,
    /// `int`.
    Int,
    /// `float`.
    Float,
    /// `string`.
    Str,
    /// `object`, foreign data.
    Object,
    /// The name of a type of the interface.
    Name(Text),
    /// A struct or an enum in place.
    Inline(Box<Body>),
}
