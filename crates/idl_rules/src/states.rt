// How far a definition has been read, and the stack of its open brackets.
ghost use Rattle.std.specs.Prelude.{◌≡◌, [], ◌∷◌, length, MatchOption, OnOk, OnErr};

use idl_tree::{Body, Field, Member, Named, Prefix};
use link_port::{List, Memory, Text};
use std::alloc::Global;
use std::marker::Model;

/// How far a definition has been read.
#[derive(Drop)]
pub enum State {
    /// Nothing but notes.
    Start,
    /// The word `interface`; its name comes next.
    Headed {
        /// The notes before it.
        notes: List<Text>,
    },
    /// The name and whole members.
    Between {
        /// What was read.
        head: Head,
    },
    /// The first word of a member; its name comes next.
    Keyed {
        /// What stands before the member.
        head: Head,
        /// The notes before the member.
        notes: List<Text>,
        /// The word.
        keyword: Keyword,
    },
    /// A member up to one of its brackets, which comes next.
    Ready {
        /// What stands before the member.
        head: Head,
        /// The member so far.
        member: Begun,
    },
    /// A method up to its first closing bracket; `->` comes next.
    Middle {
        /// What stands before the method.
        head: Head,
        /// The notes before the method.
        notes: List<Text>,
        /// The method's name.
        name: Text,
        /// Its parameters.
        input: Body,
    },
    /// Within brackets.
    Inside {
        /// What stands before the member.
        head: Head,
        /// The member so far.
        member: Begun,
        /// The fields whose types hold the innermost bracket, that of the innermost one first.
        levels: Stack<Level>,
        /// What was read of the innermost bracket.
        spot: Spot,
    },
}

/// An interface up to one of its members.
#[derive(Drop)]
pub struct Head {
    /// The notes before the word `interface`.
    pub notes: List<Text>,
    /// The interface's name.
    pub name: Text,
    /// The members so far.
    pub members: List<Member>,
}

/// The first word of a member.
#[derive(Debug, Clone, Copy, PartialEq, Eq)]
pub enum Keyword {
    /// `type`
    Types,
    /// `method`
    Methods,
    /// `error`
    Errors,
}

/// A member up to one of its brackets.
#[derive(Drop)]
pub struct Begun {
    /// The notes before it.
    pub notes: List<Text>,
    /// Its name.
    pub name: Text,
    /// Which bracket it is.
    pub kind: Kind,
}

/// Which bracket of a member it is.
#[derive(Drop)]
pub enum Kind {
    /// That of a type.
    Shape,
    /// The parameters of a method.
    Input,
    /// The reply of a method, whose parameters are these.
    Output(Body),
    /// The parameters of an error.
    Fault,
}

/// A struct up to the core of a field's type.
#[derive(Drop)]
pub struct Level {
    /// The whole fields.
    pub fields: List<Field>,
    /// The notes before the next field.
    pub notes: List<Text>,
    /// Its name.
    pub name: Text,
    /// The prefixes of its type.
    pub prefixes: List<Prefix>,
}

/// What was read of the innermost bracket.
#[derive(Drop)]
pub enum Spot {
    /// Nothing but notes.
    First,
    /// One name, which may be that of a field or the first of an enum.
    Only(Named),
    /// Names of an enum; a `,` or `)` comes next.
    Names(List<Named>),
    /// Names of an enum, and a `,`.
    MoreNames(List<Named>),
    /// Whole fields; a `,` or `)` comes next.
    Fields(List<Field>),
    /// Whole fields, and a `,`.
    MoreFields(List<Field>),
    /// Fields, and the name of one; a `:` comes next.
    Field(Level),
    /// Fields, and one up to its type or what is left of it.
    Prefixes(Level),
    /// The same, and a `[`.
    Square(Level),
    /// The same, and `[string`.
    Map(Level),
}

/// A mark.
#[derive(Debug, Clone, Copy, PartialEq, Eq)]
pub enum Mark {
    /// `(`
    Open,
    /// `)`
    Close,
    /// `,`
    Comma,
    /// `:`
    Colon,
    /// `?`
    Question,
    /// `[`
    LeftSquare,
    /// `]`
    RightSquare,
    /// `->`
    Arrow,
}

/// A stack, which contracts see as the list of its items, the uppermost first.
#[derive(Debug, Drop)]
pub struct Stack<T> {
    items: Vec<T>,
}

impl<T> Model for Stack<T> {
    ghost use Rattle.std.specs.Prelude.{List, reverse};
    ghost use Rattle.std.specs.Coded.{coded_list};

    ghost Value = { List T };

    ghost coded = { coded_list T.code };

    ghost view = { λ stack. reverse stack.items.items };
}

impl<T> Stack<T> {
    /// An empty stack. It takes no memory.
    pub fn new(alloc: Global) -> Stack<T>
        ensures { result ≡ [] }
    {
        Stack {
            items: Vec::new(alloc),
        }
    }

    /// The number of items.
    pub fn len(&self) -> u64
        ensures { result ≡ length self.now }
    {
        self.items.len() as u64
    }

    /// Takes the uppermost item.
    pub fn pop(&mut self) -> Option<T>
        ensures { MatchOption result ((self.old ≡ []) × (self.new ≡ []))
            (λ item. self.old ≡ item ∷ self.new) }
    {
        self.items.pop()
    }
}

impl<T: Drop> Stack<T> {
    /// Puts an item on top. After want of memory the stack is as before.
    pub fn push(&mut self, item: T) -> Result<(), Memory>
        ensures ok { OnOk result (self.new ≡ item ∷ self.old) }
        ensures memory { OnErr result (self.new ≡ self.old) }
    {
        match self.items.push(item) {
            Ok(()) => Ok(()),
            Err(_) => Err(Memory),
        }
    }
}
