// What a comparison of two definitions tells.
use link_port::{List, Text};

/// Whether a definition can take another's place.
#[derive(Drop)]
pub enum Verdict {
    /// It can.
    Compatible,
    /// It is the definition of another interface.
    OtherName,
    /// It lacks the method of that name.
    NoMethod(Text),
    /// A type of a member differs.
    Differs {
        /// The name of the member.
        member: Text,
        /// Which of its types.
        side: Side,
        /// The words that lead to the part that differs.
        path: List<Text>,
    },
}

/// A type of a member.
#[derive(Debug, Clone, Copy, PartialEq, Eq)]
pub enum Side {
    /// A method's parameters.
    Input,
    /// A method's reply.
    Output,
    /// An error's parameters.
    Error,
}
