// What replies are asked for.

/// What replies a call asks for, and how they are passed on.
#[derive(Debug, Clone, Copy, PartialEq, Eq)]
pub struct Asking {
    /// The call has `oneway`: it gets no reply.
    pub oneway: bool,
    /// The call has `more`: it may get several replies.
    pub more: bool,
    /// The byte that is put behind each payload.
    pub mark: u8,
}
