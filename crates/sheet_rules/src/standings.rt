// What a rule's expressions stand in.
use crate::forms::Register;
use crate::types::Typ;
use idl_tree::{Body, Checked};

/// What the expressions of a rule are typed by.
#[derive(Clone, Copy)]
pub struct Standing<'x> {
    /// The sheet's interfaces.
    pub interfaces: &'x [Checked],
    /// The sheet's registers.
    pub registers: &'x [Register],
    /// The place of the method's interface.
    pub scope: u64,
    /// The method's parameters.
    pub input: &'x Body,
    /// The method's reply.
    pub output: &'x Body,
    /// The type of a stream's item, where there is one.
    pub item: Option<Typ<'x>>,
}
