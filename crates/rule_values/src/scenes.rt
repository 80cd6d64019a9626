// What a rule's expressions see.
use typed_value::Val;

/// What the expressions of a rule see.
#[derive(Clone, Copy)]
pub struct Scene<'x> {
    /// The values of the registers.
    pub registers: &'x [Val],
    /// The parameters of the call.
    pub parameters: &'x Val,
    /// The item of a stream, where there is one.
    pub item: Option<&'x Val>,
}
