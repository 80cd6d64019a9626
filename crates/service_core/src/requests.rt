// What calls come to before a rule runs.
use call_form::Outcome;
use typed_value::Val;

/// A step that is asked for.
#[derive(Drop)]
pub struct Request {
    /// The place of its rule among the sheet's.
    pub rule: u64,
    /// The parameters, by the method's input.
    pub parameters: Val,
}

/// What a call comes to before a rule runs.
#[derive(Drop)]
pub enum Placed {
    /// It is answered.
    Answered(Outcome),
    /// It asks for a step.
    Ask(Request),
}
