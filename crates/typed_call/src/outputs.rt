// Replies are read by the output of a described method.
use call_form::Reply;
use link_exchange::{Misread, Screen};
use standard_calls::Described;
use std::alloc::Global;
use std::marker::Model;
use typed_value::FieldFault;

/// Reads replies by the output of a method.
#[derive(Drop)]
pub struct ByOutput {
    pub described: Described,
}

impl Screen for ByOutput {
    ghost use Rattle.typed_call.specs.Typed.{reading};

    ghost unread = { λ screen. reading screen.described };

    fn reads_all(&self) -> bool {
        false
    }

    fn check(&self, alloc: Global, reply: &Reply) -> Result<(), Misread> {
        match self.described.check(alloc, &reply.parameters) {
            Ok(()) => Ok(()),
            Err(FieldFault::First(field)) => Err(Misread::Field(field)),
            Err(FieldFault::Memory) => Err(Misread::Memory),
        }
    }
}
