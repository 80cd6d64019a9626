// What is told before and after each call that a worker serves.
use std::sync::{Mutex, Wait};

/// What is told before and after each call that a worker serves. It may wait, and changes nothing.
pub trait Gate {
    /// Worker, connection and call, each counted from 0, before the call is answered.
    fn before<R: Wait>(&self, rt: &R, worker: u64, connection: u64, call: u64);

    /// The same after the replies were written.
    fn after<R: Wait>(&self, rt: &R, worker: u64, connection: u64, call: u64);
}

/// A gate that does nothing.
#[derive(Debug, Drop)]
pub struct OpenGate;

impl OpenGate {
    /// The gate that does nothing.
    pub fn new() -> OpenGate {
        OpenGate
    }
}

impl Gate for OpenGate {
    fn before<R: Wait>(&self, _rt: &R, _worker: u64, _connection: u64, _call: u64) {}

    fn after<R: Wait>(&self, _rt: &R, _worker: u64, _connection: u64, _call: u64) {}
}
