// What stands round each statement of a session.

use std::sync::Wait;

/// Is told before and after each statement of each session, and says nothing about answers.
/// A test uses one to hold statements, so a gate may wait.
pub trait Gate {
    fn before<R: Wait>(&self, rt: &R, session: u32, statement: u32);

    fn after<R: Wait>(&self, rt: &R, session: u32, statement: u32);
}

/// The gate of the program, which holds nothing.
#[derive(Clone, Copy, Debug)]
pub struct NoGate;

impl Gate for NoGate {
    fn before<R: Wait>(&self, _: &R, _: u32, _: u32) {}

    fn after<R: Wait>(&self, _: &R, _: u32, _: u32) {}
}
