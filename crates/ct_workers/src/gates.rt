// What stands round each question.

/// Is told before and after each question, on the thread that decides it, by its number from 0. Numbers past 4,294,967,295
/// are told as that one. It says nothing about answers.
pub trait WorkGate {
    fn before(&self, question: u32);

    fn after(&self, question: u32);
}

/// The gate of the program, which does nothing.
#[derive(Clone, Copy, Debug)]
pub struct NoWorkGate;

impl WorkGate for NoWorkGate {
    fn before(&self, _: u32) {}

    fn after(&self, _: u32) {}
}
