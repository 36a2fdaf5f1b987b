//! The code of the first programs, which only print numbers.

/// One step of a stack machine over 32-bit integers.
#[derive(Clone, Copy, Debug, PartialEq, Eq, Hash)]
pub enum Plain {
    /// Pushes a number.
    Push(i32),
    /// Takes two numbers and pushes their sum, wrapped to 32 bits.
    Add,
    /// Takes two numbers and pushes the lower one less the upper one, wrapped to 32 bits.
    Sub,
    /// Takes two numbers and pushes their product, wrapped to 32 bits.
    Mul,
    /// Takes a number and prints it in decimal on a line of its own.
    Print,
}
