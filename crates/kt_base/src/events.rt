//! What a coroutine asks of the world around it, what it is answered, and how it stops.

use crate::lumps::Lump;
use crate::names::Name;
use crate::texts::Text16;

/// The outcome that a suspended call ends with: a value, or an exception that is thrown at the suspension.
#[derive(Debug, Drop)]
pub enum Fate<P> {
    Value(P),
    Thrown(P),
}

/// What a coroutine asks. One event is one atomic step of a run.
#[derive(Debug, Drop)]
pub enum Event<P> {
    /// Print the text on a line of its own.
    Print(Text16),
    /// Start a new coroutine, whose body and captures are handed over.
    Launch(P),
    /// Draw the number of a new cell.
    Draw,
    /// Give the cell its outcome.
    Resume(u32, Fate<P>),
    /// Take the outcome of the cell, or stop until there is one.
    Await(u32),
}

/// What an event is answered.
#[derive(Debug, Drop)]
pub enum Answer<P> {
    /// The text is printed.
    Done,
    /// The number that was drawn.
    Number(u32),
    /// No number is left.
    Full,
    /// This outcome is the cell's.
    Won,
    /// The cell had an outcome before.
    Lost,
    /// The outcome of the cell.
    Outcome(Fate<P>),
}

/// How a coroutine ended.
#[derive(Debug, Drop)]
pub enum End {
    Returned,
    /// An exception left the coroutine: its class, as `java/lang/ArithmeticException`, and its message.
    Uncaught(Name, Option<Text16>),
    /// A charge found no turn left.
    TurnsSpent,
    /// A draw or a launch found no number left.
    NumbersSpent,
}

/// How a coroutine stands when it can't go on.
#[derive(Debug, Drop)]
pub enum Halt {
    Ended(End),
    /// It awaits the outcome of this cell.
    Waits(u32),
}

/// How a coroutine began.
#[derive(Debug, Drop)]
pub enum Start {
    Main,
    /// By `launch`, with the body and the captures that were handed over.
    Launched(Lump),
}
