//! How a method without code ends.

use kt_base::{Event, Lump};
use mach_value::Value;

/// How a method without code ends.
#[derive(Drop)]
pub enum NativeEnd {
    Returns(Value),
    /// It returns, and gives no value.
    ReturnsNone,
    /// It throws what this refers to.
    Throws(Value),
    /// A turn is to be charged.
    Ticks,
    /// The coroutine asks this. For a print a turn is to be charged before.
    Asks(Event<Lump>),
}
