//! What goes to another coroutine.

ghost use Rattle.mach_rows.specs.Asking as spec;
ghost use Rattle.std.specs.Prelude.{◌≡◌};

use kt_base::{Event, Fate, Lump};

/// What a value goes to another coroutine for.
#[derive(Clone, Copy, Debug, PartialEq, Eq)]
pub enum Sending {
    /// It is started.
    Launch,
    /// It is the outcome of a cell.
    Value(u32),
    /// It is thrown at who awaits a cell.
    Thrown(u32),
}

impl Sending {
    /// The event that asks so.
    pub fn event(self, lump: Lump) -> Event<Lump>
        ensures { result ≡ spec.sent_event self lump }
    {
        match self {
            Sending::Launch => Event::Launch(lump),
            Sending::Value(cell) => Event::Resume(cell, Fate::Value(lump)),
            Sending::Thrown(cell) => Event::Resume(cell, Fate::Thrown(lump)),
        }
    }
}
