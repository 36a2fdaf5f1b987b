//! What a coroutine did.

use kt_base::{Answer, Event, Halt, Lump};
use sqlite_items::Items;

/// A value as it goes from one coroutine to another: one lump.
pub type Parcel = Lump;

/// One question of a coroutine, and what it was answered.
#[derive(Drop)]
pub struct Step {
    pub event: Event<Parcel>,
    pub answer: Answer<Parcel>,
    /// Of a print its place among all prints of the run, from 0; of any other event it says nothing.
    pub ticket: u64,
}

/// What a coroutine asked and was answered, in order, and how it stands.
#[derive(Drop)]
pub struct Trace {
    /// Its number: 0 for `main`.
    pub number: u32,
    pub steps: Items<Step>,
    pub halt: Halt,
}
