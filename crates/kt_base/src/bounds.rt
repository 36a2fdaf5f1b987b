//! The limits of a run.

/// What a run may use.
#[derive(Clone, Copy, Debug, PartialEq, Eq, Hash)]
pub struct Limits {
    /// Turns of one coroutine: calls, loop turns, prints, launches and suspensions.
    pub turns: u32,
    /// Numbers that coroutines and cells draw, `main`'s number 0 among them.
    pub numbers: u32,
    /// Worker threads.
    pub workers: u32,
}
