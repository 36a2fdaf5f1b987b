//! What a body has up to one of its direct statements.

use kt_sizes::Sizes;

/// What a body has behind some of its direct statements.
#[derive(Clone, Copy)]
pub struct SoFar {
    /// What these statements count for.
    pub sizes: Sizes,
    /// How many locals are declared so far, the parameters among them, as far as a `u64` counts.
    pub locals: u64,
}
