//! Where a phrase stands, as far as it decides what the phrase may hold.

/// Where a phrase stands.
#[derive(Clone, Copy, Debug, PartialEq, Eq)]
pub struct Context {
    /// In the body of a loop of the same function or lambda.
    pub in_loop: bool,
    /// In a lambda.
    pub in_lambda: bool,
}
