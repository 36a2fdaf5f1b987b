//! What is done with conditions, with subjects of `when`, and behind `finally`.

use kt_direct_values::DirectValue;
use kt_typed::{TypedBlock, TypedCondition, TypedEntry};

/// What is left of a `when`: the conditions that are left of an entry, its body, and the entries behind it.
#[derive(Drop)]
pub struct WhenRest<'a> {
    pub subject: DirectValue,
    pub conditions: &'a [TypedCondition],
    pub body: &'a TypedBlock,
    pub entries: &'a [TypedEntry],
}

/// How the code before a `finally` ended, which counts where the `finally` ends normally.
#[derive(Drop)]
pub enum Kept {
    Gave(DirectValue),
    Thrown(DirectValue),
    Returned(DirectValue),
    /// By `break`.
    Broken,
    /// By `continue`.
    Continued,
}

/// What awaits a value by which a branch is chosen.
#[derive(Drop)]
pub enum AfterChoice<'a> {
    /// The condition of an `if`.
    If(&'a TypedBlock, &'a Option<TypedBlock>),
    /// The subject of a `when`.
    Subject(&'a [TypedEntry]),
    /// A value that the subject of a `when` is compared with; whether it is the literal `null`.
    Equals(bool, WhenRest<'a>),
    /// Whether a condition of an entry is met.
    Met(WhenRest<'a>),
    /// The block of `finally` has ended.
    Last(Kept),
}
