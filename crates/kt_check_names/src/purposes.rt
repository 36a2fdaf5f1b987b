//! What an expression is used for, and the types that it may have.

use kt_typed::TypedKind;
use kt_types_tree::KtType;
use sqlite_items::Items;

/// What an expression is used for.
#[derive(Clone, Copy)]
pub enum Purpose<'a> {
    /// A statement: it has no value that counts
    Unused,
    /// A value of which no type is expected
    AsValue,
    /// A value that meets an expected type
    Meeting(&'a KtType),
}

/// An expression with the types that it may have: the declared one, then its facts in the order learnt.
#[derive(Drop)]
pub struct Candidates {
    pub kind: TypedKind,
    pub types: Items<KtType>,
}
