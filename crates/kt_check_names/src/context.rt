//! What stays through a body.

use kt_decls_types::ClassNames;
use kt_typed::{DeclaredTypeParameter, Headers};
use kt_types_tree::KtType;

/// What stays through a body.
#[derive(Clone, Copy)]
pub struct BodyContext<'a> {
    pub headers: &'a Headers,
    /// The classes by their names
    pub classes: &'a ClassNames,
    /// The type parameters in scope
    pub type_parameters: &'a [DeclaredTypeParameter],
    /// The result of the function
    pub gives: &'a KtType,
    /// Whether the function suspends
    pub is_suspend: bool,
}
