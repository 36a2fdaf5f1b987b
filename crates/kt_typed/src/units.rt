//! The typed unit of a file.

use crate::bodies::TypedFun;
use crate::headers::Headers;
use sqlite_items::Items;

/// The headers and the bodies of a file.
#[derive(Drop)]
pub struct TypedUnit {
    pub headers: Headers,
    /// Those of the functions at top level.
    pub functions: Items<TypedFun>,
    /// Those of each class by its row in the hierarchy. A throwable has none.
    pub classes: Items<TypedClass>,
}

/// The bodies of a class.
#[derive(Drop)]
pub struct TypedClass {
    /// None for an interface, an enum and a throwable.
    pub constructor: Option<TypedFun>,
    /// By the places of the functions that the class declares; none for one without a body.
    pub functions: Items<Option<TypedFun>>,
}
