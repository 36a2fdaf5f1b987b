//! Types as they are written.

use kt_base::Name;
use sqlite_items::{Boxed, Items};

/// A type as it is written (Kotlin specification, "Syntax and grammar", `type`).
#[derive(Drop)]
pub enum TypeReference {
    /// `ID targs?`: a class, an interface, a type parameter or a built-in type, with its type arguments.
    Named(Name, Items<TypeReference>),
    /// `'suspend'? '(' types ')' '->' type`: whether it suspends, the parameters' types, and the result's.
    Function(bool, Items<TypeReference>, Boxed<TypeReference>),
    /// A type with `?` behind it.
    Nullable(Boxed<TypeReference>),
    /// `'(' type ')'`
    Parenthesized(Boxed<TypeReference>),
}
