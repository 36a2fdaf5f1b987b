//! Nodes of types. Each says which tree it is seen as.

ghost use Rattle.kt_tree.specs.Types as tree;
ghost use Rattle.kt_tree.specs.Types.{type_tree, types_of};
ghost use Rattle.std.specs.Prelude.{◌≡◌, IfOk, map};

use kt_base::{Name, NoMemory};
use kt_tree::TypeReference;
use sqlite_items::{Boxed, Items};
use std::alloc::Global;

/// `ID targs?`
pub fn named(name: Name, arguments: Items<TypeReference>) -> TypeReference
    ensures { type_tree result ≡ tree.named name (types_of (map type_tree arguments)) }
{
    TypeReference::Named(name, arguments)
}

/// `'suspend'? '(' types ')' '->' type`
pub fn function(
    alloc: Global,
    suspends: bool,
    parameters: Items<TypeReference>,
    outcome: TypeReference,
) -> Result<TypeReference, NoMemory>
    ensures { IfOk result
        (λ t. type_tree t ≡ tree.function suspends (types_of (map type_tree parameters)) (type_tree outcome)) }
{
    let outcome = Boxed::new(alloc, outcome)?;
    Ok(TypeReference::Function(suspends, parameters, outcome))
}

/// `type '?'`
pub fn nullable(alloc: Global, inner: TypeReference) -> Result<TypeReference, NoMemory>
    ensures { IfOk result (λ t. type_tree t ≡ tree.nullable (type_tree inner)) }
{
    Ok(TypeReference::Nullable(Boxed::new(alloc, inner)?))
}

/// `'(' type ')'`
pub fn parenthesized(alloc: Global, inner: TypeReference) -> Result<TypeReference, NoMemory>
    ensures { IfOk result (λ t. type_tree t ≡ tree.parenthesized (type_tree inner)) }
{
    Ok(TypeReference::Parenthesized(Boxed::new(alloc, inner)?))
}
