//! Laws of subtyping. A body has nothing to do: the contract is the law.

ghost use Rattle.kt_types_order.specs.Laws.{AnyIsGreatest, ArgumentsStay, IsPreorder, NullStays};

/// Subtyping is reflexive and transitive.
pub fn is_preorder()
    ensures { IsPreorder }
{}

/// A type with `?` is no subtype of one without.
pub fn null_stays()
    ensures { NullStays }
{}

/// The arguments of arrays, continuations and function types are invariant.
pub fn arguments_stay()
    ensures { ArgumentsStay }
{}

/// Only `Any` and `Any?` are supertypes of `Any`.
pub fn any_is_greatest()
    ensures { AnyIsGreatest }
{}
