//! The types of a program, with their names resolved (Kotlin specification, "Type system").

use sqlite_items::Items;

/// What type arguments are given to.
///
/// A basic type, `Unit` and `IntArray` have none, an `Array` and a `Continuation` have one, a class has one for each
/// of its type parameters. Those of a function type are its parameters' types in order, and its result's last.
#[derive(Clone, Copy, Debug, PartialEq, Eq)]
pub enum TypeConstructor {
    /// 32 bits
    Int,
    /// 64 bits
    Long,
    Boolean,
    /// One UTF-16 unit
    Char,
    /// A list of UTF-16 units
    String,
    Unit,
    /// An array of `Int`
    IntArray,
    /// `Array<T>`, whose `T` may be null
    Array,
    /// `Continuation<T>`
    Continuation,
    /// A class, an interface, an enum or a throwable, by its row in the hierarchy
    Class(u32),
    /// A function type: whether it suspends
    Function(bool),
}

/// A type without the `?` behind it.
#[derive(Drop)]
#[cycle(types)]
pub enum TypeShape {
    /// `Nothing`, which has no value
    Nothing,
    /// `Any`, above every type that can't be null
    Any,
    /// A type parameter: its row among the bounds of all type parameters, and its place among those of its
    /// declaration, which is the place of its argument
    Parameter(u32, u32),
    /// Any other type, with its type arguments
    Of(TypeConstructor, Items<KtType>),
}

/// A type.
#[derive(Drop)]
#[cycle(types)]
pub struct KtType {
    /// Whether `?` stands behind it
    pub nullable: bool,
    pub shape: TypeShape,
}
