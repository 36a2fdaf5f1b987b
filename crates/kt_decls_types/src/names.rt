//! What the name of a type stands for.

ghost use Rattle.kt_decls_types.specs.Names as spec;
ghost use Rattle.std.specs.Prelude.{◌≡◌};

use kt_types_builtins::BuiltInType;
use kt_types_tree::TypeConstructor;

/// What the name of a type stands for.
#[derive(Clone, Copy, Debug, PartialEq, Eq)]
pub enum Meaning {
    Nothing,
    Any,
    /// A type parameter: its row, and its place.
    Parameter(u32, u32),
    /// What is given so many type arguments.
    Taking(TypeConstructor, u32),
}

/// What a built-in type stands for.
pub fn meaning_of_built_in(built_in: BuiltInType) -> Meaning
    ensures { result ≡ spec.meaning built_in }
{
    match built_in {
        BuiltInType::Int => Meaning::Taking(TypeConstructor::Int, 0),
        BuiltInType::Long => Meaning::Taking(TypeConstructor::Long, 0),
        BuiltInType::Boolean => Meaning::Taking(TypeConstructor::Boolean, 0),
        BuiltInType::Char => Meaning::Taking(TypeConstructor::Char, 0),
        BuiltInType::String => Meaning::Taking(TypeConstructor::String, 0),
        BuiltInType::Unit => Meaning::Taking(TypeConstructor::Unit, 0),
        BuiltInType::Nothing => Meaning::Nothing,
        BuiltInType::Any => Meaning::Any,
        BuiltInType::IntArray => Meaning::Taking(TypeConstructor::IntArray, 0),
        BuiltInType::Array => Meaning::Taking(TypeConstructor::Array, 1),
        BuiltInType::Continuation => Meaning::Taking(TypeConstructor::Continuation, 1),
    }
}
