//! The built-in types by their names.

ghost use Rattle.kt_types_builtins.specs.Types as spec;
ghost use Rattle.kt_types_tree.specs.Types.{forms_of, shape_form, type_form};
ghost use Rattle.std.specs.Prelude.{◌≡◌, map};

use kt_types_tree::{KtType, TypeConstructor, TypeShape};
use sqlite_items::Items;

/// A type that every program has.
#[derive(Clone, Copy, Debug, PartialEq, Eq)]
pub enum BuiltInType {
    Int,
    Long,
    Boolean,
    Char,
    String,
    Unit,
    Nothing,
    Any,
    IntArray,
    Array,
    Continuation,
}

/// All of them.
#[tactic(auto, unfolding(crate::specs::Types::types))]
fn types() -> &'static [BuiltInType]
    ensures { result.now ≡ spec.types }
{
    &[
        BuiltInType::Int,
        BuiltInType::Long,
        BuiltInType::Boolean,
        BuiltInType::Char,
        BuiltInType::String,
        BuiltInType::Unit,
        BuiltInType::Nothing,
        BuiltInType::Any,
        BuiltInType::IntArray,
        BuiltInType::Array,
        BuiltInType::Continuation,
    ]
}

impl BuiltInType {
    /// How it is written, in ASCII.
    pub fn name(self) -> &'static [u8]
        ensures { result.now ≡ spec.type_name self }
    {
        match self {
            BuiltInType::Int => b"Int",
            BuiltInType::Long => b"Long",
            BuiltInType::Boolean => b"Boolean",
            BuiltInType::Char => b"Char",
            BuiltInType::String => b"String",
            BuiltInType::Unit => b"Unit",
            BuiltInType::Nothing => b"Nothing",
            BuiltInType::Any => b"Any",
            BuiltInType::IntArray => b"IntArray",
            BuiltInType::Array => b"Array",
            BuiltInType::Continuation => b"Continuation",
        }
    }

    /// The type that is written so; none where no built-in type is.
    #[tactic(auto, unfolding(crate::specs::Types::type_of_name))]
    pub fn of_name(name: &[u8]) -> Option<BuiltInType>
        ensures { result ≡ spec.type_of_name name.now }
    {
        types().iter().find(|t| t.name() == name).copied()
    }

    /// How many type arguments are written behind it.
    pub fn arguments(self) -> usize
        ensures { result ≡ spec.type_arguments self }
    {
        match self {
            BuiltInType::Array => 1,
            BuiltInType::Continuation => 1,
            BuiltInType::Int => 0,
            BuiltInType::Long => 0,
            BuiltInType::Boolean => 0,
            BuiltInType::Char => 0,
            BuiltInType::String => 0,
            BuiltInType::Unit => 0,
            BuiltInType::Nothing => 0,
            BuiltInType::Any => 0,
            BuiltInType::IntArray => 0,
        }
    }

    /// The type with these arguments, without `?`.
    pub fn with_arguments(self, arguments: Items<KtType>) -> TypeShape
        ensures { shape_form result ≡ spec.type_shape self (forms_of (map type_form arguments)) }
    {
        match self {
            BuiltInType::Nothing => TypeShape::Nothing,
            BuiltInType::Any => TypeShape::Any,
            BuiltInType::Int => TypeShape::Of(TypeConstructor::Int, arguments),
            BuiltInType::Long => TypeShape::Of(TypeConstructor::Long, arguments),
            BuiltInType::Boolean => TypeShape::Of(TypeConstructor::Boolean, arguments),
            BuiltInType::Char => TypeShape::Of(TypeConstructor::Char, arguments),
            BuiltInType::String => TypeShape::Of(TypeConstructor::String, arguments),
            BuiltInType::Unit => TypeShape::Of(TypeConstructor::Unit, arguments),
            BuiltInType::IntArray => TypeShape::Of(TypeConstructor::IntArray, arguments),
            BuiltInType::Array => TypeShape::Of(TypeConstructor::Array, arguments),
            BuiltInType::Continuation => TypeShape::Of(TypeConstructor::Continuation, arguments),
        }
    }
}
