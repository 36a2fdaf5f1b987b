//! Equality of types. It takes no memory.

ghost use Rattle.kt_types_tree.specs.Types.{forms_of, shape_form, type_form};
ghost use Rattle.std.specs.Prelude.{◌≡◌, ◌↔◌, IsTrue, map};

use crate::types::{KtType, TypeConstructor, TypeShape};

/// Whether the constructors are one.
pub fn is_same_constructor(a: TypeConstructor, b: TypeConstructor) -> bool
    ensures { IsTrue result ↔ (a ≡ b) }
{
    a == b
}

/// Whether the flags are one.
pub fn is_same_flag(a: bool, b: bool) -> bool
    ensures { IsTrue result ↔ (a ≡ b) }
{
    a == b
}

/// Whether the shapes are one.
#[cycle(equality)]
pub fn is_same_shape(a: &TypeShape, b: &TypeShape) -> bool
    ensures { IsTrue result ↔ (shape_form a.now ≡ shape_form b.now) }
{
    match a {
        TypeShape::Nothing => match b {
            TypeShape::Nothing => true,
            _ => false,
        },
        TypeShape::Any => match b {
            TypeShape::Any => true,
            _ => false,
        },
        TypeShape::Parameter(row, place) => match b {
            TypeShape::Parameter(other, other_place) => row == other && place == other_place,
            _ => false,
        },
        TypeShape::Of(constructor, arguments) => match b {
            TypeShape::Of(other, others) => {
                is_same_constructor(*constructor, *other)
                    && are_same(arguments.as_slice(), others.as_slice())
            }
            _ => false,
        },
    }
}

/// Whether two lists of types are one.
#[cycle(equality)]
pub fn are_same(all: &[KtType], others: &[KtType]) -> bool
    ensures { IsTrue result ↔ (forms_of (map type_form all.now) ≡ forms_of (map type_form others.now)) }
{
    match all {
        [] => match others {
            [] => true,
            _ => false,
        },
        [a, more @ ..] => match others {
            [] => false,
            [b, rest @ ..] => {
                is_same_flag(a.nullable, b.nullable)
                    && is_same_shape(&a.shape, &b.shape)
                    && are_same(more, rest)
            }
        },
    }
}

impl KtType {
    /// Whether it is the same type.
    pub fn is_same(&self, other: &KtType) -> bool
        ensures { IsTrue result ↔ (type_form self.now ≡ type_form other.now) }
    {
        is_same_flag(self.nullable, other.nullable) && is_same_shape(&self.shape, &other.shape)
    }
}
