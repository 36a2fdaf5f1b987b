//! Types by their parts. Each says which form it is seen as.

ghost use Rattle.kt_types_tree.specs.Types as form;
ghost use Rattle.kt_types_tree.specs.Types.{forms_end, forms_of, or_null, type_form, typed, shape_form};
ghost use Rattle.std.specs.Prelude.{◌≡◌, false, map, true};

use crate::types::{KtType, TypeConstructor, TypeShape};
use sqlite_items::Items;
use std::alloc::Global;

impl KtType {
    /// `Nothing`, or `Nothing?`
    pub fn nothing(nullable: bool) -> KtType
        ensures { type_form result ≡ typed nullable form.nothing }
    {
        KtType {
            nullable,
            shape: TypeShape::Nothing,
        }
    }

    /// `Any`, or `Any?`
    pub fn any(nullable: bool) -> KtType
        ensures { type_form result ≡ typed nullable form.any }
    {
        KtType {
            nullable,
            shape: TypeShape::Any,
        }
    }

    /// The type parameter whose bound stands in this row, at this place of its declaration
    pub fn parameter(nullable: bool, row: u32, place: u32) -> KtType
        ensures { type_form result ≡ typed nullable (form.parameter row place) }
    {
        KtType {
            nullable,
            shape: TypeShape::Parameter(row, place),
        }
    }

    /// The type with these arguments
    pub fn of(nullable: bool, constructor: TypeConstructor, arguments: Items<KtType>) -> KtType
        ensures { type_form result ≡ typed nullable (form.of constructor (forms_of (map type_form arguments))) }
    {
        KtType {
            nullable,
            shape: TypeShape::Of(constructor, arguments),
        }
    }

    /// The type without arguments; it takes no memory.
    pub fn plain(alloc: Global, nullable: bool, constructor: TypeConstructor) -> KtType
        ensures { type_form result ≡ typed nullable (form.of constructor forms_end) }
    {
        KtType::of(nullable, constructor, Items::new(alloc))
    }

    /// The type without `?`
    pub fn without_null(self) -> KtType
        ensures { type_form result ≡ typed false (shape_form self.shape) }
    {
        KtType {
            nullable: false,
            shape: self.shape,
        }
    }

    /// The type with `?`
    pub fn with_null(self) -> KtType
        ensures { type_form result ≡ or_null true (type_form self) }
    {
        KtType {
            nullable: true,
            shape: self.shape,
        }
    }
}
