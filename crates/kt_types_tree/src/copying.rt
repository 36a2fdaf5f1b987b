//! Copies of types.

ghost use Rattle.kt_types_tree.specs.Types.{or_null, type_form};
ghost use Rattle.std.specs.Prelude.{◌≡◌, IfOk, false, map};

use crate::types::{KtType, TypeShape};
use kt_base::NoMemory;
use sqlite_items::Items;
use std::alloc::Global;

/// The type, and null where `null` says so.
#[cycle(copy)]
pub fn copy_or_null(alloc: Global, null: bool, t: &KtType) -> Result<KtType, NoMemory>
    ensures { IfOk result (λ copy. type_form copy ≡ or_null null (type_form t.now)) }
{
    let shape = match &t.shape {
        TypeShape::Nothing => TypeShape::Nothing,
        TypeShape::Any => TypeShape::Any,
        TypeShape::Parameter(row, place) => TypeShape::Parameter(*row, *place),
        TypeShape::Of(constructor, arguments) => {
            TypeShape::Of(*constructor, copy_all(alloc, arguments.as_slice())?)
        }
    };
    Ok(KtType {
        nullable: t.nullable || null,
        shape,
    })
}

/// A copy of each.
#[cycle(copy)]
pub fn copy_all(alloc: Global, all: &[KtType]) -> Result<Items<KtType>, NoMemory>
    ensures { IfOk result (λ copies. map type_form copies ≡ map type_form all.now) }
{
    let mut copies = Items::new(alloc);
    for t in all {
        copies.push(copy_or_null(alloc, false, t)?)?;
    }
    Ok(copies)
}

impl KtType {
    /// A copy of it.
    pub fn copy(&self, alloc: Global) -> Result<KtType, NoMemory>
        ensures { IfOk result (λ copy. type_form copy ≡ type_form self.now) }
    {
        copy_or_null(alloc, false, self)
    }
}
