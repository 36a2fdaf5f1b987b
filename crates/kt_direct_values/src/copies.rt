//! Copies of values.

ghost use Rattle.kt_direct_values.specs.Forms.{value_form};
ghost use Rattle.std.specs.Prelude.{◌≡◌, IfOk, map};

use crate::values::DirectValue;
use sqlite_items::Items;
use std::alloc::{AllocError, Global};

impl DirectValue {
    /// A copy of it.
    #[cycle(copy)]
    pub fn copy(&self, alloc: Global) -> Result<DirectValue, AllocError>
        ensures { IfOk result (λ copy. value_form copy ≡ value_form self.now) }
    {
        match self {
            DirectValue::Int(n) => Ok(DirectValue::Int(*n)),
            DirectValue::Long(n) => Ok(DirectValue::Long(*n)),
            DirectValue::Truth(b) => Ok(DirectValue::Truth(*b)),
            DirectValue::Character(c) => Ok(DirectValue::Character(*c)),
            DirectValue::Text(t) => Ok(DirectValue::Text(t.clone()?)),
            DirectValue::Null => Ok(DirectValue::Null),
            DirectValue::Unit => Ok(DirectValue::Unit),
            DirectValue::Entry(c, n) => Ok(DirectValue::Entry(*c, *n)),
            DirectValue::Cell(c) => Ok(DirectValue::Cell(*c)),
            DirectValue::Closure(n, captures) => Ok(DirectValue::Closure(
                *n,
                copy_all(alloc, captures.as_slice())?,
            )),
            DirectValue::Reference(shape, place) => Ok(DirectValue::Reference(*shape, *place)),
        }
    }
}

/// A copy of each.
#[cycle(copy)]
pub fn copy_all(alloc: Global, all: &[DirectValue]) -> Result<Items<DirectValue>, AllocError>
    ensures { IfOk result (λ copies. map value_form copies ≡ map value_form all.now) }
{
    let mut copies = Items::new(alloc);
    for x in all {
        copies.push(x.copy(alloc)?)?;
    }
    Ok(copies)
}
