//! Which types may be null, and what a type is without null.

ghost use Rattle.kt_check_rules.specs.Kinds as kinds;
ghost use Rattle.kt_types.specs.Null.{bare};
ghost use Rattle.kt_types_tree.specs.Hierarchy.{hierarchy_form};
ghost use Rattle.kt_types_tree.specs.Types.{parameter, shape_form, type_form, typed};
ghost use Rattle.std.specs.Prelude.{◌≡◌, ℕ, IfOk, false, map};

use kt_base::NoMemory;
use kt_types_tree::{Hierarchy, KtType, TypeShape};
use sqlite_items::at;
use std::alloc::Global;

/// Whether null is among the values of a shape; of a type parameter its bound tells, in at most so many steps.
#[cycle(nulls)]
fn allows_null(bounds: &[KtType], steps: usize, nullable: bool, shape: &TypeShape) -> bool
    ensures { result ≡ kinds.allows_null (map type_form bounds.now) steps (typed nullable (shape_form shape.now)) }
{
    if nullable {
        return true;
    }
    match shape {
        TypeShape::Parameter(row, _) => bound_allows_null(bounds, steps, *row),
        TypeShape::Nothing => false,
        TypeShape::Any => false,
        TypeShape::Of(_, _) => false,
    }
}

/// The same of a type parameter.
#[cycle(nulls)]
fn bound_allows_null(bounds: &[KtType], steps: usize, row: u32) -> bool
    ensures { (place : ℕ) → result ≡ kinds.allows_null (map type_form bounds.now) steps (typed false (parameter row place)) }
{
    if steps == 0 {
        return true;
    }
    match at(bounds, row as usize) {
        Some(bound) => allows_null(bounds, steps - 1, bound.nullable, &bound.shape),
        None => true,
    }
}

/// Whether a type may be null where it has no `?`.
fn may_be_null_but(h: &Hierarchy, t: &KtType) -> bool
    ensures { result ≡ kinds.may_be_null (hierarchy_form h.now) (bare (type_form t.now)) }
{
    allows_null(h.bounds.as_slice(), h.bounds.len(), false, &t.shape)
}

/// Whether a type may be null.
pub fn may_be_null(h: &Hierarchy, t: &KtType) -> bool
    ensures { result ≡ kinds.may_be_null (hierarchy_form h.now) (type_form t.now) }
{
    allows_null(h.bounds.as_slice(), h.bounds.len(), t.nullable, &t.shape)
}

/// What `!= null` gives: the type without `?`, and `Any` for a type parameter that may be null.
pub fn present_type(alloc: Global, h: &Hierarchy, t: &KtType) -> Result<KtType, NoMemory>
    ensures { IfOk result (λ r. type_form r ≡ kinds.present_type (hierarchy_form h.now) (type_form t.now)) }
{
    if may_be_null_but(h, t) {
        Ok(KtType::any(false))
    } else {
        Ok(t.copy(alloc)?.without_null())
    }
}
