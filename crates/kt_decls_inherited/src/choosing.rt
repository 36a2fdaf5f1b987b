//! Descriptors of a class's own functions, and of those that every class has.

ghost use Rattle.kt_decls_inherited.specs.Descriptors as spec;
ghost use Rattle.kt_decls_inherited.specs.Erased.{descriptor_form};
ghost use Rattle.kt_decls_rules.specs.Erasure as rules;
ghost use Rattle.kt_decls_rules.specs.Members.{boolean_type, string_type};
ghost use Rattle.kt_types_tree.specs.Types.{any, typed};
ghost use Rattle.kt_decls_inherited.specs.Sights.{sight_form, types_form};
ghost use Rattle.kt_types_tree.specs.Hierarchy.{hierarchy_form};
ghost use Rattle.std.specs.Prelude.{[], ◌∷◌, ◌++◌, ◌≡◌, map, option_map, false, true, IfOk};

use crate::any::{is_equals, is_to_string};
use crate::erasing::{Descriptor, ErasedType, copy_of, descriptor_of};
use crate::sights::{FunctionTypes, Sight};
use kt_base::NoMemory;
use kt_types_tree::{Hierarchy, TypeConstructor};
use sqlite_items::Items;
use std::alloc::Global;

/// A copy.
pub fn copy_if(
    alloc: Global,
    descriptor: &Option<Descriptor>,
) -> Result<Option<Descriptor>, NoMemory>
    ensures { IfOk result (λ d. option_map descriptor_form d ≡ option_map descriptor_form descriptor.now) }
{
    match descriptor {
        Some(descriptor) => Ok(Some(copy_of(alloc, descriptor)?)),
        None => Ok(None),
    }
}

/// The descriptor by a function's own types; none where one of them has no meaning.
pub fn own_descriptor(
    alloc: Global,
    h: &Hierarchy,
    sight: &Sight,
) -> Result<Option<Descriptor>, NoMemory>
    ensures { IfOk result (λ d. option_map descriptor_form d
        ≡ spec.own_descriptor (hierarchy_form h.now).bounds (sight_form sight.now)) }
{
    match &sight.types {
        Some(types) => {
            let parameters = types.parameters.as_slice();
            Ok(Some(descriptor_of(alloc, h, sight.is_suspend, parameters, &types.result)?))
        }
        None => Ok(None),
    }
}

/// The descriptor of `toString`.
fn of_to_string(alloc: Global) -> Descriptor
    ensures { descriptor_form result ≡ rules.descriptor_of [] false [] string_type }
{
    Descriptor {
        parameters: Items::new(alloc),
        result: ErasedType::Reference(TypeConstructor::String),
    }
}

/// The descriptor of `equals`.
fn of_equals(alloc: Global) -> Result<Descriptor, NoMemory>
    ensures { IfOk result (λ d. descriptor_form d
        ≡ rules.descriptor_of [] false (typed true any ∷ []) boolean_type) }
{
    let mut parameters = Items::new(alloc);
    parameters.push(ErasedType::Object)?;
    Ok(Descriptor {
        parameters,
        result: ErasedType::Primitive(TypeConstructor::Boolean),
    })
}

/// The descriptor of the function of this name with so many parameters that every class has.
pub fn of_any(
    alloc: Global,
    name: &[u8],
    count: usize,
) -> Result<Items<Option<Descriptor>>, NoMemory>
    ensures { IfOk result (λ all. map (option_map descriptor_form) all ≡ spec.of_any name.now count) }
{
    let mut all = Items::new(alloc);
    if is_to_string(name, count) {
        all.push(Some(of_to_string(alloc)))?;
    } else if is_equals(name, count) {
        all.push(Some(of_equals(alloc)?))?;
    }
    Ok(all)
}

/// The first of several, and the other one where there is none.
fn first_or(
    alloc: Global,
    all: &[Option<Descriptor>],
    own: Option<Descriptor>,
) -> Result<Option<Descriptor>, NoMemory>
    ensures { IfOk result (λ d. option_map descriptor_form d
        ≡ spec.first_or (map (option_map descriptor_form) all.now) (option_map descriptor_form own)) }
{
    match all {
        [] => Ok(own),
        [first, _rest @ ..] => copy_if(alloc, first),
    }
}

/// The descriptor of a function that a class declares: that of what it overrides first, which stands among those from
/// above or is one that every class has, and its own where it overrides nothing.
pub fn declared_descriptor(
    alloc: Global,
    above: &[Option<Descriptor>],
    any: &[Option<Descriptor>],
    own: Option<Descriptor>,
) -> Result<Option<Descriptor>, NoMemory>
    ensures { IfOk result (λ d. option_map descriptor_form d
        ≡ spec.first_or (map (option_map descriptor_form) above.now ++ map (option_map descriptor_form) any.now)
        (option_map descriptor_form own)) }
{
    match above {
        [] => first_or(alloc, any, own),
        [first, _rest @ ..] => copy_if(alloc, first),
    }
}
