//! Erasure (JVMS SE 8 §4.3): what is left of a type in a descriptor.

ghost use Rattle.kt_decls_inherited.specs.Erased as spec;
ghost use Rattle.kt_decls_inherited.specs.Erased.{descriptor_form, erased_form};
ghost use Rattle.kt_decls_rules.specs.Erasure as rules;
ghost use Rattle.kt_types_tree.specs.Hierarchy.{hierarchy_form};
ghost use Rattle.kt_types_tree.specs.declared.types.TypeConstructor.TheVariants as constructor;
ghost use Rattle.kt_types_tree.specs.Types.{forms_of, parameter, shape_form, type_form, typed};
ghost use Rattle.std.specs.Option.{option_copied};
ghost use Rattle.std.specs.Prelude.{◌≡◌, map, option_map, slice_get, IfOk};

use kt_base::NoMemory;
use kt_types_tree::{Hierarchy, KtType, TypeConstructor, TypeShape};
use sqlite_items::{Items, at};
use std::alloc::Global;

/// What is left of a type.
#[derive(Clone, Copy, Debug, PartialEq, Eq)]
pub enum ErasedType {
    /// A primitive type; as a result, `Unit` is one, which gives nothing.
    Primitive(TypeConstructor),
    /// `java/lang/Object`
    Object,
    /// The one class of all types with this constructor; of a primitive type, its box.
    Reference(TypeConstructor),
    /// The interface of functions with so many parameters.
    Functional(usize),
}

/// The erased types of a function.
#[derive(Drop)]
pub struct Descriptor {
    pub parameters: Items<ErasedType>,
    pub result: ErasedType,
}

fn is_primitive(constructor: TypeConstructor) -> bool
    ensures { result ≡ rules.is_primitive constructor }
{
    match constructor {
        TypeConstructor::Int => true,
        TypeConstructor::Long => true,
        TypeConstructor::Boolean => true,
        TypeConstructor::Char => true,
        TypeConstructor::String => false,
        TypeConstructor::Unit => false,
        TypeConstructor::IntArray => false,
        TypeConstructor::Array => false,
        TypeConstructor::Continuation => false,
        TypeConstructor::Class(_) => false,
        TypeConstructor::Function(_) => false,
    }
}

/// A function type: the result is its last argument, and one that suspends takes a continuation more.
#[tactic(auto, using(crate::proofs::Counting::count_is))]
fn functional(suspends: bool, arguments: &[KtType]) -> ErasedType
    ensures { erased_form result
        ≡ rules.erased_constructor (constructor.Function suspends) (forms_of (map type_form arguments.now)) }
{
    if suspends {
        return ErasedType::Functional(arguments.len());
    }
    match arguments {
        [] => ErasedType::Functional(0),
        [_first, rest @ ..] => ErasedType::Functional(rest.len()),
    }
}

fn erased_constructor(constructor: TypeConstructor, arguments: &[KtType]) -> ErasedType
    ensures { erased_form result
        ≡ rules.erased_constructor constructor (forms_of (map type_form arguments.now)) }
{
    match constructor {
        TypeConstructor::Int => ErasedType::Reference(constructor),
        TypeConstructor::Long => ErasedType::Reference(constructor),
        TypeConstructor::Boolean => ErasedType::Reference(constructor),
        TypeConstructor::Char => ErasedType::Reference(constructor),
        TypeConstructor::String => ErasedType::Reference(constructor),
        TypeConstructor::Unit => ErasedType::Reference(constructor),
        TypeConstructor::IntArray => ErasedType::Reference(constructor),
        TypeConstructor::Array => ErasedType::Reference(constructor),
        TypeConstructor::Continuation => ErasedType::Reference(constructor),
        TypeConstructor::Class(_) => ErasedType::Reference(constructor),
        TypeConstructor::Function(suspends) => functional(suspends, arguments),
    }
}

/// The box of a primitive type.
fn boxed(erased: ErasedType) -> ErasedType
    ensures { erased_form result ≡ rules.boxed (erased_form erased) }
{
    match erased {
        ErasedType::Primitive(constructor) => ErasedType::Reference(constructor),
        ErasedType::Object => erased,
        ErasedType::Reference(_) => erased,
        ErasedType::Functional(_) => erased,
    }
}

/// A type constructor with its arguments, behind which a `?` stands or doesn't.
fn erased_of(nullable: bool, constructor: TypeConstructor, arguments: &[KtType]) -> ErasedType
    ensures { erased_form result
        ≡ spec.erased_of nullable constructor (forms_of (map type_form arguments.now)) }
{
    if nullable {
        return erased_constructor(constructor, arguments);
    }
    if is_primitive(constructor) {
        ErasedType::Primitive(constructor)
    } else {
        erased_constructor(constructor, arguments)
    }
}

/// The bound of the type parameter in a row.
fn bound_in_row(h: &Hierarchy, row: u32) -> Option<&KtType>
    ensures { option_map type_form (option_copied result) ≡ slice_get (hierarchy_form h.now).bounds row }
{
    at(h.bounds.as_slice(), row as usize)
}

/// A type parameter is erased as its bound, by way of so many, and never to a primitive type.
#[cycle(erasing)]
fn erased_parameter(h: &Hierarchy, steps: usize, nullable: bool, row: u32, place: u32) -> ErasedType
    ensures { erased_form result ≡ rules.erased_within (hierarchy_form h.now).bounds steps
        (typed nullable (parameter row place)) }
{
    if steps == 0 {
        return ErasedType::Object;
    }
    match bound_in_row(h, row) {
        Some(bound) => boxed(erased_within(h, steps - 1, bound)),
        None => ErasedType::Object,
    }
}

/// What is left of a type, by way of so many bounds.
#[cycle(erasing)]
fn erased_within(h: &Hierarchy, steps: usize, t: &KtType) -> ErasedType
    ensures { erased_form result
        ≡ rules.erased_within (hierarchy_form h.now).bounds steps (type_form t.now) }
{
    if steps == 0 {
        return ErasedType::Object;
    }
    match &t.shape {
        TypeShape::Nothing => ErasedType::Object,
        TypeShape::Any => ErasedType::Object,
        TypeShape::Parameter(row, place) => { erased_parameter(h, steps, t.nullable, *row, *place) }
        TypeShape::Of(constructor, arguments) => {
            erased_of(t.nullable, *constructor, arguments.as_slice())
        }
    }
}

/// What is left of a type.
fn erased(h: &Hierarchy, t: &KtType) -> ErasedType
    ensures { erased_form result ≡ rules.erased (hierarchy_form h.now).bounds (type_form t.now) }
{
    let bounds = h.bounds.as_slice();
    erased_within(h, bounds.len() + 1, t)
}

/// A result of type `Unit`, which gives nothing.
fn gives_nothing(t: &KtType) -> bool
    ensures { result ≡ spec.gives_nothing (type_form t.now) }
{
    if t.nullable {
        false
    } else {
        is_unit_shape(&t.shape)
    }
}

fn is_unit_shape(shape: &TypeShape) -> bool
    ensures { result ≡ spec.is_unit_shape (shape_form shape.now) }
{
    match shape {
        TypeShape::Nothing => false,
        TypeShape::Any => false,
        TypeShape::Parameter(_, _) => false,
        TypeShape::Of(constructor, _) => is_unit(*constructor),
    }
}

fn is_unit(constructor: TypeConstructor) -> bool
    ensures { result ≡ spec.is_unit constructor }
{
    match constructor {
        TypeConstructor::Unit => true,
        TypeConstructor::Int => false,
        TypeConstructor::Long => false,
        TypeConstructor::Boolean => false,
        TypeConstructor::Char => false,
        TypeConstructor::String => false,
        TypeConstructor::IntArray => false,
        TypeConstructor::Array => false,
        TypeConstructor::Continuation => false,
        TypeConstructor::Class(_) => false,
        TypeConstructor::Function(_) => false,
    }
}

/// What is left of a result.
fn erased_result(h: &Hierarchy, t: &KtType) -> ErasedType
    ensures { erased_form result ≡ rules.erased_result (hierarchy_form h.now).bounds (type_form t.now) }
{
    let nothing = gives_nothing(t);
    if nothing {
        ErasedType::Primitive(TypeConstructor::Unit)
    } else {
        erased(h, t)
    }
}

/// A suspend function gives an object.
fn result_if(h: &Hierarchy, is_suspend: bool, t: &KtType) -> ErasedType
    ensures { erased_form result ≡ spec.result_if (hierarchy_form h.now).bounds is_suspend (type_form t.now) }
{
    if is_suspend {
        ErasedType::Object
    } else {
        erased_result(h, t)
    }
}

/// What is left of the types of parameters.
fn erased_all(alloc: Global, h: &Hierarchy, types: &[KtType]) -> Result<Items<ErasedType>, NoMemory>
    ensures { IfOk result (λ all. map erased_form all
        ≡ map (rules.erased (hierarchy_form h.now).bounds) (map type_form types.now)) }
{
    let mut done = Items::new(alloc);
    for t in types {
        done.push(erased(h, t))?;
    }
    Ok(done)
}

/// The descriptor of a function of these types.
pub fn descriptor_of(
    alloc: Global,
    h: &Hierarchy,
    is_suspend: bool,
    parameters: &[KtType],
    result_type: &KtType,
) -> Result<Descriptor, NoMemory>
    ensures { IfOk result (λ d. descriptor_form d ≡ rules.descriptor_of (hierarchy_form h.now).bounds is_suspend
        (map type_form parameters.now) (type_form result_type.now)) }
{
    let parameters = erased_all(alloc, h, parameters)?;
    Ok(Descriptor {
        parameters,
        result: result_if(h, is_suspend, result_type),
    })
}

/// A copy.
pub fn copy_of(alloc: Global, descriptor: &Descriptor) -> Result<Descriptor, NoMemory>
    ensures { IfOk result (λ d. descriptor_form d ≡ descriptor_form descriptor.now) }
{
    let mut parameters = Items::new(alloc);
    for each in descriptor.parameters.as_slice() {
        parameters.push(*each)?;
    }
    Ok(Descriptor {
        parameters,
        result: descriptor.result,
    })
}
