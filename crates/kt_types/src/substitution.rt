//! Types with arguments put in for type parameters.

ghost use Rattle.kt_types_tree.specs.Types.{forms_of, of, parameter, substituted, type_form, typed};
ghost use Rattle.std.specs.Prelude.{◌≡◌, IfOk, map};

use kt_base::NoMemory;
use kt_types_tree::copying::copy_or_null;
use kt_types_tree::{KtType, TypeConstructor, TypeShape};
use sqlite_items::{Items, at};
use std::alloc::Global;

/// The argument of a type parameter, and else the type parameter.
fn argument_of(
    alloc: Global,
    nullable: bool,
    row: u32,
    place: u32,
    arguments: &[KtType],
) -> Result<KtType, NoMemory>
    ensures { IfOk result (λ t. type_form t
        ≡ substituted (forms_of (map type_form arguments.now)) (typed nullable (parameter row place))) }
{
    match at(arguments, place as usize) {
        Some(argument) => copy_or_null(alloc, nullable, argument),
        None => Ok(KtType::parameter(nullable, row, place)),
    }
}

/// The type with the arguments in place of the type parameters; one for which there is none stands for itself.
#[cycle(substitute)]
pub fn substitute(alloc: Global, t: &KtType, arguments: &[KtType]) -> Result<KtType, NoMemory>
    ensures { IfOk result (λ r. type_form r ≡ substituted (forms_of (map type_form arguments.now)) (type_form t.now)) }
{
    match &t.shape {
        TypeShape::Nothing => Ok(KtType::nothing(t.nullable)),
        TypeShape::Any => Ok(KtType::any(t.nullable)),
        TypeShape::Parameter(row, place) => argument_of(alloc, t.nullable, *row, *place, arguments),
        TypeShape::Of(constructor, all) => {
            substitute_of(alloc, t.nullable, *constructor, all.as_slice(), arguments)
        }
    }
}

#[cycle(substitute)]
fn substitute_of(
    alloc: Global,
    nullable: bool,
    constructor: TypeConstructor,
    all: &[KtType],
    arguments: &[KtType],
) -> Result<KtType, NoMemory>
    ensures { IfOk result (λ r. type_form r
        ≡ substituted (forms_of (map type_form arguments.now))
        (typed nullable (of constructor (forms_of (map type_form all.now))))) }
{
    let all = substitute_all(alloc, all, arguments)?;
    Ok(KtType::of(nullable, constructor, all))
}

/// Each of the types with the arguments in place of the type parameters.
#[cycle(substitute)]
pub fn substitute_all(
    alloc: Global,
    all: &[KtType],
    arguments: &[KtType],
) -> Result<Items<KtType>, NoMemory>
    ensures { IfOk result (λ r. map type_form r
        ≡ map (λ t. substituted (forms_of (map type_form arguments.now)) (type_form t)) all.now) }
{
    let mut done = Items::new(alloc);
    for t in all {
        done.push(substitute(alloc, t, arguments)?)?;
    }
    Ok(done)
}
