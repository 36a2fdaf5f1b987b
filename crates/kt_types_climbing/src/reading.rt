//! Equality of types that are read under arguments. No memory is taken.

ghost use Rattle.kt_types_climbing.specs.Reading.{IsBare, layers, read, read_all, read_of};
ghost use Rattle.kt_types_tree.specs.Types.{forms_of, or_null, shape_form, type_form};
ghost use Rattle.std.specs.Prelude.{◌≡◌, ◌↔◌, ◌||◌, IsTrue, map};

use crate::environment::Environment;
use kt_types_tree::equality::{is_same_constructor, is_same_flag};
use kt_types_tree::{KtType, TypeShape};
use sqlite_items::at;

/// A type in an environment.
#[derive(Clone, Copy)]
pub struct Read<'a> {
    /// Whether null is allowed
    pub nullable: bool,
    pub shape: &'a TypeShape,
    pub environment: &'a Environment<'a>,
}

fn either(a: bool, b: bool) -> bool
    ensures { result ≡ (a || b) }
{
    a || b
}

/// The argument of a type parameter that has one, and else the type; with null too where `null` says so.
fn resolved<'a>(null: bool, t: &'a KtType, environment: &'a Environment<'a>) -> Read<'a>
    ensures same { read_of result ≡ or_null null (read (layers environment.now) (type_form t.now)) }
    ensures bare { IsBare (layers result.environment.now) (shape_form result.shape.now) }
{
    match &t.shape {
        TypeShape::Parameter(_, place) => match environment {
            Environment::Top => as_it_is(null, t, environment),
            Environment::Under(arguments, outer) => match at(arguments, *place as usize) {
                Some(argument) => resolved(either(t.nullable, null), argument, outer),
                None => as_it_is(null, t, environment),
            },
        },
        _ => as_it_is(null, t, environment),
    }
}

fn as_it_is<'a>(null: bool, t: &'a KtType, environment: &'a Environment<'a>) -> Read<'a>
    requires bare { IsBare (layers environment.now) (shape_form t.now.shape) }
    ensures same { read_of result ≡ or_null null (read (layers environment.now) (type_form t.now)) }
    ensures bare { IsBare (layers result.environment.now) (shape_form result.shape.now) }
{
    Read {
        nullable: either(t.nullable, null),
        shape: &t.shape,
        environment,
    }
}

/// Whether two types in environments are read as one.
#[cycle(reading)]
fn is_read_alike(a: &Read, b: &Read) -> bool
    requires left { IsBare (layers a.now.environment.now) (shape_form a.now.shape.now) }
    requires right { IsBare (layers b.now.environment.now) (shape_form b.now.shape.now) }
    ensures { IsTrue result ↔ (read_of a.now ≡ read_of b.now) }
{
    match a.shape {
        TypeShape::Nothing => match b.shape {
            TypeShape::Nothing => is_same_flag(a.nullable, b.nullable),
            _ => false,
        },
        TypeShape::Any => match b.shape {
            TypeShape::Any => is_same_flag(a.nullable, b.nullable),
            _ => false,
        },
        TypeShape::Parameter(row, place) => match b.shape {
            TypeShape::Parameter(other, other_place) => {
                is_same_flag(a.nullable, b.nullable) && row == other && place == other_place
            }
            _ => false,
        },
        TypeShape::Of(constructor, arguments) => match b.shape {
            TypeShape::Of(other, others) => {
                is_same_flag(a.nullable, b.nullable)
                    && is_same_constructor(*constructor, *other)
                    && are_read_alike(
                        arguments.as_slice(),
                        &*a.environment,
                        others.as_slice(),
                        &*b.environment,
                    )
            }
            _ => false,
        },
    }
}

/// Whether two lists of types, each in an environment, are read as one.
#[cycle(reading)]
pub fn are_read_alike(
    all: &[KtType],
    environment: &Environment,
    others: &[KtType],
    other_environment: &Environment,
) -> bool
    ensures { IsTrue result ↔ (read_all (layers environment.now) (forms_of (map type_form all.now))
        ≡ read_all (layers other_environment.now) (forms_of (map type_form others.now))) }
{
    match all {
        [] => match others {
            [] => true,
            _ => false,
        },
        [a, more @ ..] => match others {
            [] => false,
            [b, rest @ ..] => {
                is_read_alike(
                    &resolved(false, a, &*environment),
                    &resolved(false, b, &*other_environment),
                ) && are_read_alike(more, &*environment, rest, &*other_environment)
            }
        },
    }
}
