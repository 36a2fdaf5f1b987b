//! Which values are of a type, and what stands in a variable before it is assigned.

ghost use Rattle.kt_direct_values.specs.Forms as forms;
ghost use Rattle.kt_direct_values.specs.Forms.{value_form};
ghost use Rattle.kt_meaning.specs.Classes as classes;
ghost use Rattle.kt_meaning.specs.Conditionals as conditionals;
ghost use Rattle.kt_meaning.specs.Types as spec;
ghost use Rattle.kt_typed.specs.Units.{UnitForm, unit_form};
ghost use Rattle.kt_types_tree.specs.Types.{shape_form, type_form};
ghost use Rattle.kt_values.specs.Values as v;
ghost use Rattle.kt_values.specs.Values.{Values};
ghost use Rattle.std.specs.Prelude.{◌≡◌, Bool, List, false, ℕ, ℤ};

use crate::below::is_below;
use kt_direct_values::{DirectShape, DirectValue};
use kt_typed::TypedUnit;
use kt_types_tree::{KtType, TypeConstructor, TypeShape};

/// What stands in a variable of a type before it is assigned.
pub fn blank(t: &KtType) -> DirectValue
    ensures { value_form result ≡ classes.blank (type_form t.now) }
{
    if t.nullable {
        return DirectValue::Null;
    }
    match &t.shape {
        TypeShape::Nothing => DirectValue::Null,
        TypeShape::Any => DirectValue::Null,
        TypeShape::Parameter(_, _) => DirectValue::Null,
        TypeShape::Of(constructor, _) => match constructor {
            TypeConstructor::Int => DirectValue::Int(0),
            TypeConstructor::Long => DirectValue::Long(0),
            TypeConstructor::Boolean => DirectValue::Truth(false),
            TypeConstructor::Char => DirectValue::Character(0),
            TypeConstructor::String
            | TypeConstructor::Unit
            | TypeConstructor::IntArray
            | TypeConstructor::Array
            | TypeConstructor::Continuation
            | TypeConstructor::Class(_)
            | TypeConstructor::Function(_) => DirectValue::Null,
        },
    }
}

/// Whether a reference is of what the constructor makes.
fn is_reference_made_by(
    unit: &TypedUnit,
    constructor: TypeConstructor,
    shape: DirectShape,
    place: usize,
) -> bool
    ensures { result ≡ spec.is_made_by (unit_form unit.now) constructor (v.reference (forms.shape_form shape) place) }
{
    match constructor {
        TypeConstructor::IntArray => match shape {
            DirectShape::Numbers => true,
            DirectShape::Instance(_) | DirectShape::Elements | DirectShape::Variable => false,
        },
        TypeConstructor::Array => match shape {
            DirectShape::Elements => true,
            DirectShape::Instance(_) | DirectShape::Numbers | DirectShape::Variable => false,
        },
        TypeConstructor::Class(c) => match shape {
            DirectShape::Instance(d) => is_below(unit, d, c),
            DirectShape::Numbers | DirectShape::Elements | DirectShape::Variable => false,
        },
        TypeConstructor::Int
        | TypeConstructor::Long
        | TypeConstructor::Boolean
        | TypeConstructor::Char
        | TypeConstructor::String
        | TypeConstructor::Unit
        | TypeConstructor::Continuation
        | TypeConstructor::Function(_) => false,
    }
}

/// Whether an entry of an enum is of what the constructor makes.
fn is_entry_made_by(unit: &TypedUnit, constructor: TypeConstructor, d: u32, ordinal: u32) -> bool
    ensures { result ≡ spec.is_made_by (unit_form unit.now) constructor (v.entry d ordinal) }
{
    match constructor {
        TypeConstructor::Class(c) => is_below(unit, d, c),
        TypeConstructor::Int
        | TypeConstructor::Long
        | TypeConstructor::Boolean
        | TypeConstructor::Char
        | TypeConstructor::String
        | TypeConstructor::Unit
        | TypeConstructor::IntArray
        | TypeConstructor::Array
        | TypeConstructor::Continuation
        | TypeConstructor::Function(_) => false,
    }
}

/// Whether the constructor makes an `Int`.
fn is_int(constructor: TypeConstructor) -> bool
    ensures { (u : UnitForm) (n : ℤ) → result ≡ spec.is_made_by u constructor (v.int n) }
{
    match constructor {
        TypeConstructor::Int => true,
        TypeConstructor::Long
        | TypeConstructor::Boolean
        | TypeConstructor::Char
        | TypeConstructor::String
        | TypeConstructor::Unit
        | TypeConstructor::IntArray
        | TypeConstructor::Array
        | TypeConstructor::Continuation
        | TypeConstructor::Class(_)
        | TypeConstructor::Function(_) => false,
    }
}

/// Whether the constructor makes a `Long`.
fn is_long(constructor: TypeConstructor) -> bool
    ensures { (u : UnitForm) (n : ℤ) → result ≡ spec.is_made_by u constructor (v.long n) }
{
    match constructor {
        TypeConstructor::Long => true,
        TypeConstructor::Int
        | TypeConstructor::Boolean
        | TypeConstructor::Char
        | TypeConstructor::String
        | TypeConstructor::Unit
        | TypeConstructor::IntArray
        | TypeConstructor::Array
        | TypeConstructor::Continuation
        | TypeConstructor::Class(_)
        | TypeConstructor::Function(_) => false,
    }
}

/// Whether the constructor makes a truth value.
fn is_boolean(constructor: TypeConstructor) -> bool
    ensures { (u : UnitForm) (b : Bool) → result ≡ spec.is_made_by u constructor (v.truth b) }
{
    match constructor {
        TypeConstructor::Boolean => true,
        TypeConstructor::Int
        | TypeConstructor::Long
        | TypeConstructor::Char
        | TypeConstructor::String
        | TypeConstructor::Unit
        | TypeConstructor::IntArray
        | TypeConstructor::Array
        | TypeConstructor::Continuation
        | TypeConstructor::Class(_)
        | TypeConstructor::Function(_) => false,
    }
}

/// Whether the constructor makes a character.
fn is_char(constructor: TypeConstructor) -> bool
    ensures { (u : UnitForm) (c : ℕ) → result ≡ spec.is_made_by u constructor (v.character c) }
{
    match constructor {
        TypeConstructor::Char => true,
        TypeConstructor::Int
        | TypeConstructor::Long
        | TypeConstructor::Boolean
        | TypeConstructor::String
        | TypeConstructor::Unit
        | TypeConstructor::IntArray
        | TypeConstructor::Array
        | TypeConstructor::Continuation
        | TypeConstructor::Class(_)
        | TypeConstructor::Function(_) => false,
    }
}

/// Whether the constructor makes a text.
fn is_string(constructor: TypeConstructor) -> bool
    ensures { (u : UnitForm) (t : List ℕ) → result ≡ spec.is_made_by u constructor (v.text t) }
{
    match constructor {
        TypeConstructor::String => true,
        TypeConstructor::Int
        | TypeConstructor::Long
        | TypeConstructor::Boolean
        | TypeConstructor::Char
        | TypeConstructor::Unit
        | TypeConstructor::IntArray
        | TypeConstructor::Array
        | TypeConstructor::Continuation
        | TypeConstructor::Class(_)
        | TypeConstructor::Function(_) => false,
    }
}

/// Whether the constructor makes `Unit`.
fn is_unit(constructor: TypeConstructor) -> bool
    ensures { (u : UnitForm) → result ≡ spec.is_made_by u constructor (v.unit) }
{
    match constructor {
        TypeConstructor::Unit => true,
        TypeConstructor::Int
        | TypeConstructor::Long
        | TypeConstructor::Boolean
        | TypeConstructor::Char
        | TypeConstructor::String
        | TypeConstructor::IntArray
        | TypeConstructor::Array
        | TypeConstructor::Continuation
        | TypeConstructor::Class(_)
        | TypeConstructor::Function(_) => false,
    }
}

/// Whether the constructor makes a continuation.
fn is_continuation(constructor: TypeConstructor) -> bool
    ensures { (u : UnitForm) (c : ℕ) → result ≡ spec.is_made_by u constructor (v.cell c) }
{
    match constructor {
        TypeConstructor::Continuation => true,
        TypeConstructor::Int
        | TypeConstructor::Long
        | TypeConstructor::Boolean
        | TypeConstructor::Char
        | TypeConstructor::String
        | TypeConstructor::Unit
        | TypeConstructor::IntArray
        | TypeConstructor::Array
        | TypeConstructor::Class(_)
        | TypeConstructor::Function(_) => false,
    }
}

/// Whether the constructor makes a lambda.
fn is_function(constructor: TypeConstructor) -> bool
    ensures { (u : UnitForm) (n : ℕ) (captures : Values) →
        result ≡ spec.is_made_by u constructor (v.closure n captures) }
{
    match constructor {
        TypeConstructor::Function(_) => true,
        TypeConstructor::Int
        | TypeConstructor::Long
        | TypeConstructor::Boolean
        | TypeConstructor::Char
        | TypeConstructor::String
        | TypeConstructor::Unit
        | TypeConstructor::IntArray
        | TypeConstructor::Array
        | TypeConstructor::Continuation
        | TypeConstructor::Class(_) => false,
    }
}

/// Whether a value that isn't null is of what the constructor makes.
fn is_made_by(unit: &TypedUnit, constructor: TypeConstructor, x: &DirectValue) -> bool
    ensures { v.is_null (value_form x.now) ≡ false →
        result ≡ spec.is_made_by (unit_form unit.now) constructor (value_form x.now) }
{
    match x {
        DirectValue::Int(_) => is_int(constructor),
        DirectValue::Long(_) => is_long(constructor),
        DirectValue::Truth(_) => is_boolean(constructor),
        DirectValue::Character(_) => is_char(constructor),
        DirectValue::Text(_) => is_string(constructor),
        DirectValue::Null => false,
        DirectValue::Unit => is_unit(constructor),
        DirectValue::Entry(c, ordinal) => is_entry_made_by(unit, constructor, *c, *ordinal),
        DirectValue::Cell(_) => is_continuation(constructor),
        DirectValue::Closure(_, _) => is_function(constructor),
        DirectValue::Reference(shape, place) => is_reference_made_by(
            unit,
            constructor,
            *shape,
            *place,
        ),
    }
}

/// Whether a value that isn't null is of a type.
fn is_of_shape(unit: &TypedUnit, shape: &TypeShape, x: &DirectValue) -> bool
    ensures { v.is_null (value_form x.now) ≡ false →
        result ≡ spec.is_of_shape (unit_form unit.now) (shape_form shape.now) (value_form x.now) }
{
    match shape {
        TypeShape::Nothing => false,
        TypeShape::Any => true,
        TypeShape::Parameter(_, _) => false,
        TypeShape::Of(constructor, _) => is_made_by(unit, *constructor, x),
    }
}

/// Whether a value is of a type.
pub fn is_of(unit: &TypedUnit, t: &KtType, x: &DirectValue) -> bool
    ensures { result ≡ spec.is_of (unit_form unit.now) (type_form t.now) (value_form x.now) }
{
    match x {
        DirectValue::Null => t.nullable,
        DirectValue::Int(_)
        | DirectValue::Long(_)
        | DirectValue::Truth(_)
        | DirectValue::Character(_)
        | DirectValue::Text(_)
        | DirectValue::Unit
        | DirectValue::Entry(_, _)
        | DirectValue::Cell(_)
        | DirectValue::Closure(_, _)
        | DirectValue::Reference(_, _) => is_of_shape(unit, &t.shape, x),
    }
}

/// The test of a type, or its opposite.
pub fn is_tested(unit: &TypedUnit, not: bool, t: &KtType, x: &DirectValue) -> bool
    ensures { result ≡ conditionals.tested (unit_form unit.now) not (type_form t.now) (value_form x.now) }
{
    if not {
        !is_of(unit, t, x)
    } else {
        is_of(unit, t, x)
    }
}
