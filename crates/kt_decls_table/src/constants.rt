//! The headers of constants.

ghost use Rattle.kt_decls_names.specs.Taken.{is_taken};
ghost use Rattle.kt_decls_rules.specs.Names.{Taken, a_value};
ghost use Rattle.kt_decls_rules.specs.Names as rules;
ghost use Rattle.kt_decls_table.specs.Constants as spec;
ghost use Rattle.kt_decls_types.specs.Answers.{Answers};
ghost use Rattle.kt_decls_types.specs.Scopes.{class_named};
ghost use Rattle.kt_tree.specs.Declarations.{constant_tree};
ghost use Rattle.kt_tree.specs.Types.{maybe_type};
ghost use Rattle.kt_typed.specs.Headers.{constant_form};
ghost use Rattle.kt_types_tree.specs.Types.{type_form, shape_form};
ghost use Rattle.std.specs.Int.{w32, w64};
ghost use Rattle.std.specs.Prelude.{◌≡◌, ◌≤◌, Some, IfOk, OnOk};

use crate::functions::{are_none, is_reserved};
use kt_base::{Name, NoMemory};
use kt_decls_names::TakenNames;
use kt_decls_types::{ClassNames, Unresolved, resolved};
use kt_tree::{ConstantDeclaration, ConstantValue, Literal, TextPart};
use kt_typed::{ConstantLiteral, DeclaredConstant};
use kt_types_tree::{KtType, TypeConstructor, TypeShape};
use sqlite_items::Items;
use std::alloc::Global;

fn int_of(minus: bool, value: u64) -> i32
    requires { value ≤ 2147483647 }
    ensures { result ≡ spec.signed w32 minus value }
{
    let number = value as i32;
    if minus { number.wrapping_neg() } else { number }
}

fn long_of(minus: bool, value: u64) -> i64
    ensures { result ≡ spec.signed w64 minus value }
{
    let number = value.cast_signed();
    if minus { number.wrapping_neg() } else { number }
}

fn number_literal(
    long: bool,
    minus: bool,
    value: Option<u64>,
) -> Result<ConstantLiteral, Unresolved>
    ensures { Answers (λ l. l) result (spec.number_literal long minus value) }
{
    match value {
        Some(value) => {
            if long || value >= 2_147_483_648 {
                Ok(ConstantLiteral::Long(long_of(minus, value)))
            } else {
                Ok(ConstantLiteral::Int(int_of(minus, value)))
            }
        }
        None => Err(Unresolved::Refused),
    }
}

/// The value, which has no `-` before it.
fn unless(minus: bool, value: ConstantLiteral) -> Result<ConstantLiteral, Unresolved>
    ensures { Answers (λ l. l) result (spec.unless minus value) }
{
    if minus {
        Err(Unresolved::Refused)
    } else {
        Ok(value)
    }
}

/// The value of a literal.
fn literal_value(
    expects_long: bool,
    minus: bool,
    literal: Literal,
) -> Result<ConstantLiteral, Unresolved>
    ensures { Answers (λ l. l) result (spec.literal_value expects_long minus literal) }
{
    match literal {
        Literal::Number(number) => {
            number_literal(expects_long || number.long, minus, number.value)
        }
        Literal::Character(unit) => unless(minus, ConstantLiteral::Char(unit)),
        Literal::True => unless(minus, ConstantLiteral::Boolean(true)),
        Literal::False => unless(minus, ConstantLiteral::Boolean(false)),
        Literal::Null => Err(Unresolved::Refused),
    }
}

fn copy_of(part: &TextPart) -> Result<TextPart, NoMemory>
    ensures { IfOk result (λ copy. copy ≡ part.now) }
{
    match part {
        TextPart::Run(text) => Ok(TextPart::Run(text.clone()?)),
        TextPart::Escape(unit) => Ok(TextPart::Escape(*unit)),
        TextPart::Dollar => Ok(TextPart::Dollar),
    }
}

/// The parts of a string, as they stand.
fn copies_of(alloc: Global, parts: &[TextPart]) -> Result<Items<TextPart>, NoMemory>
    ensures { IfOk result (λ copies. copies ≡ parts.now) }
{
    let mut done = Items::new(alloc);
    for part in parts {
        done.push(copy_of(part)?)?;
    }
    Ok(done)
}

/// The value of a constant, where a `Long` is expected or isn't.
fn constant_value(
    alloc: Global,
    expects_long: bool,
    value: &ConstantValue,
) -> Result<ConstantLiteral, Unresolved>
    ensures { Answers (λ l. l) result (spec.constant_value expects_long value.now) }
{
    match value {
        ConstantValue::Literal(minus, literal) => literal_value(expects_long, *minus, *literal),
        ConstantValue::Text(parts) => {
            Ok(ConstantLiteral::Text(copies_of(alloc, parts.as_slice())?))
        }
    }
}

/// The basic type of a value.
fn constructor_of(value: &ConstantLiteral) -> TypeConstructor
    ensures { result ≡ spec.constructor_of value.now }
{
    match value {
        ConstantLiteral::Int(_) => TypeConstructor::Int,
        ConstantLiteral::Long(_) => TypeConstructor::Long,
        ConstantLiteral::Boolean(_) => TypeConstructor::Boolean,
        ConstantLiteral::Char(_) => TypeConstructor::Char,
        ConstantLiteral::Text(_) => TypeConstructor::String,
    }
}

fn is_int(constructor: TypeConstructor) -> bool
    ensures { result ≡ spec.is_int constructor }
{
    match constructor {
        TypeConstructor::Int => true,
        _ => false,
    }
}

fn is_long(constructor: TypeConstructor) -> bool
    ensures { result ≡ spec.is_long constructor }
{
    match constructor {
        TypeConstructor::Long => true,
        _ => false,
    }
}

fn is_boolean(constructor: TypeConstructor) -> bool
    ensures { result ≡ spec.is_boolean constructor }
{
    match constructor {
        TypeConstructor::Boolean => true,
        _ => false,
    }
}

fn is_char(constructor: TypeConstructor) -> bool
    ensures { result ≡ spec.is_char constructor }
{
    match constructor {
        TypeConstructor::Char => true,
        _ => false,
    }
}

fn is_string(constructor: TypeConstructor) -> bool
    ensures { result ≡ spec.is_string constructor }
{
    match constructor {
        TypeConstructor::String => true,
        _ => false,
    }
}

/// Whether the value is of this basic type.
fn is_value_of(value: &ConstantLiteral, constructor: TypeConstructor) -> bool
    ensures { result ≡ spec.is_value_of value.now constructor }
{
    match value {
        ConstantLiteral::Int(_) => is_int(constructor),
        ConstantLiteral::Long(_) => is_long(constructor),
        ConstantLiteral::Boolean(_) => is_boolean(constructor),
        ConstantLiteral::Char(_) => is_char(constructor),
        ConstantLiteral::Text(_) => is_string(constructor),
    }
}

fn is_long_shape(shape: &TypeShape) -> bool
    ensures { result ≡ spec.is_long_shape (shape_form shape.now) }
{
    match shape {
        TypeShape::Of(constructor, arguments) => {
            are_none(arguments.as_slice()) && is_long(*constructor)
        }
        _ => false,
    }
}

/// Whether the type is `Long`.
fn is_long_type(of: &KtType) -> bool
    ensures { result ≡ spec.is_long_type (type_form of.now) }
{
    if of.nullable {
        false
    } else {
        is_long_shape(&of.shape)
    }
}

fn fits_shape(value: &ConstantLiteral, shape: &TypeShape) -> bool
    ensures { result ≡ spec.fits_shape value.now (shape_form shape.now) }
{
    match shape {
        TypeShape::Of(constructor, arguments) => {
            are_none(arguments.as_slice()) && is_value_of(value, *constructor)
        }
        _ => false,
    }
}

/// Whether the type is that of the value.
fn fits(value: &ConstantLiteral, of: &KtType) -> bool
    ensures { result ≡ spec.fits value.now (type_form of.now) }
{
    if of.nullable {
        false
    } else {
        fits_shape(value, &of.shape)
    }
}

/// The header with this type and this value.
fn made(
    constant: &ConstantDeclaration,
    annotation: KtType,
    value: ConstantLiteral,
) -> Result<DeclaredConstant, Unresolved>
    ensures { Answers constant_form result
        (Some (spec.form_of (constant_tree constant.now) (type_form annotation) value)) }
{
    Ok(DeclaredConstant {
        at: constant.at,
        name: constant.name.clone()?,
        annotation,
        value,
    })
}

/// The header with this type, where it is that of the value.
fn with_value(
    constant: &ConstantDeclaration,
    annotation: KtType,
    value: ConstantLiteral,
) -> Result<DeclaredConstant, Unresolved>
    ensures { Answers constant_form result
        (spec.with_value (constant_tree constant.now) (type_form annotation) value) }
{
    if fits(&value, &annotation) {
        made(constant, annotation, value)
    } else {
        Err(Unresolved::Refused)
    }
}

/// The header with the type that is written.
fn typed_header(
    alloc: Global,
    constant: &ConstantDeclaration,
    annotation: KtType,
) -> Result<DeclaredConstant, Unresolved>
    ensures { Answers constant_form result
        (spec.typed_header (constant_tree constant.now) (type_form annotation)) }
{
    let value = constant_value(alloc, is_long_type(&annotation), &constant.value)?;
    with_value(constant, annotation, value)
}

/// The header without a type that is written.
fn own_header(alloc: Global, constant: &ConstantDeclaration) -> Result<DeclaredConstant, Unresolved>
    ensures { Answers constant_form result (spec.own_header (constant_tree constant.now)) }
{
    let value = constant_value(alloc, false, &constant.value)?;
    let annotation = KtType::plain(alloc, false, constructor_of(&value));
    made(constant, annotation, value)
}

/// The header with what is written as its type: `Refused` exactly where the value is of no basic type, or of another than
/// the written one.
pub fn constant_header(
    alloc: Global,
    classes: &ClassNames,
    constant: &ConstantDeclaration,
) -> Result<DeclaredConstant, Unresolved>
    ensures { Answers constant_form result
        (spec.constant_header (class_named classes.now) (constant_tree constant.now)
        (maybe_type constant.now.annotation)) }
{
    match &constant.annotation {
        Some(written) => {
            let annotation = resolved(alloc, classes, &[], written)?;
            typed_header(alloc, constant, annotation)
        }
        None => own_header(alloc, constant),
    }
}

/// The header, where it is fine so far.
fn header_if(
    alloc: Global,
    classes: &ClassNames,
    constant: &ConstantDeclaration,
    fine: bool,
) -> Result<DeclaredConstant, Unresolved>
    ensures { Answers constant_form result
        (spec.header_if (class_named classes.now) (constant_tree constant.now) fine) }
{
    if fine {
        constant_header(alloc, classes, constant)
    } else {
        Err(Unresolved::Refused)
    }
}

/// Whether a constant may have this name.
fn is_fine_name(name: &Name, is_free: bool) -> bool
    ensures { result ≡ spec.is_fine_name name.now is_free }
{
    is_free && !is_reserved(name)
}

/// The header of a constant, which takes its name: `Refused` exactly where it breaks a rule.
pub fn top_constant(
    alloc: Global,
    classes: &ClassNames,
    taken: &mut TakenNames,
    constant: &ConstantDeclaration,
) -> Result<DeclaredConstant, Unresolved>
    ensures header { Answers constant_form result
        (spec.top_constant (class_named classes.now) (is_taken taken.old) (constant_tree constant.now)) }
    ensures names { OnOk result ((t : Taken) →
        is_taken taken.new t ≡ rules.and_taken (is_taken taken.old) (a_value constant.now.name) t) }
{
    let is_free = taken.take_value(&constant.name)?;
    let fine = is_fine_name(&constant.name, is_free);
    header_if(alloc, classes, constant, fine)
}
