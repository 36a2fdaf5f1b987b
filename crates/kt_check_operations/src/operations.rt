//! The operation that an operator is between two types.

ghost use Rattle.kt_check_operations.specs.Types.{bits_of, operation_form, shift_of};
ghost use Rattle.kt_check_rules.specs.Kinds as kinds;
ghost use Rattle.kt_check_rules.specs.Operators as spec;
ghost use Rattle.kt_types_tree.specs.Hierarchy.{hierarchy_form};
ghost use Rattle.kt_types_tree.specs.Types.{TypeForms, of, type_form, typed};
ghost use Rattle.kt_typed.specs.declared.operators.BitwiseOperator.{BitwiseOperator};
ghost use Rattle.kt_typed.specs.declared.operators.ShiftOperator.{ShiftOperator};
ghost use Rattle.std.specs.Prelude.{◌≡◌, ◌&&◌, false, option_map};

use kt_tree::BinaryOperator;
use kt_typed::{
    ArithmeticOperator, BitwiseOperator, ComparisonOperator, Ordered, ShiftOperator, TypedOperator,
    Width,
};
use kt_types::kinds::is_printable;
use kt_types_tree::{Hierarchy, KtType, TypeConstructor, TypeShape};

/// What an operation gives.
#[derive(Clone, Copy)]
pub enum Gives {
    Number(Width),
    Truth,
    Text,
}

/// An operation, and what it gives.
#[derive(Clone, Copy)]
pub struct Operation {
    pub operator: TypedOperator,
    pub gives: Gives,
}

/// The width of `Int` and `Long`.
fn width_in(constructor: TypeConstructor) -> Option<Width>
    ensures { (ts : TypeForms) → result ≡ kinds.width_of (typed false (of constructor ts)) }
{
    match constructor {
        TypeConstructor::Int => Some(Width::Int),
        TypeConstructor::Long => Some(Width::Long),
        TypeConstructor::Boolean => None,
        TypeConstructor::Char => None,
        TypeConstructor::String => None,
        TypeConstructor::Unit => None,
        TypeConstructor::IntArray => None,
        TypeConstructor::Array => None,
        TypeConstructor::Continuation => None,
        TypeConstructor::Class(_) => None,
        TypeConstructor::Function(_) => None,
    }
}

/// The width of a type without `?` that is `Int` or `Long`.
pub fn width_of(t: &KtType) -> Option<Width>
    ensures { result ≡ kinds.width_of (type_form t.now) }
{
    if t.nullable {
        return None;
    }
    match &t.shape {
        TypeShape::Of(constructor, _) => width_in(*constructor),
        TypeShape::Nothing => None,
        TypeShape::Any => None,
        TypeShape::Parameter(_, _) => None,
    }
}

/// `Int` beside `Long` gives `Long`.
fn wider(left: Width, right: Width) -> Width
    ensures { result ≡ spec.wider left right }
{
    match left {
        Width::Int => match right {
            Width::Int => Width::Int,
            Width::Long => Width::Long,
        },
        Width::Long => Width::Long,
    }
}

/// An operation on two numbers.
fn computed(operator: ArithmeticOperator, s: &KtType, t: &KtType) -> Option<Operation>
    ensures { option_map operation_form result ≡ spec.computed operator (type_form s.now) (type_form t.now) }
{
    match width_of(s) {
        Some(left) => match width_of(t) {
            Some(right) => {
                let width = wider(left, right);
                Some(Operation {
                    operator: TypedOperator::Arithmetic(operator, width),
                    gives: Gives::Number(width),
                })
            }
            None => None,
        },
        None => None,
    }
}

fn is_string_in(constructor: TypeConstructor) -> bool
    ensures { (ts : TypeForms) → result ≡ spec.is_string (typed false (of constructor ts)) }
{
    match constructor {
        TypeConstructor::Int => false,
        TypeConstructor::Long => false,
        TypeConstructor::Boolean => false,
        TypeConstructor::Char => false,
        TypeConstructor::String => true,
        TypeConstructor::Unit => false,
        TypeConstructor::IntArray => false,
        TypeConstructor::Array => false,
        TypeConstructor::Continuation => false,
        TypeConstructor::Class(_) => false,
        TypeConstructor::Function(_) => false,
    }
}

/// Whether it is `String`.
fn is_string(t: &KtType) -> bool
    ensures { result ≡ spec.is_string (type_form t.now) }
{
    if t.nullable {
        return false;
    }
    match &t.shape {
        TypeShape::Of(constructor, _) => is_string_in(*constructor),
        TypeShape::Nothing => false,
        TypeShape::Any => false,
        TypeShape::Parameter(_, _) => false,
    }
}

fn is_character_in(constructor: TypeConstructor) -> bool
    ensures { (ts : TypeForms) → result ≡ spec.is_character (typed false (of constructor ts)) }
{
    match constructor {
        TypeConstructor::Int => false,
        TypeConstructor::Long => false,
        TypeConstructor::Boolean => false,
        TypeConstructor::Char => true,
        TypeConstructor::String => false,
        TypeConstructor::Unit => false,
        TypeConstructor::IntArray => false,
        TypeConstructor::Array => false,
        TypeConstructor::Continuation => false,
        TypeConstructor::Class(_) => false,
        TypeConstructor::Function(_) => false,
    }
}

/// Whether it is `Char`.
fn is_character(t: &KtType) -> bool
    ensures { result ≡ spec.is_character (type_form t.now) }
{
    if t.nullable {
        return false;
    }
    match &t.shape {
        TypeShape::Of(constructor, _) => is_character_in(*constructor),
        TypeShape::Nothing => false,
        TypeShape::Any => false,
        TypeShape::Parameter(_, _) => false,
    }
}

/// `+`: a string and what can be printed, else two numbers.
fn added(h: &Hierarchy, s: &KtType, t: &KtType) -> Option<Operation>
    ensures { option_map operation_form result ≡
        spec.added (hierarchy_form h.now) (type_form s.now) (type_form t.now) }
{
    if is_string(s) {
        if is_printable(h, t) {
            Some(Operation {
                operator: TypedOperator::Concatenate,
                gives: Gives::Text,
            })
        } else {
            None
        }
    } else {
        computed(ArithmeticOperator::Plus, s, t)
    }
}

/// The width, where both have one and it is the same.
fn same_width(left: Option<Width>, right: Option<Width>) -> Option<Width>
    ensures { (b : BitwiseOperator) → spec.same_width b left right ≡ option_map (bits_of b) result }
{
    match left {
        Some(Width::Int) => match right {
            Some(Width::Int) => Some(Width::Int),
            Some(Width::Long) => None,
            None => None,
        },
        Some(Width::Long) => match right {
            Some(Width::Int) => None,
            Some(Width::Long) => Some(Width::Long),
            None => None,
        },
        None => None,
    }
}

/// The width of the left, where the right is `Int`.
fn by_count(left: Option<Width>, right: Option<Width>) -> Option<Width>
    ensures { (d : ShiftOperator) → spec.by_count d left right ≡ option_map (shift_of d) result }
{
    match left {
        Some(width) => match right {
            Some(Width::Int) => Some(width),
            Some(Width::Long) => None,
            None => None,
        },
        None => None,
    }
}

/// An operation on the bits of two values of one width.
fn joined_bits(operator: BitwiseOperator, s: &KtType, t: &KtType) -> Option<Operation>
    ensures { option_map operation_form result ≡ spec.joined_bits operator (type_form s.now) (type_form t.now) }
{
    match same_width(width_of(s), width_of(t)) {
        Some(width) => Some(Operation {
            operator: TypedOperator::Bitwise(operator, width),
            gives: Gives::Number(width),
        }),
        None => None,
    }
}

/// A shift, whose count is an `Int`.
fn shifted(operator: ShiftOperator, s: &KtType, t: &KtType) -> Option<Operation>
    ensures { option_map operation_form result ≡ spec.shifted operator (type_form s.now) (type_form t.now) }
{
    match by_count(width_of(s), width_of(t)) {
        Some(width) => Some(Operation {
            operator: TypedOperator::Shift(operator, width),
            gives: Gives::Number(width),
        }),
        None => None,
    }
}

fn are_characters(s: &KtType, t: &KtType) -> bool
    ensures { result ≡ (spec.is_character (type_form s.now) && spec.is_character (type_form t.now)) }
{
    is_character(s) && is_character(t)
}

/// An order of two numbers, or of two characters.
fn compared(operator: ComparisonOperator, s: &KtType, t: &KtType) -> Option<Operation>
    ensures { option_map operation_form result ≡ spec.compared operator (type_form s.now) (type_form t.now) }
{
    if are_characters(s, t) {
        return Some(Operation {
            operator: TypedOperator::Compare(operator, Ordered::Characters),
            gives: Gives::Truth,
        });
    }
    match width_of(s) {
        Some(left) => match width_of(t) {
            Some(right) => Some(Operation {
                operator: TypedOperator::Compare(operator, Ordered::Numbers(wider(left, right))),
                gives: Gives::Truth,
            }),
            None => None,
        },
        None => None,
    }
}

/// The operation that an operator is between two types.
pub fn operation_between(
    h: &Hierarchy,
    operator: BinaryOperator,
    s: &KtType,
    t: &KtType,
) -> Option<Operation>
    ensures { option_map operation_form result ≡
        spec.operation (hierarchy_form h.now) operator (type_form s.now) (type_form t.now) }
{
    match operator {
        BinaryOperator::Plus => added(h, s, t),
        BinaryOperator::Minus => computed(ArithmeticOperator::Minus, s, t),
        BinaryOperator::Times => computed(ArithmeticOperator::Times, s, t),
        BinaryOperator::Divide => computed(ArithmeticOperator::Divide, s, t),
        BinaryOperator::Remainder => computed(ArithmeticOperator::Remainder, s, t),
        BinaryOperator::And => joined_bits(BitwiseOperator::And, s, t),
        BinaryOperator::Or => joined_bits(BitwiseOperator::Or, s, t),
        BinaryOperator::Xor => joined_bits(BitwiseOperator::Xor, s, t),
        BinaryOperator::Shl => shifted(ShiftOperator::Shl, s, t),
        BinaryOperator::Shr => shifted(ShiftOperator::Shr, s, t),
        BinaryOperator::Ushr => shifted(ShiftOperator::Ushr, s, t),
        BinaryOperator::Less => compared(ComparisonOperator::Less, s, t),
        BinaryOperator::Greater => compared(ComparisonOperator::Greater, s, t),
        BinaryOperator::LessOrEqual => compared(ComparisonOperator::LessOrEqual, s, t),
        BinaryOperator::GreaterOrEqual => compared(ComparisonOperator::GreaterOrEqual, s, t),
        BinaryOperator::Disjunction => None,
        BinaryOperator::Conjunction => None,
        BinaryOperator::Equal => None,
        BinaryOperator::NotEqual => None,
        BinaryOperator::Elvis => None,
    }
}
