//! Literals.

ghost use Rattle.kt_check_deciding.specs.Outcomes.{gives_if, there};
ghost use Rattle.kt_check_expressions.specs.Literals.{literal_form};
ghost use Rattle.kt_check_names.specs.Answers.{Answers, Reads};
ghost use Rattle.kt_check_names.specs.Views.{candidates_form, use_form};
ghost use Rattle.kt_check_rules.specs.Literals as spec;
ghost use Rattle.kt_check_rules.specs.Literals.{literal_of, number_if};
ghost use Rattle.kt_check_rules.specs.States.{State};
ghost use Rattle.kt_types_tree.specs.Types.{TypeForms, of, type_form, typed};
ghost use Rattle.std.specs.Prelude.{◌≡◌, ◌≤◌, false, if◌then◌else◌, pos, true};

use kt_check_names::names::one_type;
use kt_check_names::{Candidates, Purpose, Why};
use kt_tree::{Literal, Number};
use kt_typed::{TypedKind, TypedLiteral};
use kt_types_tree::{KtType, TypeConstructor, TypeShape};
use std::alloc::Global;

fn int_of(value: u64) -> i32
    requires { value ≤ 2147483647 }
    ensures { result ≡ pos value }
{
    value as i32
}

fn long_of(value: u64) -> i64
    requires { value ≤ 9223372036854775807 }
    ensures { result ≡ pos value }
{
    value as i64
}

fn is_long_in(constructor: TypeConstructor) -> bool
    ensures plain { (ts : TypeForms) → result ≡ spec.is_long (typed false (of constructor ts)) }
    ensures or_null { (ts : TypeForms) → result ≡ spec.is_long (typed true (of constructor ts)) }
{
    match constructor {
        TypeConstructor::Long => true,
        TypeConstructor::Int => false,
        TypeConstructor::Boolean => false,
        TypeConstructor::Char => false,
        TypeConstructor::String => false,
        TypeConstructor::Unit => false,
        TypeConstructor::IntArray => false,
        TypeConstructor::Array => false,
        TypeConstructor::Continuation => false,
        TypeConstructor::Class(_) => false,
        TypeConstructor::Function(_) => false,
    }
}

/// Whether it is `Long` or `Long?`.
fn is_long(t: &KtType) -> bool
    ensures { result ≡ spec.is_long (type_form t.now) }
{
    if t.nullable {
        return match &t.shape {
            TypeShape::Of(constructor, _) => is_long_in(*constructor),
            TypeShape::Nothing => false,
            TypeShape::Any => false,
            TypeShape::Parameter(_, _) => false,
        };
    }
    match &t.shape {
        TypeShape::Of(constructor, _) => is_long_in(*constructor),
        TypeShape::Nothing => false,
        TypeShape::Any => false,
        TypeShape::Parameter(_, _) => false,
    }
}

/// Whether `Long` or `Long?` is expected.
fn wants_long(purpose: Purpose) -> bool
    ensures { result ≡ spec.wants_long (use_form purpose.entry) }
{
    match purpose {
        Purpose::Meeting(t) => is_long(t),
        Purpose::AsValue => false,
        Purpose::Unused => false,
    }
}

/// Whether a number is a `Long`: where it says so, where it is greater than every `Int`, and where one is expected.
fn is_long_number(purpose: Purpose, long: bool, value: u64) -> bool
    ensures literal { spec.number_of (use_form purpose.entry) long value ≡
        (if result then spec.long_literal value else spec.int_literal value) }
    ensures small { result ≡ false → value ≤ 2147483647 }
{
    if long {
        return true;
    }
    if value <= 2147483647 {
        wants_long(purpose)
    } else {
        true
    }
}

/// A literal with its type.
#[derive(Drop)]
pub struct LiteralType {
    pub literal: TypedLiteral,
    pub shown: KtType,
}

/// A number. One that is greater than every `Long` is refused.
fn number_literal(alloc: Global, purpose: Purpose, number: Number) -> Result<LiteralType, Why>
    ensures { Answers literal_form result (there (number_if (use_form purpose.entry) number.long number.value)) }
{
    match number.value {
        None => Err(Why::Refused),
        Some(value) => {
            if value <= 9223372036854775807 {
                if is_long_number(purpose, number.long, value) {
                    Ok(LiteralType {
                        literal: TypedLiteral::Long(long_of(value)),
                        shown: KtType::plain(alloc, false, TypeConstructor::Long),
                    })
                } else {
                    Ok(LiteralType {
                        literal: TypedLiteral::Int(int_of(value)),
                        shown: KtType::plain(alloc, false, TypeConstructor::Int),
                    })
                }
            } else {
                Err(Why::Refused)
            }
        }
    }
}

/// A literal, for its use.
fn literal_typed(alloc: Global, purpose: Purpose, literal: Literal) -> Result<LiteralType, Why>
    ensures { Answers literal_form result (there (literal_of (use_form purpose.entry) literal)) }
{
    match literal {
        Literal::Number(number) => number_literal(alloc, purpose, number),
        Literal::Character(unit) => Ok(LiteralType {
            literal: TypedLiteral::Char(unit),
            shown: KtType::plain(alloc, false, TypeConstructor::Char),
        }),
        Literal::True => Ok(LiteralType {
            literal: TypedLiteral::Boolean(true),
            shown: KtType::plain(alloc, false, TypeConstructor::Boolean),
        }),
        Literal::False => Ok(LiteralType {
            literal: TypedLiteral::Boolean(false),
            shown: KtType::plain(alloc, false, TypeConstructor::Boolean),
        }),
        Literal::Null => Ok(LiteralType {
            literal: TypedLiteral::Null,
            shown: KtType::nothing(true),
        }),
    }
}

/// A literal.
pub fn literals(alloc: Global, purpose: Purpose, literal: Literal) -> Result<Candidates, Why>
    ensures { (s : State) → Reads candidates_form result s (gives_if (literal_of (use_form purpose.entry) literal) s) }
{
    let LiteralType { literal, shown } = literal_typed(alloc, purpose, literal)?;
    let types = one_type(alloc, shown)?;
    Ok(Candidates {
        kind: TypedKind::Literal(literal),
        types,
    })
}
