//! Operators, over their typed operands.

ghost use Rattle.kt_check_deciding.specs.Expressions as spec;
ghost use Rattle.kt_check_deciding.specs.Outcomes.{found, gives_if, gives_one, there};
ghost use Rattle.kt_check_expressions.specs.Owned.{number_form, operated_form, right_form};
ghost use Rattle.kt_check_expressions.specs.Types as types;
ghost use Rattle.kt_check_expressions.specs.Types.{as_number, operated_pair};
ghost use Rattle.kt_check_operations.specs.Types.{type_given};
ghost use Rattle.kt_check_names.specs.Answers.{Answers, Reads};
ghost use Rattle.kt_check_names.specs.Views.{candidates_form, context_form, kind_form};
ghost use Rattle.kt_check_rules.specs.Choices.{first_some, pairs};
ghost use Rattle.kt_check_rules.specs.Kinds as kinds;
ghost use Rattle.kt_check_rules.specs.Operators as rules;
ghost use Rattle.kt_check_rules.specs.States.{State};
ghost use Rattle.kt_tree.specs.declared.bodies.PrefixOperator.TheVariants.{Negate};
ghost use Rattle.kt_typed.specs.Bodies.{binary, expression_form, prefix};
ghost use Rattle.kt_types_tree.specs.Hierarchy.{hierarchy_form};
ghost use Rattle.kt_types_tree.specs.Types.{type_form};
ghost use Rattle.std.specs.Option.{option_copied};
ghost use Rattle.std.specs.Prelude.{◌≡◌, ◌∷◌, [], IfOk, find, map, option_map};

use kt_check_names::names::one_type;
use kt_check_names::{BodyContext, Candidates, Why};
use kt_check_operations::operations::{Gives, Operation, operation_between, width_of};
use kt_tree::{BinaryOperator, PrefixOperator};
use kt_typed::{TypedExpression, TypedKind, TypedOperator, Width};
use kt_types_tree::{Hierarchy, KtType, TypeConstructor};
use sqlite_items::Boxed;
use std::alloc::Global;

/// An expression with one type.
pub fn one(alloc: Global, kind: TypedKind, t: KtType) -> Result<Candidates, Why>
    ensures { Answers candidates_form result (found (kind_form kind (type_form t) ∷ [])) }
{
    match one_type(alloc, t) {
        Ok(types) => Ok(Candidates { kind, types }),
        Err(_) => {
            drop(kind);
            Err(Why::NoMemory)
        }
    }
}

/// `Int` or `Long`.
fn number_type(alloc: Global, width: Width) -> KtType
    ensures { type_form result ≡ kinds.number_type width }
{
    match width {
        Width::Int => KtType::plain(alloc, false, TypeConstructor::Int),
        Width::Long => KtType::plain(alloc, false, TypeConstructor::Long),
    }
}

/// The type of what an operation gives.
fn type_of(alloc: Global, gives: Gives) -> KtType
    ensures { type_form result ≡ type_given gives }
{
    match gives {
        Gives::Number(width) => number_type(alloc, width),
        Gives::Truth => KtType::plain(alloc, false, TypeConstructor::Boolean),
        Gives::Text => KtType::plain(alloc, false, TypeConstructor::String),
    }
}

/// A type that is a number, with its width.
#[derive(Drop)]
pub struct NumberType {
    pub shown: KtType,
    pub width: Width,
}

/// The first type that is a number.
fn first_number(alloc: Global, candidates: &[KtType]) -> Result<NumberType, Why>
    ensures { Answers number_form result (there (first_some as_number (map type_form candidates.now))) }
{
    for each in candidates {
        match width_of(each) {
            Some(width) => {
                let shown = each.copy(alloc)?;
                return Ok(NumberType { shown, width });
            }
            None => {}
        }
    }
    Err(Why::Refused)
}

/// A right operand's type, with an operation.
#[derive(Clone, Copy)]
pub struct RightType<'a> {
    pub shown: &'a KtType,
    pub operation: Operation,
}

/// The first type of a right operand with which there is an operation.
fn operated_with<'a>(
    h: &Hierarchy,
    operator: BinaryOperator,
    s: &KtType,
    rights: &'a [KtType],
) -> Option<RightType<'a>>
    ensures { option_map (right_form (type_form s.now)) result ≡
        first_some (types.operated (hierarchy_form h.now) operator (type_form s.now)) (map type_form rights.now) }
{
    for shown in rights {
        match operation_between(h, operator, s, shown) {
            Some(operation) => return Some(RightType { shown, operation }),
            None => {}
        }
    }
    None
}

/// Two types, with the operation between them.
#[derive(Drop)]
pub struct OperatedTypes {
    pub left: KtType,
    pub right: KtType,
    pub operation: Operation,
}

fn copies_of(alloc: Global, s: &KtType, right: RightType) -> Result<OperatedTypes, Why>
    ensures { Answers operated_form result (found (right_form (type_form s.now) right.entry)) }
{
    let left = s.copy(alloc)?;
    let copy = right.shown.copy(alloc)?;
    Ok(OperatedTypes {
        left,
        right: copy,
        operation: right.operation,
    })
}

/// The first pair of types between which there is an operation; the choice for the left one counts first.
fn operated_types(
    alloc: Global,
    h: &Hierarchy,
    operator: BinaryOperator,
    lefts: &[KtType],
    rights: &[KtType],
) -> Result<OperatedTypes, Why>
    ensures { Answers operated_form result (there (first_some (operated_pair (hierarchy_form h.now) operator)
        (pairs (map type_form lefts.now) (map type_form rights.now)))) }
{
    for each in lefts {
        match operated_with(h, operator, each, rights) {
            Some(right) => return copies_of(alloc, each, right),
            None => {}
        }
    }
    Err(Why::Refused)
}

/// Two operands, each in a box.
struct Operands {
    left: Boxed<TypedExpression>,
    right: Boxed<TypedExpression>,
}

/// Both, in boxes.
fn boxed_both(alloc: Global, left: TypedExpression, right: TypedExpression) -> Result<Operands, Why>
    ensures { Answers (λ o. o) result (found (record { left = left; right = right })) }
{
    match Boxed::new(alloc, left) {
        Ok(left) => match Boxed::new(alloc, right) {
            Ok(right) => Ok(Operands { left, right }),
            Err(_) => {
                drop(left);
                Err(Why::NoMemory)
            }
        },
        Err(_) => {
            drop(right);
            Err(Why::NoMemory)
        }
    }
}

/// An operation of two operands.
pub fn binary_of(
    alloc: Global,
    operator: TypedOperator,
    t: KtType,
    left: TypedExpression,
    right: TypedExpression,
) -> Result<Candidates, Why>
    ensures { Answers candidates_form result
        (found (binary (type_form t) operator (expression_form left) (expression_form right) ∷ [])) }
{
    let Operands { left, right } = boxed_both(alloc, left, right)?;
    one(alloc, TypedKind::Binary(operator, left, right), t)
}

/// An operator in front of an operand.
pub fn prefix_of(
    alloc: Global,
    operator: PrefixOperator,
    t: KtType,
    operand: TypedExpression,
) -> Result<Candidates, Why>
    ensures { Answers candidates_form result
        (found (prefix (type_form t) operator (expression_form operand) ∷ [])) }
{
    let operand = Boxed::new(alloc, operand)?;
    one(alloc, TypedKind::Prefix(operator, operand), t)
}

/// `-` before an operand: the first of its types that is a number.
pub fn negated(alloc: Global, r: Candidates) -> Result<Candidates, Why>
    ensures { (s : State) → Reads candidates_form result s
        (gives_if (first_some rules.negated (candidates_form r)) s) }
{
    let Candidates { kind, types } = r;
    match first_number(alloc, types.as_slice()) {
        Ok(number) => {
            let t = number_type(alloc, number.width);
            let operand = TypedExpression {
                of_type: number.shown,
                kind,
            };
            prefix_of(alloc, PrefixOperator::Negate, t, operand)
        }
        Err(why) => {
            drop(kind);
            Err(why)
        }
    }
}

/// An operator between two operands that are both evaluated.
pub fn operated(
    alloc: Global,
    c: &BodyContext,
    operator: BinaryOperator,
    left: Candidates,
    right: Candidates,
) -> Result<Candidates, Why>
    ensures { (s : State) → Reads candidates_form result s (gives_if
        (spec.operated (context_form c.now) operator (candidates_form left) (candidates_form right)) s) }
{
    let Candidates {
        kind: left_kind,
        types: lefts,
    } = left;
    let Candidates {
        kind: right_kind,
        types: rights,
    } = right;
    match operated_types(
        alloc,
        &c.headers.hierarchy,
        operator,
        lefts.as_slice(),
        rights.as_slice(),
    ) {
        Ok(chosen) => {
            let t = type_of(alloc, chosen.operation.gives);
            let left = TypedExpression {
                of_type: chosen.left,
                kind: left_kind,
            };
            let right = TypedExpression {
                of_type: chosen.right,
                kind: right_kind,
            };
            binary_of(alloc, chosen.operation.operator, t, left, right)
        }
        Err(why) => {
            drop(left_kind);
            drop(right_kind);
            Err(why)
        }
    }
}
