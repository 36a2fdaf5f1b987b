//! The facts that a test gives where it holds, and where it doesn't.

ghost use Rattle.kt_check_rules.specs.Kinds as kinds;
ghost use Rattle.kt_check_rules.specs.Completion.{is_null_literal};
ghost use Rattle.kt_check_rules.specs.Operators as operators;
ghost use Rattle.kt_check_rules.specs.Learning.{learn_of, learn_present, learn_stable, learn_unequal, learnt};
ghost use Rattle.kt_flow.specs.Facts.{meet};
ghost use Rattle.kt_flow.specs.Rows.{facts_form};
ghost use Rattle.kt_typed.specs.Bodies.{expression_form};
ghost use Rattle.kt_typed.specs.Operators.{local_form};
ghost use Rattle.kt_types.specs.Null.{bare};
ghost use Rattle.kt_types_tree.specs.Hierarchy.{hierarchy_form};
ghost use Rattle.kt_types_tree.specs.Types.{parameter, shape_form, type_form, typed};
ghost use Rattle.std.specs.Prelude.{◌≡◌, ℕ, IfOk, false, map, not, slice_get};

use kt_base::NoMemory;
use kt_check_names::facts::copy_facts;
use kt_check_names::names::is_stable;
use kt_check_operations::nulls::present_type;
use kt_flow::Facts;
use kt_tree::PrefixOperator;
use kt_typed::{TypedExpression, TypedKind, TypedLiteral, TypedLocal, TypedOperator};
use kt_types_tree::{Hierarchy, KtType, TypeShape};
use sqlite_items::at;
use std::alloc::Global;

/// A local that is no `var` has a type.
fn learn_stable(
    locals: &[TypedLocal],
    number: u32,
    t: &KtType,
    facts: Facts,
) -> Result<Facts, NoMemory>
    ensures { IfOk result (λ f. facts_form f ≡
        learn_stable number (slice_get (map local_form locals.now) number) (type_form t.now) (facts_form facts)) }
{
    let mut facts = facts;
    match at(locals, number as usize) {
        Some(local) => {
            if is_stable(local.kind) {
                facts.learn(number, t)?;
            }
            Ok(facts)
        }
        None => Ok(facts),
    }
}

/// An expression that is a local has a type.
fn learn_of(
    locals: &[TypedLocal],
    e: &TypedExpression,
    t: &KtType,
    facts: Facts,
) -> Result<Facts, NoMemory>
    ensures { IfOk result (λ f. facts_form f ≡
        learn_of (map local_form locals.now) (expression_form e.now) (type_form t.now) (facts_form facts)) }
{
    match &e.kind {
        TypedKind::Local(number) => learn_stable(locals, *number, t, facts),
        TypedKind::Literal(_)
        | TypedKind::Template(_)
        | TypedKind::Captured(_)
        | TypedKind::This
        | TypedKind::Constant(_)
        | TypedKind::EnumEntry(_, _)
        | TypedKind::Property(_, _)
        | TypedKind::Prefix(_, _)
        | TypedKind::Binary(_, _, _)
        | TypedKind::TypeTest(_, _, _)
        | TypedKind::Cast(_, _, _)
        | TypedKind::NotNull(_)
        | TypedKind::Index(_, _)
        | TypedKind::Call(_)
        | TypedKind::If(_, _, _)
        | TypedKind::When(_, _)
        | TypedKind::Try(_, _, _)
        | TypedKind::Throw(_)
        | TypedKind::Return(_)
        | TypedKind::Break
        | TypedKind::Continue
        | TypedKind::Lambda(_, _) => Ok(facts),
    }
}

/// An expression that is a local isn't null.
fn learn_present(
    alloc: Global,
    h: &Hierarchy,
    locals: &[TypedLocal],
    e: &TypedExpression,
    facts: Facts,
) -> Result<Facts, NoMemory>
    ensures { IfOk result (λ f. facts_form f ≡
        learn_present (hierarchy_form h.now) (map local_form locals.now) (expression_form e.now) (facts_form facts)) }
{
    match &e.kind {
        TypedKind::Local(number) => {
            let t = present_type(alloc, h, &e.of_type)?;
            learn_stable(locals, *number, &t, facts)
        }
        TypedKind::Literal(_)
        | TypedKind::Template(_)
        | TypedKind::Captured(_)
        | TypedKind::This
        | TypedKind::Constant(_)
        | TypedKind::EnumEntry(_, _)
        | TypedKind::Property(_, _)
        | TypedKind::Prefix(_, _)
        | TypedKind::Binary(_, _, _)
        | TypedKind::TypeTest(_, _, _)
        | TypedKind::Cast(_, _, _)
        | TypedKind::NotNull(_)
        | TypedKind::Index(_, _)
        | TypedKind::Call(_)
        | TypedKind::If(_, _, _)
        | TypedKind::When(_, _)
        | TypedKind::Try(_, _, _)
        | TypedKind::Throw(_)
        | TypedKind::Return(_)
        | TypedKind::Break
        | TypedKind::Continue
        | TypedKind::Lambda(_, _) => Ok(facts),
    }
}

/// Whether it is the literal `null`.
pub fn is_null(e: &TypedExpression) -> bool
    ensures literal { result ≡ is_null_literal (expression_form e.now) }
    ensures operand { result ≡ operators.is_null (expression_form e.now) }
{
    match &e.kind {
        TypedKind::Literal(literal) => match literal {
            TypedLiteral::Null => true,
            TypedLiteral::Int(_) => false,
            TypedLiteral::Long(_) => false,
            TypedLiteral::Boolean(_) => false,
            TypedLiteral::Char(_) => false,
        },
        TypedKind::Template(_)
        | TypedKind::Local(_)
        | TypedKind::Captured(_)
        | TypedKind::This
        | TypedKind::Constant(_)
        | TypedKind::EnumEntry(_, _)
        | TypedKind::Property(_, _)
        | TypedKind::Prefix(_, _)
        | TypedKind::Binary(_, _, _)
        | TypedKind::TypeTest(_, _, _)
        | TypedKind::Cast(_, _, _)
        | TypedKind::NotNull(_)
        | TypedKind::Index(_, _)
        | TypedKind::Call(_)
        | TypedKind::If(_, _, _)
        | TypedKind::When(_, _)
        | TypedKind::Try(_, _, _)
        | TypedKind::Throw(_)
        | TypedKind::Return(_)
        | TypedKind::Break
        | TypedKind::Continue
        | TypedKind::Lambda(_, _) => false,
    }
}

/// Two expressions differ.
fn learn_unequal(
    alloc: Global,
    h: &Hierarchy,
    locals: &[TypedLocal],
    a: &TypedExpression,
    b: &TypedExpression,
    facts: Facts,
) -> Result<Facts, NoMemory>
    ensures { IfOk result (λ f. facts_form f ≡ learn_unequal (hierarchy_form h.now) (map local_form locals.now)
        (expression_form a.now) (expression_form b.now) (facts_form facts)) }
{
    if is_null(b) {
        learn_present(alloc, h, locals, a, facts)
    } else if is_null(a) {
        learn_present(alloc, h, locals, b, facts)
    } else {
        Ok(facts)
    }
}

/// The facts behind a test that holds, or doesn't. The test stands first, since the recursion goes by it.
#[cycle(learning)]
fn learned_by(
    e: &TypedExpression,
    alloc: Global,
    h: &Hierarchy,
    locals: &[TypedLocal],
    holds: bool,
    facts: Facts,
) -> Result<Facts, NoMemory>
    ensures { IfOk result (λ f. facts_form f ≡ learnt (hierarchy_form h.now) (map local_form locals.now) holds
        (expression_form e.now) (facts_form facts)) }
{
    match &e.kind {
        TypedKind::Binary(operator, a, b) => match operator {
            TypedOperator::Conjunction => {
                if holds {
                    let first = learned_by(a.get(), alloc, h, locals, true, facts)?;
                    learned_by(b.get(), alloc, h, locals, true, first)
                } else {
                    let parted = parted_by(a.get(), alloc, h, locals, false, facts)?;
                    met_behind(b.get(), alloc, h, locals, false, parted)
                }
            }
            TypedOperator::Disjunction => {
                if holds {
                    let parted = parted_by(a.get(), alloc, h, locals, true, facts)?;
                    met_behind(b.get(), alloc, h, locals, true, parted)
                } else {
                    let first = learned_by(a.get(), alloc, h, locals, false, facts)?;
                    learned_by(b.get(), alloc, h, locals, false, first)
                }
            }
            TypedOperator::Equal => {
                if holds {
                    Ok(facts)
                } else {
                    learn_unequal(alloc, h, locals, a.get(), b.get(), facts)
                }
            }
            TypedOperator::NotEqual => {
                if holds {
                    learn_unequal(alloc, h, locals, a.get(), b.get(), facts)
                } else {
                    Ok(facts)
                }
            }
            TypedOperator::Elvis
            | TypedOperator::Concatenate
            | TypedOperator::Arithmetic(_, _)
            | TypedOperator::Bitwise(_, _)
            | TypedOperator::Shift(_, _)
            | TypedOperator::Compare(_, _) => Ok(facts),
        },
        TypedKind::Prefix(operator, e) => match operator {
            PrefixOperator::Not => learned_by(e.get(), alloc, h, locals, !holds, facts),
            PrefixOperator::Negate => Ok(facts),
        },
        TypedKind::TypeTest(e, is_negated, t) => {
            if holds {
                if *is_negated {
                    Ok(facts)
                } else {
                    learn_of(locals, e.get(), t, facts)
                }
            } else {
                if *is_negated {
                    learn_of(locals, e.get(), t, facts)
                } else {
                    Ok(facts)
                }
            }
        }
        TypedKind::Literal(_)
        | TypedKind::Template(_)
        | TypedKind::Local(_)
        | TypedKind::Captured(_)
        | TypedKind::This
        | TypedKind::Constant(_)
        | TypedKind::EnumEntry(_, _)
        | TypedKind::Property(_, _)
        | TypedKind::Cast(_, _, _)
        | TypedKind::NotNull(_)
        | TypedKind::Index(_, _)
        | TypedKind::Call(_)
        | TypedKind::If(_, _, _)
        | TypedKind::When(_, _)
        | TypedKind::Try(_, _, _)
        | TypedKind::Throw(_)
        | TypedKind::Return(_)
        | TypedKind::Break
        | TypedKind::Continue
        | TypedKind::Lambda(_, _) => Ok(facts),
    }
}

/// The facts behind a test as it was asked for, and those behind it otherwise.
#[derive(Drop)]
pub struct Parted {
    pub first: Facts,
    pub otherwise: Facts,
}

/// Both, behind one test.
#[cycle(learning)]
fn parted_by(
    e: &TypedExpression,
    alloc: Global,
    h: &Hierarchy,
    locals: &[TypedLocal],
    holds: bool,
    facts: Facts,
) -> Result<Parted, NoMemory>
    ensures first { IfOk result (λ p. facts_form p.first ≡ learnt (hierarchy_form h.now) (map local_form locals.now)
        holds (expression_form e.now) (facts_form facts)) }
    ensures other { IfOk result (λ p. facts_form p.otherwise ≡ learnt (hierarchy_form h.now) (map local_form locals.now)
        (not holds) (expression_form e.now) (facts_form facts)) }
{
    let copy = copy_facts(&facts)?;
    let first = learned_by(e, alloc, h, locals, holds, copy)?;
    let otherwise = learned_by(e, alloc, h, locals, !holds, facts)?;
    Ok(Parted { first, otherwise })
}

/// Where one of two tests is as asked for: the first, or the second where the first is otherwise.
#[cycle(learning)]
fn met_behind(
    e: &TypedExpression,
    alloc: Global,
    h: &Hierarchy,
    locals: &[TypedLocal],
    holds: bool,
    parted: Parted,
) -> Result<Facts, NoMemory>
    ensures { IfOk result (λ f. facts_form f ≡ meet (facts_form parted.first)
        (learnt (hierarchy_form h.now) (map local_form locals.now) holds (expression_form e.now)
        (facts_form parted.otherwise))) }
{
    let second = learned_by(e, alloc, h, locals, holds, parted.otherwise)?;
    parted.first.meet(&second)
}

/// The facts behind a test that holds, or doesn't.
pub fn learned(
    alloc: Global,
    h: &Hierarchy,
    locals: &[TypedLocal],
    holds: bool,
    e: &TypedExpression,
    facts: Facts,
) -> Result<Facts, NoMemory>
    ensures { IfOk result (λ f. facts_form f ≡ learnt (hierarchy_form h.now) (map local_form locals.now) holds
        (expression_form e.now) (facts_form facts)) }
{
    learned_by(e, alloc, h, locals, holds, facts)
}
