//! Expressions begin, and go on behind the values of their operands.

ghost use Rattle.kt_direct_frames.specs.Frames.{Leads};
ghost use Rattle.kt_direct_frames.specs.Operands as spec;
ghost use Rattle.kt_direct_scope.specs.Activation.{here_form};
ghost use Rattle.kt_direct_values.specs.Forms.{store_form, value_form};
ghost use Rattle.kt_meaning.specs.Access as access;
ghost use Rattle.kt_meaning.specs.Activations.{Activation};
ghost use Rattle.kt_meaning.specs.Eval as eval;
ghost use Rattle.kt_meaning.specs.Eval.{value_of};
ghost use Rattle.kt_meaning.specs.Operators as operators;
ghost use Rattle.kt_typed.specs.Bodies.{expression_form, receiver_form};
ghost use Rattle.kt_typed.specs.Units.{unit_form};
ghost use Rattle.kt_values.specs.Runs.{Run, Store, give, then_do};
ghost use Rattle.kt_values.specs.Values as v;
ghost use Rattle.kt_values.specs.Values.{Value};
ghost use Rattle.std.specs.Prelude.{◌≡◌, cond};

use kt_direct_arrays::element;
use kt_direct_classes::is_tested;
use kt_direct_frames::{AfterComparison, AfterOperand, AfterText, Awaiting, Frame, Next, Part};
use kt_direct_objects::read_property;
use kt_direct_operators::{arithmetic, as_truth, asserted, bitwise, compared, prefixed, shifted};
use kt_direct_parts::cast_to;
use kt_direct_scope::Here;
use kt_direct_values::{Abrupt, DirectStore, DirectValue, Stop};
use kt_typed::{Receiver, TypedExpression, TypedKind, TypedLiteral, TypedOperator, TypedProperty};
use std::alloc::Global;

/// An operand runs first.
pub fn operand<'a>(e: &'a TypedExpression, after: AfterOperand<'a>) -> Next<'a>
    ensures { (here : Activation) (s : Store) → Leads here result s
        (then_do (value_of here (expression_form e.now) s) (spec.after_operand here after.entry)) }
{
    Next::First(Part::Expression(e), Frame::Value(Awaiting::Operand(after)))
}

/// Whether an expression is the literal `null`.
pub fn is_null_literal(e: &TypedExpression) -> bool
    ensures { result ≡ eval.is_null_literal (expression_form e.now) }
{
    match &e.kind {
        TypedKind::Literal(literal) => match literal {
            TypedLiteral::Null => true,
            TypedLiteral::Int(_)
            | TypedLiteral::Long(_)
            | TypedLiteral::Boolean(_)
            | TypedLiteral::Char(_) => false,
        },
        TypedKind::Template(_)
        | TypedKind::Local(_)
        | TypedKind::Captured(_)
        | TypedKind::This
        | TypedKind::Constant(_)
        | TypedKind::EnumEntry(_, _)
        | TypedKind::Property(_, _)
        | TypedKind::Prefix(_, _)
        | TypedKind::Binary(_, _, _)
        | TypedKind::TypeTest(_, _, _)
        | TypedKind::Cast(_, _, _)
        | TypedKind::NotNull(_)
        | TypedKind::Index(_, _)
        | TypedKind::Call(_)
        | TypedKind::If(_, _, _)
        | TypedKind::When(_, _)
        | TypedKind::Try(_, _, _)
        | TypedKind::Throw(_)
        | TypedKind::Return(_)
        | TypedKind::Break
        | TypedKind::Continue
        | TypedKind::Lambda(_, _) => false,
    }
}

/// Whether one of the operands is the literal `null`.
fn compares_null(left: &TypedExpression, right: &TypedExpression) -> bool
    ensures { result ≡ eval.compares_null (expression_form left.now) (expression_form right.now) }
{
    if is_null_literal(left) {
        return true;
    }
    is_null_literal(right)
}

/// An operator with its operands.
#[tactic(auto, using(crate::proofs::Lefts::left_first))]
pub fn binary<'a>(
    operator: TypedOperator,
    left: &'a TypedExpression,
    right: &'a TypedExpression,
) -> Next<'a>
    ensures { let a = expression_form left.now in let b = expression_form right.now in
        (here : Activation) (s : Store) → Leads here result s
        (operators.operation here operator (eval.compares_null a b) (value_of here a) (value_of here b) s) }
{
    let null = compares_null(left, right);
    Next::First(
        Part::Expression(left),
        Frame::Value(Awaiting::Operand(AfterOperand::Left(operator, null, right))),
    )
}

/// A property of a value.
fn property_of<'a>(
    alloc: Global,
    here: &Here<'a>,
    p: TypedProperty,
    x: &DirectValue,
    store: &DirectStore<'_>,
) -> Next<'a>
    ensures { (h : Activation) → h.unit ≡ unit_form here.now.unit.now → Leads h result (store_form store.now)
        (access.read_property h.unit p (value_form x.now) (store_form store.now)) }
{
    Next::Ended(read_property(alloc, here.unit, p, x, store))
}

/// A property of `this`.
fn own_property<'a>(
    alloc: Global,
    here: &Here<'a>,
    p: TypedProperty,
    store: &DirectStore<'_>,
) -> Next<'a>
    ensures { let h = here_form here.now in Leads h result (store_form store.now)
        (access.read_property h.unit p h.receiver (store_form store.now)) }
{
    match here.receiver(alloc) {
        Ok(x) => property_of(alloc, here, p, &x, store),
        Err(_) => Next::Ended(Err(Abrupt::NoMemory)),
    }
}

/// A property of a receiver.
pub fn property<'a>(
    alloc: Global,
    here: &Here<'a>,
    receiver: &'a Receiver,
    p: TypedProperty,
    store: &DirectStore<'_>,
) -> Next<'a>
    ensures { let h = here_form here.now in Leads h result (store_form store.now)
        (eval.on_receiver h (receiver_form receiver.now) (access.read_property h.unit p) (store_form store.now)) }
{
    match receiver {
        Receiver::Implicit => own_property(alloc, here, p, store),
        Receiver::Plain(object) => operand(object.get(), AfterOperand::Property(false, p)),
        Receiver::Safe(object) => operand(object.get(), AfterOperand::Property(true, p)),
    }
}

/// Behind the left operand.
fn after_left<'a>(
    operator: TypedOperator,
    null: bool,
    right: &'a TypedExpression,
    x: DirectValue,
) -> Next<'a>
    ensures { (here : Activation) (s : Store) → Leads here result s
        (spec.with_left here operator null (value_of here (expression_form right.now)) (value_form x) s) }
{
    match operator {
        TypedOperator::Disjunction => match as_truth(&x) {
            Some(b) => {
                if b {
                    Next::Ended(Ok(DirectValue::Truth(true)))
                } else {
                    Next::Part(Part::Expression(right))
                }
            }
            None => Next::Ended(Err(Abrupt::Stopped(Stop::Unfit))),
        },
        TypedOperator::Conjunction => match as_truth(&x) {
            Some(b) => {
                if b {
                    Next::Part(Part::Expression(right))
                } else {
                    Next::Ended(Ok(DirectValue::Truth(false)))
                }
            }
            None => Next::Ended(Err(Abrupt::Stopped(Stop::Unfit))),
        },
        TypedOperator::Elvis => elvis(right, x),
        TypedOperator::Equal => operand(right, AfterOperand::Right(operator, null, x)),
        TypedOperator::NotEqual => operand(right, AfterOperand::Right(operator, null, x)),
        TypedOperator::Concatenate => operand(right, AfterOperand::Right(operator, null, x)),
        TypedOperator::Arithmetic(_, _) => operand(right, AfterOperand::Right(operator, null, x)),
        TypedOperator::Bitwise(_, _) => operand(right, AfterOperand::Right(operator, null, x)),
        TypedOperator::Shift(_, _) => operand(right, AfterOperand::Right(operator, null, x)),
        TypedOperator::Compare(_, _) => operand(right, AfterOperand::Right(operator, null, x)),
    }
}

/// `?:` behind its left side.
fn elvis<'a>(right: &'a TypedExpression, x: DirectValue) -> Next<'a>
    ensures { (here : Activation) (s : Store) → Leads here result s
        (operators.if_null (value_of here (expression_form right.now)) (value_form x) s) }
{
    match x {
        DirectValue::Null => Next::Part(Part::Expression(right)),
        DirectValue::Int(_)
        | DirectValue::Long(_)
        | DirectValue::Truth(_)
        | DirectValue::Character(_)
        | DirectValue::Text(_)
        | DirectValue::Unit
        | DirectValue::Entry(_, _)
        | DirectValue::Cell(_)
        | DirectValue::Closure(_, _)
        | DirectValue::Reference(_, _) => Next::Ended(Ok(x)),
    }
}

/// An operator on two values.
#[tactic(auto, using(kt_direct_frames::proofs::Binding::through_text, kt_direct_frames::proofs::Binding::through_truth))]
pub fn operation<'a>(
    alloc: Global,
    operator: TypedOperator,
    null: bool,
    x: DirectValue,
    y: DirectValue,
    store: &mut DirectStore<'_>,
) -> Next<'a>
    ensures { (here : Activation) → Leads here result (store_form store.new)
        (operators.applied here operator null (value_form x) (value_form y) (store_form store.old)) }
{
    match operator {
        TypedOperator::Equal => Next::Part(Part::Comparison(null, x, y)),
        TypedOperator::NotEqual => Next::First(
            Part::Comparison(null, x, y),
            Frame::Value(Awaiting::Comparison(AfterComparison::Not)),
        ),
        TypedOperator::Concatenate => {
            Next::First(
                Part::Text(x),
                Frame::Value(Awaiting::Text(AfterText::Left(y))),
            )
        }
        TypedOperator::Arithmetic(o, w) => Next::Ended(arithmetic(alloc, o, w, &x, &y, store)),
        TypedOperator::Bitwise(o, w) => Next::Ended(bitwise(o, w, &x, &y)),
        TypedOperator::Shift(o, w) => Next::Ended(shifted(o, w, &x, &y)),
        TypedOperator::Compare(o, kind) => Next::Ended(compared(o, kind, &x, &y)),
        TypedOperator::Disjunction | TypedOperator::Conjunction | TypedOperator::Elvis => {
            Next::Ended(Err(Abrupt::Stopped(Stop::Unfit)))
        }
    }
}

/// Whether nothing is done with a receiver: it is null, and stands before `?.`, which the first says.
pub fn is_skipped(safe: bool, x: &DirectValue) -> bool
    ensures { (go : Value → Run Value) →
        spec.received safe go (value_form x.now) ≡ cond result (give v.null) (go (value_form x.now)) }
{
    if !safe {
        return false;
    }
    match x {
        DirectValue::Null => true,
        DirectValue::Int(_)
        | DirectValue::Long(_)
        | DirectValue::Truth(_)
        | DirectValue::Character(_)
        | DirectValue::Text(_)
        | DirectValue::Unit
        | DirectValue::Entry(_, _)
        | DirectValue::Cell(_)
        | DirectValue::Closure(_, _)
        | DirectValue::Reference(_, _) => false,
    }
}

/// A property behind its receiver, which is behind `?.` where the first is true.
fn after_receiver<'a>(
    alloc: Global,
    here: &Here<'a>,
    safe: bool,
    p: TypedProperty,
    x: &DirectValue,
    store: &DirectStore<'_>,
) -> Next<'a>
    ensures { (h : Activation) → h.unit ≡ unit_form here.now.unit.now → Leads h result (store_form store.now)
        (spec.received safe (access.read_property h.unit p) (value_form x.now) (store_form store.now)) }
{
    if is_skipped(safe, x) {
        return Next::Ended(Ok(DirectValue::Null));
    }
    property_of(alloc, here, p, x, store)
}

/// An expression goes on behind the value of an operand.
#[tactic(auto, unfolding(kt_direct_scope::specs::Activation::here_form))]
pub fn after_operand<'a>(
    alloc: Global,
    here: &Here<'a>,
    after: AfterOperand<'a>,
    x: DirectValue,
    store: &mut DirectStore<'_>,
) -> Next<'a>
    ensures { let h = here_form here.now in Leads h result (store_form store.new)
        (spec.after_operand h after.entry (value_form x) (store_form store.old)) }
{
    match after {
        AfterOperand::Prefix(operator) => Next::Ended(prefixed(operator, &x)),
        AfterOperand::Left(operator, null, right) => after_left(operator, null, right, x),
        AfterOperand::Right(operator, null, left) => operation(
            alloc, operator, null, left, x, store,
        ),
        AfterOperand::Test(not, t) => {
            Next::Ended(Ok(DirectValue::Truth(is_tested(here.unit, not, t, &x))))
        }
        AfterOperand::Cast(or_null, t) => Next::Ended(cast_to(
            alloc, here.unit, or_null, t, x, store,
        )),
        AfterOperand::NotNull => Next::Ended(asserted(alloc, x, store)),
        AfterOperand::Index(index) => operand(index, AfterOperand::Element(x)),
        AfterOperand::Element(array) => Next::Ended(element(alloc, &array, &x, store)),
        AfterOperand::Property(safe, p) => after_receiver(alloc, here, safe, p, &x, &*store),
        AfterOperand::Throw => Next::Ended(Err(Abrupt::Thrown(x))),
        AfterOperand::Return => Next::Ended(Err(Abrupt::Returned(x))),
    }
}
