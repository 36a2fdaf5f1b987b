//! Whether the entries of a `when` name every value of its subject (Kotlin specification, "Exhaustive when
//! expressions").

ghost use Rattle.kt_check_completion.specs.Values.{condition_names, names_value};
ghost use Rattle.kt_check_rules.specs.Completion as spec;
ghost use Rattle.kt_typed.specs.Bodies.{condition_form, conditions_of, entries_of, entry_form, enum_entry, expression_form, literal, maybe_expression};
ghost use Rattle.kt_typed.specs.Headers.{headers_form};
ghost use Rattle.kt_types_tree.specs.Types.{TypeForm, TypeForms, of, type_form, typed};
ghost use Rattle.std.specs.Prelude.{◌≡◌, ◌==◌, ◌&&◌, false, map, not, option_map, slice_get, true};

use kt_typed::{Headers, TypedCondition, TypedEntry, TypedExpression, TypedKind, TypedLiteral};
use kt_types_tree::{KtType, TypeConstructor, TypeShape};
use sqlite_items::{Boxed, at};

/// A value that a condition may name.
#[derive(Clone, Copy)]
pub enum Value {
    Truth(bool),
    Null,
    /// The enum's row, and the ordinal
    Entry(u32, usize),
}

/// Whether a literal is this value.
fn is_literal(value: Value, given: TypedLiteral) -> bool
    ensures { (t : TypeForm) → result ≡ names_value value (literal t given) }
{
    match value {
        Value::Truth(wanted) => match given {
            TypedLiteral::Boolean(truth) => { if wanted { truth } else { !truth } }
            TypedLiteral::Null => false,
            TypedLiteral::Int(_) => false,
            TypedLiteral::Long(_) => false,
            TypedLiteral::Char(_) => false,
        },
        Value::Null => match given {
            TypedLiteral::Null => true,
            TypedLiteral::Boolean(_) => false,
            TypedLiteral::Int(_) => false,
            TypedLiteral::Long(_) => false,
            TypedLiteral::Char(_) => false,
        },
        Value::Entry(_, _) => false,
    }
}

/// Whether an entry of an enum is this value.
fn is_entry(value: Value, class: u32, ordinal: u32) -> bool
    ensures { (t : TypeForm) → result ≡ names_value value (enum_entry t class ordinal) }
{
    match value {
        Value::Truth(_) => false,
        Value::Null => false,
        Value::Entry(row, place) => class == row && place == ordinal as usize,
    }
}

/// Whether an expression is this value.
fn is_value(value: Value, e: &TypedExpression) -> bool
    ensures { result ≡ names_value value (expression_form e.now) }
{
    match &e.kind {
        TypedKind::Literal(literal) => is_literal(value, *literal),
        TypedKind::EnumEntry(class, ordinal) => is_entry(value, *class, *ordinal),
        TypedKind::Template(_)
        | TypedKind::Local(_)
        | TypedKind::Captured(_)
        | TypedKind::This
        | TypedKind::Constant(_)
        | TypedKind::Property(_, _)
        | TypedKind::Prefix(_, _)
        | TypedKind::Binary(_, _, _)
        | TypedKind::TypeTest(_, _, _)
        | TypedKind::Cast(_, _, _)
        | TypedKind::NotNull(_)
        | TypedKind::Index(_, _)
        | TypedKind::Call(_)
        | TypedKind::If(_, _, _)
        | TypedKind::When(_, _)
        | TypedKind::Try(_, _, _)
        | TypedKind::Throw(_)
        | TypedKind::Return(_)
        | TypedKind::Break
        | TypedKind::Continue
        | TypedKind::Lambda(_, _) => false,
    }
}

/// Whether it is the literal `true`.
pub fn is_always(e: &TypedExpression) -> bool
    ensures { result ≡ spec.is_always (expression_form e.now) }
{
    is_value(Value::Truth(true), e)
}

fn condition_has(value: Value, condition: &TypedCondition) -> bool
    ensures { result ≡ condition_names (names_value value) (condition_form condition.now) }
{
    match condition {
        TypedCondition::Equals(e) => is_value(value, e.get()),
        TypedCondition::Holds(_) => false,
        TypedCondition::OfType(_, _) => false,
    }
}

#[tactic(auto, using(crate::proofs::Naming::next_condition))]
fn conditions_have(value: Value, conditions: &[TypedCondition]) -> bool
    ensures { result ≡ spec.is_named (names_value value) (conditions_of (map condition_form conditions.now)) }
{
    for each in conditions {
        if condition_has(value, each) {
            return true;
        }
    }
    false
}

/// Whether entries name a value.
fn name(value: Value, entries: &[TypedEntry]) -> bool
    ensures { result ≡ spec.names (names_value value) (entries_of (map entry_form entries.now)) }
{
    for each in entries {
        if conditions_have(value, each.conditions.as_slice()) {
            return true;
        }
    }
    false
}

/// Whether these are the conditions of an `else`, which has none.
#[tactic(auto, using(crate::proofs::Naming::none_is_else))]
fn is_else(conditions: &[TypedCondition]) -> bool
    ensures { result ≡ spec.is_else (conditions_of (map condition_form conditions.now)) }
{
    conditions.len() == 0
}

/// Whether there is an `else`.
pub fn has_else(entries: &[TypedEntry]) -> bool
    ensures { result ≡ spec.has_else (entries_of (map entry_form entries.now)) }
{
    for each in entries {
        if is_else(each.conditions.as_slice()) {
            return true;
        }
    }
    false
}

/// Whether they name the first so many entries of an enum.
fn name_first(row: u32, count: usize, entries: &[TypedEntry]) -> bool
    ensures { result ≡ spec.names_entries row count (entries_of (map entry_form entries.now)) }
{
    let mut left = count;
    while left > 0 {
        left -= 1;
        if !name(Value::Entry(row, left), entries) {
            return false;
        }
    }
    true
}

/// Whether they name all entries of an enum, of which there are so many.
fn name_all(row: u32, count: usize, entries: &[TypedEntry]) -> bool
    ensures { result ≡ (not (count == 0) && spec.names_entries row count (entries_of (map entry_form entries.now))) }
{
    count != 0 && name_first(row, count, entries)
}

/// Whether they name all entries of the enum of a row. No other class has any.
fn name_enum(h: &Headers, row: u32, entries: &[TypedEntry]) -> bool
    ensures { result ≡ spec.names_enum row (slice_get (headers_form h.now).classes row)
        (entries_of (map entry_form entries.now)) }
{
    match at(h.classes.as_slice(), row as usize) {
        Some(class) => name_all(row, class.entries.len(), entries),
        None => false,
    }
}

/// Whether they name null, where it may be.
fn name_null(nullable: bool, entries: &[TypedEntry]) -> bool
    ensures { result ≡ spec.names_null nullable (entries_of (map entry_form entries.now)) }
{
    if nullable {
        name(Value::Null, entries)
    } else {
        true
    }
}

fn name_truths(nullable: bool, entries: &[TypedEntry]) -> bool
    ensures { let es = entries_of (map entry_form entries.now) in result ≡
        (spec.names (spec.is_truth true) es && spec.names (spec.is_truth false) es && spec.names_null nullable es) }
{
    name(Value::Truth(true), entries)
        && (name(Value::Truth(false), entries) && name_null(nullable, entries))
}

fn name_constructed(
    h: &Headers,
    nullable: bool,
    constructor: TypeConstructor,
    entries: &[TypedEntry],
) -> bool
    ensures { (ts : TypeForms) → result ≡ spec.names_all (headers_form h.now) (typed nullable (of constructor ts))
        (entries_of (map entry_form entries.now)) }
{
    match constructor {
        TypeConstructor::Boolean => name_truths(nullable, entries),
        TypeConstructor::Class(row) => name_enum(h, row, entries) && name_null(nullable, entries),
        TypeConstructor::Int => false,
        TypeConstructor::Long => false,
        TypeConstructor::Char => false,
        TypeConstructor::String => false,
        TypeConstructor::Unit => false,
        TypeConstructor::IntArray => false,
        TypeConstructor::Array => false,
        TypeConstructor::Continuation => false,
        TypeConstructor::Function(_) => false,
    }
}

/// Whether they name every value of a type: both truth values or every entry of an enum, and null where it may be.
pub fn name_all_of(h: &Headers, t: &KtType, entries: &[TypedEntry]) -> bool
    ensures { result ≡ spec.names_all (headers_form h.now) (type_form t.now) (entries_of (map entry_form entries.now)) }
{
    match &t.shape {
        TypeShape::Of(constructor, _) => name_constructed(h, t.nullable, *constructor, entries),
        TypeShape::Nothing => false,
        TypeShape::Any => false,
        TypeShape::Parameter(_, _) => false,
    }
}

/// Whether one of them is taken for each value of the subject, where there is one.
pub fn is_exhaustive(
    h: &Headers,
    subject: &Option<Boxed<TypedExpression>>,
    entries: &[TypedEntry],
) -> bool
    ensures { result ≡ spec.is_exhaustive (headers_form h.now)
        (maybe_expression (option_map expression_form subject.now)) (entries_of (map entry_form entries.now)) }
{
    match subject {
        Some(subject) => has_else(entries) || name_all_of(h, &subject.get().of_type, entries),
        None => has_else(entries),
    }
}
