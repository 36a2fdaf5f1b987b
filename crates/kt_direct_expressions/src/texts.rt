//! Texts of values.

ghost use Rattle.kt_direct_expressions.specs.Called.{called_or_unfit, content_then};
ghost use Rattle.kt_direct_frames.specs.Frames.{Leads};
ghost use Rattle.kt_direct_frames.specs.Results.{as_text_value};
ghost use Rattle.kt_direct_frames.specs.Texts as spec;
ghost use Rattle.kt_direct_scope.specs.Activation.{here_form};
ghost use Rattle.kt_direct_values.specs.Agree.{AgreesSame, AgreesValue};
ghost use Rattle.kt_direct_values.specs.Forms.{store_form, value_form};
ghost use Rattle.kt_meaning.specs.Activations.{Activation};
ghost use Rattle.kt_meaning.specs.Eval as eval;
ghost use Rattle.kt_meaning.specs.Printing as printing;
ghost use Rattle.kt_typed.specs.Bodies as bodies;
ghost use Rattle.kt_typed.specs.Bodies.{part_form};
ghost use Rattle.kt_typed.specs.Headers.{property_form};
ghost use Rattle.kt_typed.specs.Units.{unit_form};
ghost use Rattle.kt_values.specs.Heap as heap;
ghost use Rattle.kt_values.specs.Runs.{Gives, Store, give, or_unfit, then_do};
ghost use Rattle.kt_values.specs.Values as v;
ghost use Rattle.std.specs.Prelude.{◌≡◌, ◌+◌, [], ◌∷◌, ◌++◌, IfOk, List, codes, map, ℕ};

use crate::kinds::{Decider, decided_by, split};
use kt_base::Text16;
use kt_direct_classes::token_text;
use kt_direct_frames::{AfterText, Awaiting, DirectCalled, Frame, Next, Part};
use kt_direct_objects::{body_for, is_data, own_body};
use kt_direct_parts::{basic_text, entry_name_of, joined, printed};
use kt_direct_scope::Here;
use kt_direct_values::texts::{ascii_text, put_ascii};
use kt_direct_values::{Abrupt, DirectShape, DirectStore, DirectValue, Stop};
use kt_tree::TextPart;
use kt_typed::{DeclaredProperty, TypedPart, TypedUnit};
use std::alloc::{AllocError, Global};

/// The text that a value is.
fn text_in(x: DirectValue) -> Result<Text16, Abrupt>
    ensures { (s : Store) → AgreesSame result s (or_unfit (v.as_text (value_form x)) s) }
{
    match x {
        DirectValue::Text(t) => Ok(t),
        DirectValue::Int(_)
        | DirectValue::Long(_)
        | DirectValue::Truth(_)
        | DirectValue::Character(_)
        | DirectValue::Null
        | DirectValue::Unit
        | DirectValue::Entry(_, _)
        | DirectValue::Cell(_)
        | DirectValue::Closure(_, _)
        | DirectValue::Reference(_, _) => Err(Abrupt::Stopped(Stop::Unfit)),
    }
}

/// A text as a value.
fn as_value(t: Result<Text16, Abrupt>) -> Result<DirectValue, Abrupt>
    ensures { (s : Store) (g : Gives (List ℕ)) → AgreesSame t s g →
        AgreesValue result s (then_do g (λ t. give (v.text t))) }
{
    match t {
        Ok(t) => Ok(DirectValue::Text(t)),
        Err(end) => Err(end),
    }
}

/// The `toString` of an object of a class: that of its class, else the generated one of a data class, else that of a
/// superclass.
fn to_string_called(unit: &TypedUnit, c: u32, x: DirectValue) -> Option<DirectCalled>
    ensures { (here : Activation) → here.unit ≡ unit_form unit.now →
        printing.to_string_of here c (value_form x) ≡ called_or_unfit here result [] }
{
    match own_body(unit, b"toString", 0, c) {
        Some(own) => Some(DirectCalled::Member(own.0, own.1, x)),
        None => {
            if is_data(unit, c) {
                return Some(DirectCalled::GeneratedToString(c, x));
            }
            match body_for(unit, b"toString", 0, c) {
                Some(found) => Some(DirectCalled::Member(found.0, found.1, x)),
                None => None,
            }
        }
    }
}

/// The text of an object of a class.
fn object_text<'a>(alloc: Global, unit: &TypedUnit, c: u32, place: usize) -> Next<'a>
    ensures { (here : Activation) (s : Store) → here.unit ≡ unit_form unit.now → Leads here result s
        (as_text_value (printing.text_of here (v.reference (v.instance c) place)) s) }
{
    let x = DirectValue::Reference(DirectShape::Instance(c), place);
    match to_string_called(unit, c, x) {
        Some(called) => Next::First(
            Part::Call(called, Vec::new(alloc)),
            Frame::Value(Awaiting::Text(AfterText::Answer)),
        ),
        None => Next::Ended(Err(Abrupt::Stopped(Stop::Unfit))),
    }
}

/// The text of a value.
#[tactic(auto, unfolding(kt_direct_scope::specs::Activation::here_form))]
pub fn text_of<'a>(alloc: Global, here: &Here<'a>, x: DirectValue) -> Next<'a>
    ensures { let h = here_form here.now in (s : Store) →
        Leads h result s (as_text_value (printing.text_of h (value_form x)) s) }
{
    match decided_by(&x) {
        Decider::Object(c, place) => object_text(alloc, here.unit, c, place),
        Decider::Entry => Next::Ended(entry_name_of(alloc, here.unit, &x)),
        Decider::Basic => Next::Ended(as_value(basic_text(alloc, &x))),
    }
}

/// The text of a token behind others.
fn with_token(
    alloc: Global,
    done: &Text16,
    part: &TextPart,
    store: &mut DirectStore<'_>,
) -> Result<Text16, Abrupt>
    ensures { AgreesSame result (store_form store.new)
        (printing.joined done.now (printing.units_of part.now) (store_form store.old)) }
{
    let t = token_text(alloc, part)?;
    joined(alloc, done, &t, store)
}

/// The parts of a string, behind the text of those before.
pub fn parts_of<'a>(
    alloc: Global,
    done: Text16,
    parts: &'a [TypedPart],
    store: &mut DirectStore<'_>,
) -> Next<'a>
    ensures { (here : Activation) → Leads here result (store_form store.new)
        (eval.text_of_parts here done (bodies.parts_of (map part_form parts.now)) (store_form store.old)) }
{
    match parts {
        [] => Next::Ended(Ok(DirectValue::Text(done))),
        [first, rest @ ..] => match first {
            TypedPart::Text(token) => match with_token(alloc, &done, token, store) {
                Ok(more) => parts_of(alloc, more, rest, store),
                Err(end) => Next::Ended(Err(end)),
            },
            TypedPart::Printed(printed) => Next::First(
                Part::Expression(printed.get()),
                Frame::Value(Awaiting::Text(AfterText::Printed(done, rest))),
            ),
        },
    }
}

/// The name of a property with what stands before it, behind a text.
fn named(
    alloc: Global,
    done: &Text16,
    before: &[u8],
    property: &DeclaredProperty,
    store: &mut DirectStore<'_>,
) -> Result<Text16, Abrupt>
    ensures { AgreesSame result (store_form store.new) (printing.joined done.now
        (before.now ++ (property_form property.now).name ++ codes "=") (store_form store.old)) }
{
    let label = label_of(alloc, before, property.name.as_bytes())?;
    joined(alloc, done, &label, store)
}

/// The name of a property with what stands before it and `=`.
fn label_of(alloc: Global, before: &[u8], name: &[u8]) -> Result<Text16, AllocError>
    ensures { IfOk result (λ t. t ≡ before.now ++ name.now ++ codes "=") }
{
    let mut units = Vec::new(alloc);
    put_ascii(&mut units, before)?;
    put_ascii(&mut units, name)?;
    put_ascii(&mut units, b"=")?;
    Ok(Text16::from_units(units))
}

/// A bracket behind a text.
fn closed(alloc: Global, done: &Text16, store: &mut DirectStore<'_>) -> Result<Text16, Abrupt>
    ensures { AgreesSame result (store_form store.new) (printing.joined done.now (codes ")") (store_form store.old)) }
{
    let bracket = ascii_text(alloc, b")")?;
    joined(alloc, done, &bracket, store)
}

/// `name=value` of each property of an object, from a slot on, behind a text.
pub fn properties_text<'a>(
    alloc: Global,
    object: DirectValue,
    done: &Text16,
    before: &[u8],
    slot: usize,
    properties: &'a [DeclaredProperty],
    store: &mut DirectStore<'_>,
) -> Next<'a>
    ensures { (here : Activation) → Leads here result (store_form store.new) (as_text_value
        (printing.put_properties here (value_form object) done.now before.now slot (map property_form properties.now))
        (store_form store.old)) }
{
    match split(properties) {
        Some(both) => next_property(alloc, object, done, before, slot, both.0, both.1, store),
        None => Next::Ended(as_value(closed(alloc, done, store))),
    }
}

/// The first of several properties of an object, and then the others.
#[tactic(auto, using(crate::proofs::DataClasses::named_then, kt_direct_values::proofs::Passing::passes))]
fn next_property<'a>(
    alloc: Global,
    object: DirectValue,
    done: &Text16,
    before: &[u8],
    slot: usize,
    first: &DeclaredProperty,
    rest: &'a [DeclaredProperty],
    store: &mut DirectStore<'_>,
) -> Next<'a>
    ensures { (here : Activation) → Leads here result (store_form store.new) (as_text_value
        (printing.put_properties here (value_form object) done.now before.now slot
        (property_form first.now ∷ map property_form rest.now)) (store_form store.old)) }
{
    match named(alloc, done, before, first, store) {
        Ok(behind) => property_text(alloc, object, behind, slot, rest, store),
        Err(end) => Next::Ended(Err(end)),
    }
}

/// The text of the property in a slot, then the other ones.
#[tactic(auto, using(kt_direct_frames::proofs::Binding::through_text, kt_direct_values::proofs::Passing::passes))]
fn property_text<'a>(
    alloc: Global,
    object: DirectValue,
    named: Text16,
    slot: usize,
    rest: &'a [DeclaredProperty],
    store: &mut DirectStore<'_>,
) -> Next<'a>
    ensures { (here : Activation) → Leads here result (store_form store.new)
        (then_do (heap.read_slot (value_form object) slot (store_form store.old))
        (content_then here (value_form object) named (slot + 1) (map property_form rest.now))) }
{
    match content_of(alloc, &object, slot, &*store) {
        Ok(content) => match slot.checked_add(1) {
            Some(next) => Next::First(
                Part::Text(content),
                Frame::Value(Awaiting::Text(AfterText::Property(object, named, next, rest))),
            ),
            None => Next::Ended(Err(Abrupt::NoMemory)),
        },
        Err(end) => Next::Ended(Err(end)),
    }
}

/// What stands in a slot of an object.
pub fn content_of(
    alloc: Global,
    object: &DirectValue,
    slot: usize,
    store: &DirectStore<'_>,
) -> Result<DirectValue, Abrupt>
    ensures { AgreesValue result (store_form store.now)
        (heap.read_slot (value_form object.now) slot (store_form store.now)) }
{
    Ok(store.read_slot(object, slot)?.copy(alloc)?)
}

/// A text behind another, and then the parts of a string.
fn joined_part<'a>(
    alloc: Global,
    done: &Text16,
    t: &Text16,
    parts: &'a [TypedPart],
    store: &mut DirectStore<'_>,
) -> Next<'a>
    ensures { (here : Activation) → Leads here result (store_form store.new)
        (then_do (printing.joined done.now t.now (store_form store.old))
        (λ more. eval.text_of_parts here more (bodies.parts_of (map part_form parts.now)))) }
{
    match joined(alloc, done, t, store) {
        Ok(more) => parts_of(alloc, more, parts, store),
        Err(end) => Next::Ended(Err(end)),
    }
}

/// A text behind that of the properties before, and then the properties behind.
fn joined_property<'a>(
    alloc: Global,
    object: DirectValue,
    named: &Text16,
    t: &Text16,
    slot: usize,
    properties: &'a [DeclaredProperty],
    store: &mut DirectStore<'_>,
) -> Next<'a>
    ensures { (here : Activation) → Leads here result (store_form store.new)
        (then_do (printing.joined named.now t.now (store_form store.old)) (λ more.
        as_text_value (printing.put_properties here (value_form object) more (codes ", ") slot
        (map property_form properties.now)))) }
{
    match joined(alloc, named, t, store) {
        Ok(more) => properties_text(alloc, object, &more, b", ", slot, properties, store),
        Err(end) => Next::Ended(Err(end)),
    }
}

/// A text goes on behind a value.
#[tactic(auto, using(kt_direct_frames::proofs::Binding::through_text))]
pub fn after_text<'a>(
    alloc: Global,
    after: AfterText<'a>,
    x: DirectValue,
    store: &mut DirectStore<'_>,
) -> Next<'a>
    ensures { (here : Activation) → Leads here result (store_form store.new)
        (spec.after_text here after.entry (value_form x) (store_form store.old)) }
{
    match after {
        AfterText::Answer => Next::Ended(as_value(text_in(x))),
        AfterText::Printed(done, parts) => Next::First(
            Part::Text(x),
            Frame::Value(Awaiting::Text(AfterText::Part(done, parts))),
        ),
        AfterText::Part(done, parts) => match text_in(x) {
            Ok(t) => joined_part(alloc, &done, &t, parts, store),
            Err(end) => Next::Ended(Err(end)),
        },
        AfterText::Print => match text_in(x) {
            Ok(t) => Next::Ended(printed(t, store)),
            Err(end) => Next::Ended(Err(end)),
        },
        AfterText::Left(right) => match text_in(x) {
            Ok(t) => Next::First(
                Part::Text(right),
                Frame::Value(Awaiting::Text(AfterText::Right(t))),
            ),
            Err(end) => Next::Ended(Err(end)),
        },
        AfterText::Right(left) => match text_in(x) {
            Ok(t) => Next::Ended(as_value(joined(alloc, &left, &t, store))),
            Err(end) => Next::Ended(Err(end)),
        },
        AfterText::Property(object, named, slot, properties) => match text_in(x) {
            Ok(t) => joined_property(alloc, object, &named, &t, slot, properties, store),
            Err(end) => Next::Ended(Err(end)),
        },
    }
}
