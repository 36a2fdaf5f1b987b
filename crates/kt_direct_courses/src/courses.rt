//! What a coroutine did, by the end of its run: its events, and how it ended.

ghost use Rattle.kt_direct_courses.specs.Courses.{course_form};
ghost use Rattle.kt_direct_values.specs.Agree.{AgreesValue};
ghost use Rattle.kt_direct_values.specs.Forms.{object_form, stop_form, store_form, value_form};
ghost use Rattle.kt_meaning.specs.Classes as classes;
ghost use Rattle.kt_meaning.specs.Units as spec;
ghost use Rattle.kt_typed.specs.Headers.{function_form};
ghost use Rattle.kt_typed.specs.Units.{unit_form};
ghost use Rattle.kt_values.specs.Heap as heap;
ghost use Rattle.kt_values.specs.Runs as runs;
ghost use Rattle.kt_values.specs.Runs.{Gives};
ghost use Rattle.kt_values.specs.Throwables.{qualified, throwable_names};
ghost use Rattle.kt_values.specs.Values.{Shape, Value};
ghost use Rattle.std.specs.Prelude.{◌≡◌, [], ◌∷◌, ◌++◌, IfOk, IfSome, List, MatchOption, Some, option_map, slice_get};
ghost use Rattle.std.specs.Str.{IsAscii};

use kt_base::{End, Event, Lump, Name, NoMemory, Text16};
use kt_direct_values::store::put;
use kt_direct_values::{Abrupt, DirectObject, DirectShape, DirectStore, DirectValue, Stop};
use kt_typed::{DeclaredFunction, TypedUnit};
use sqlite_items::at;
use std::alloc::{AllocError, Global};

/// What a coroutine did: its events up to the first that has no answer, and its end, which is there exactly where no
/// event waits for an answer.
#[derive(Drop)]
pub struct Direct {
    pub events: Vec<Event<Lump>>,
    pub end: Option<End>,
}

/// Whether a function is the `main` of a file.
fn is_main(f: &DeclaredFunction) -> bool
    ensures { result ≡ spec.is_main (function_form f.now) }
{
    f.name.as_bytes() == b"main".as_slice() && f.parameters.len() == 0
}

/// The number of `main`.
pub fn main_of(unit: &TypedUnit) -> Option<usize>
    ensures { result ≡ spec.main_of (unit_form unit.now) }
{
    let functions = unit.headers.functions.as_slice();
    let mut number = 0;
    for f in functions {
        if is_main(f) {
            return Some(number);
        }
        number += 1;
    }
    None
}

/// The name of a throwable that every file has, in class files.
#[tactic(auto, unfolding(kt_types_builtins::specs::Throwables::throwables))]
fn throwable_name(row: u32) -> Option<&'static [u8]>
    ensures value { option_map (λ name. name.now) result ≡ option_map qualified (slice_get throwable_names row) }
    ensures ascii { IfSome result (λ name. IsAscii name.now) }
{
    match row {
        0 => Some(b"java/lang/Throwable"),
        1 => Some(b"java/lang/Exception"),
        2 => Some(b"java/lang/RuntimeException"),
        3 => Some(b"java/lang/IllegalStateException"),
        4 => Some(b"java/lang/IllegalArgumentException"),
        5 => Some(b"java/lang/ArithmeticException"),
        6 => Some(b"java/lang/NullPointerException"),
        7 => Some(b"java/lang/ClassCastException"),
        8 => Some(b"java/lang/NegativeArraySizeException"),
        9 => Some(b"java/lang/IndexOutOfBoundsException"),
        10 => Some(b"java/lang/ArrayIndexOutOfBoundsException"),
        11 => Some(b"java/lang/StringIndexOutOfBoundsException"),
        _ => None,
    }
}

/// The name of a class in class files.
pub fn class_name(alloc: Global, unit: &TypedUnit, c: u32) -> Result<Name, NoMemory>
    ensures { IfOk result (λ name. name ≡ classes.class_name (unit_form unit.now) c) }
{
    match throwable_name(c) {
        Some(name) => Name::of(alloc, name),
        None => match at(unit.headers.classes.as_slice(), c as usize) {
            Some(class) => Name::of(alloc, class.name.as_bytes()),
            None => Name::of(alloc, b""),
        },
    }
}

/// The end of code that met what no typed program meets.
fn not_typed(alloc: Global) -> Result<End, NoMemory>
    ensures { IfOk result (λ end. end ≡ spec.not_typed) }
{
    Ok(End::Uncaught(Name::of(alloc, b"")?, None))
}

/// The text that the first slot of an object is; none where it is another value.
fn first_text(x: &DirectValue) -> Result<Option<Text16>, AllocError>
    ensures { (shape : Shape) (rest : List Value) → IfOk result (λ m.
        m ≡ spec.message_in (Some (record { shape = shape; slots = value_form x.now ∷ rest }))) }
{
    match x {
        DirectValue::Text(t) => Ok(Some(t.clone()?)),
        DirectValue::Int(_)
        | DirectValue::Long(_)
        | DirectValue::Truth(_)
        | DirectValue::Character(_)
        | DirectValue::Null
        | DirectValue::Unit
        | DirectValue::Entry(_, _)
        | DirectValue::Cell(_)
        | DirectValue::Closure(_, _)
        | DirectValue::Reference(_, _) => Ok(None),
    }
}

/// The first of several values, and the others.
fn parted(all: &[DirectValue]) -> Option<(&DirectValue, &[DirectValue])>
    ensures { MatchOption result (all.now ≡ []) (λ both. all.now ≡ both.0.now ∷ both.1.now) }
{
    match all {
        [] => None,
        [first, rest @ ..] => Some((first, rest)),
    }
}

/// The message of an object that is thrown.
fn message_in(object: &DirectObject) -> Result<Option<Text16>, AllocError>
    ensures { IfOk result (λ m. m ≡ spec.message_in (Some (object_form object.now))) }
{
    match parted(object.slots.as_slice()) {
        None => Ok(None),
        Some(both) => first_text(both.0),
    }
}

/// The message of a throwable.
fn message_of(x: &DirectValue, store: &DirectStore<'_>) -> Result<Option<Text16>, AllocError>
    ensures { IfOk result (λ m. m ≡ spec.message_in (heap.object_of (store_form store.now).heap (value_form x.now))) }
{
    match store.object_of(x) {
        Some(object) => message_in(object),
        None => Ok(None),
    }
}

/// The end by an exception that left the coroutine.
fn uncaught(
    alloc: Global,
    unit: &TypedUnit,
    x: &DirectValue,
    store: &DirectStore<'_>,
) -> Result<End, NoMemory>
    ensures { IfOk result (λ end. end ≡ spec.uncaught (unit_form unit.now) (store_form store.now).heap (value_form x.now)) }
{
    match x {
        DirectValue::Reference(shape, _) => match shape {
            DirectShape::Instance(c) => {
                let message = message_of(x, store)?;
                Ok(End::Uncaught(class_name(alloc, unit, *c)?, message))
            }
            DirectShape::Numbers | DirectShape::Elements | DirectShape::Variable => not_typed(
                alloc,
            ),
        },
        DirectValue::Int(_)
        | DirectValue::Long(_)
        | DirectValue::Truth(_)
        | DirectValue::Character(_)
        | DirectValue::Text(_)
        | DirectValue::Null
        | DirectValue::Unit
        | DirectValue::Entry(_, _)
        | DirectValue::Cell(_)
        | DirectValue::Closure(_, _) => not_typed(alloc),
    }
}

/// Why a coroutine stopped, as its end; and the event that waits for an answer.
fn stopped_end(alloc: Global, why: Stop, events: Vec<Event<Lump>>) -> Result<Direct, NoMemory>
    ensures { IfOk result (λ d. course_form d ≡ spec.stopped_course (stop_form why) events.items) }
{
    match why {
        Stop::TurnsSpent => Ok(Direct {
            events,
            end: Some(End::TurnsSpent),
        }),
        Stop::NumbersSpent => Ok(Direct {
            events,
            end: Some(End::NumbersSpent),
        }),
        Stop::Asks(event) => Ok(Direct {
            events: with_last(events, event)?,
            end: None,
        }),
        Stop::Unfit => untyped(alloc, events),
        Stop::BoundMet => untyped(alloc, events),
    }
}

/// One event more.
fn with_last(events: Vec<Event<Lump>>, last: Event<Lump>) -> Result<Vec<Event<Lump>>, AllocError>
    ensures { IfOk result (λ all. all.items ≡ events.items ++ last ∷ []) }
{
    let mut all = events;
    put(&mut all, last)?;
    Ok(all)
}

/// The course of code that met what no typed program meets.
fn untyped(alloc: Global, events: Vec<Event<Lump>>) -> Result<Direct, NoMemory>
    ensures { IfOk result (λ d. course_form d ≡ spec.ended events.items spec.not_typed) }
{
    let end = not_typed(alloc)?;
    Ok(Direct {
        events,
        end: Some(end),
    })
}

/// The course of an exception that left the coroutine.
fn thrown(
    alloc: Global,
    unit: &TypedUnit,
    x: DirectValue,
    store: DirectStore<'_>,
) -> Result<Direct, NoMemory>
    ensures { IfOk result (λ d. course_form d
        ≡ spec.course_of (unit_form unit.now) (runs.thrown (value_form x) (store_form store.entry))) }
{
    let end = uncaught(alloc, unit, &x, &store)?;
    Ok(Direct {
        events: store.into_events(),
        end: Some(end),
    })
}

/// The course of a run that ended so on the store: its events, and its end, which is there exactly where no event waits
/// for an answer.
pub fn course_of(
    alloc: Global,
    unit: &TypedUnit,
    ended: Result<DirectValue, Abrupt>,
    store: DirectStore<'_>,
) -> Result<Direct, NoMemory>
    ensures { (g : Gives Value) → AgreesValue ended (store_form store.entry) g →
        IfOk result (λ d. course_form d ≡ spec.course_of (unit_form unit.now) g) }
{
    match ended {
        Ok(_) => Ok(Direct {
            events: store.into_events(),
            end: Some(End::Returned),
        }),
        Err(end) => match end {
            Abrupt::NoMemory => Err(NoMemory),
            Abrupt::Thrown(x) => thrown(alloc, unit, x, store),
            Abrupt::Returned(_) => untyped(alloc, store.into_events()),
            Abrupt::Broken => untyped(alloc, store.into_events()),
            Abrupt::Continued => untyped(alloc, store.into_events()),
            Abrupt::Stopped(why) => stopped_end(alloc, why, store.into_events()),
        },
    }
}
