//! What a method came to, as text.

use kt_base::{Event, NoMemory, Text16};
use mach_natives::{Native, native};
use mach_rows::{NativeEnd, make};
use mach_value::{Heap, Instance, Object, Value};
use std::alloc::Global;

/// A string as an object.
pub fn text(alloc: Global, heap: &mut Heap, s: &str) -> Result<Value, NoMemory> {
    let text = Text16::of(alloc, s)?;
    Ok(Value::Ref(make(heap, Object::Text(text))?))
}

fn bytes(alloc: Global, of: &[u8]) -> Result<Vec<u8>, NoMemory> {
    Ok(Vec::from_slice(alloc, of)?)
}

fn utf8(alloc: Global, text: &Text16) -> Result<Vec<u8>, NoMemory> {
    let mut into = Vec::new(alloc);
    text.put_utf8(&mut into)?;
    Ok(into)
}

fn shown_object(alloc: Global, object: &Object) -> Result<Vec<u8>, NoMemory> {
    match object {
        Object::Text(text) => utf8(alloc, text),
        Object::Int(_) => bytes(alloc, b"box of int"),
        Object::Long(_) => bytes(alloc, b"box of long"),
        Object::Bool(_) => bytes(alloc, b"box of boolean"),
        Object::Char(_) => bytes(alloc, b"box of char"),
        Object::Cell(_) => bytes(alloc, b"cell"),
        Object::Numbers(_) => bytes(alloc, b"numbers"),
        Object::Elements(_) => bytes(alloc, b"elements"),
        Object::Throwable(_, _) => bytes(alloc, b"throwable"),
        Object::Instance(_) => bytes(alloc, b"instance"),
    }
}

fn shown_value(alloc: Global, heap: &Heap, x: Value) -> Result<Vec<u8>, NoMemory> {
    match x {
        Value::Int(n) => bytes(alloc, n.to_string(alloc)?.as_str().as_bytes()),
        Value::Long(n) => bytes(alloc, n.to_string(alloc)?.as_str().as_bytes()),
        Value::Null => bytes(alloc, b"null"),
        Value::Ref(0) => bytes(alloc, b"unit"),
        Value::Ref(1) => bytes(alloc, b"suspended"),
        Value::Ref(address) => match heap.objects.at(address) {
            Some(object) => shown_object(alloc, object),
            None => bytes(alloc, b"nothing there"),
        },
    }
}

fn shown_thrown(
    alloc: Global,
    heap: &Heap,
    message: Value,
    instance: &Instance,
) -> Result<Vec<u8>, NoMemory> {
    let mut into = bytes(alloc, instance.class.name().as_bytes())?;
    into.extend_from_slice(b": ")?;
    into.extend_from_slice(shown_value(alloc, heap, message)?.as_slice())?;
    Ok(into)
}

fn shown_throws(alloc: Global, heap: &Heap, x: Value) -> Result<Vec<u8>, NoMemory> {
    match x {
        Value::Ref(address) => match heap.objects.at(address) {
            Some(Object::Throwable(message, instance)) => {
                shown_thrown(alloc, heap, *message, instance)
            }
            _ => bytes(alloc, b"no throwable"),
        },
        _ => bytes(alloc, b"no reference"),
    }
}

/// What a method came to.
fn shown(alloc: Global, heap: &Heap, end: &NativeEnd) -> Result<Vec<u8>, NoMemory> {
    match end {
        NativeEnd::Returns(x) => shown_value(alloc, heap, *x),
        NativeEnd::ReturnsNone => bytes(alloc, b"returns"),
        NativeEnd::Throws(x) => shown_throws(alloc, heap, *x),
        NativeEnd::Ticks => bytes(alloc, b"ticks"),
        NativeEnd::Asks(Event::Print(text)) => utf8(alloc, text),
        NativeEnd::Asks(Event::Launch(_)) => bytes(alloc, b"launch"),
        NativeEnd::Asks(Event::Draw) => bytes(alloc, b"draw"),
        NativeEnd::Asks(Event::Resume(_, _)) => bytes(alloc, b"resume"),
        NativeEnd::Asks(Event::Await(_)) => bytes(alloc, b"await"),
    }
}

/// Calls a method, and shows what it comes to.
pub fn called(
    alloc: Global,
    which: Native,
    heap: &mut Heap,
    arguments: &[Value],
) -> Result<Vec<u8>, NoMemory> {
    let end = native(alloc, which, heap, arguments)?;
    shown(alloc, heap, &end)
}
