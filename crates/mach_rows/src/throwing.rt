//! What the machine throws by itself.

ghost use Rattle.mach_rows.specs.Courses.{after, ended, makes, makes_text, throws, truth};
ghost use Rattle.mach_value.specs.declared.heaps.Heap.{Heap};
ghost use Rattle.mach_rows.specs.Throwing as spec;
ghost use Rattle.mach_rows.specs.Throwing.{with_made};
ghost use Rattle.mach_value.specs.Heaps.{address_behind};
ghost use Rattle.std.specs.Fmt.{signed_decimal};
ghost use Rattle.std.specs.Prelude.{◌≡◌, IfOk, OnOk, Some};

use crate::ends::NativeEnd;
use crate::texts::{ascii_text, int_text};
use kt_base::{Name, NoMemory, Text16};
use mach_value::{ClassName, Heap, Instance, Object, Phase, Value};
use sqlite_items::Items;
use std::alloc::Global;

/// What goes wrong while code runs, so that the machine throws.
#[derive(Clone, Copy, Debug, PartialEq, Eq)]
pub enum Fault {
    /// A null that must be none.
    NullPointer,
    /// `equals` or `toString` of an object whose class has none.
    NoMethod,
    /// An index of a string, or a bound of `substring`.
    TextIndex(i32),
    /// An index of an array.
    ArrayIndex(i32),
    /// The size of a new array is below zero.
    NegativeSize(i32),
    /// A zero divisor.
    ZeroDivisor,
    /// An object isn't of the class that it is cast to.
    FailedCast,
    /// A text is longer than a text may be.
    TextTooLong,
    /// A value can't go to another coroutine.
    NotShareable,
    /// The coroutine is to wait, and asks something else first.
    Suspended,
    /// A cell that this coroutine didn't draw, or awaited before.
    NotWaiting,
    /// A cell has its outcome already.
    AlreadyResumed,
    /// A continuation has given its outcome already.
    Done,
}

/// The class that is thrown.
fn fault_class(fault: Fault) -> &'static [u8]
    ensures { result.now ≡ spec.fault_class fault }
{
    match fault {
        Fault::NullPointer => b"java/lang/NullPointerException",
        Fault::NoMethod => b"java/lang/IllegalStateException",
        Fault::TextIndex(_) => b"java/lang/StringIndexOutOfBoundsException",
        Fault::ArrayIndex(_) => b"java/lang/ArrayIndexOutOfBoundsException",
        Fault::NegativeSize(_) => b"java/lang/NegativeArraySizeException",
        Fault::ZeroDivisor => b"java/lang/ArithmeticException",
        Fault::FailedCast => b"java/lang/ClassCastException",
        Fault::TextTooLong => b"java/lang/IllegalArgumentException",
        Fault::NotShareable => b"java/lang/IllegalArgumentException",
        Fault::Suspended => b"java/lang/IllegalStateException",
        Fault::NotWaiting => b"java/lang/IllegalStateException",
        Fault::AlreadyResumed => b"java/lang/IllegalStateException",
        Fault::Done => b"java/lang/IllegalStateException",
    }
}

/// The number of that class among the linked ones.
fn fault_number(fault: Fault) -> usize
    ensures { result ≡ spec.fault_number fault }
{
    match fault {
        Fault::NullPointer => 12,
        Fault::NoMethod => 9,
        Fault::TextIndex(_) => 17,
        Fault::ArrayIndex(_) => 16,
        Fault::NegativeSize(_) => 14,
        Fault::ZeroDivisor => 11,
        Fault::FailedCast => 13,
        Fault::TextTooLong => 10,
        Fault::NotShareable => 10,
        Fault::Suspended => 9,
        Fault::NotWaiting => 9,
        Fault::AlreadyResumed => 9,
        Fault::Done => 9,
    }
}

/// A message of ASCII bytes.
fn some_ascii(alloc: Global, bytes: &[u8]) -> Result<Option<Text16>, NoMemory>
    ensures { IfOk result (λ t. t ≡ Some bytes.now) }
{
    Ok(Some(ascii_text(alloc, bytes)?))
}

/// A message that is a number in decimal.
fn some_int(alloc: Global, number: i32) -> Result<Option<Text16>, NoMemory>
    ensures { IfOk result (λ t. t ≡ Some (signed_decimal number)) }
{
    Ok(Some(int_text(alloc, number)?))
}

/// The message, if there is one.
fn fault_message(alloc: Global, fault: Fault) -> Result<Option<Text16>, NoMemory>
    ensures { IfOk result (λ t. t ≡ spec.fault_message fault) }
{
    match fault {
        Fault::NullPointer => Ok(None),
        Fault::NoMethod => Ok(None),
        Fault::TextIndex(i) => some_int(alloc, i),
        Fault::ArrayIndex(i) => some_int(alloc, i),
        Fault::NegativeSize(n) => some_int(alloc, n),
        Fault::ZeroDivisor => some_ascii(alloc, b"/ by zero"),
        Fault::FailedCast => Ok(None),
        Fault::TextTooLong => some_ascii(alloc, b"text too long"),
        Fault::NotShareable => some_ascii(alloc, b"not shareable"),
        Fault::Suspended => some_ascii(alloc, b"suspended"),
        Fault::NotWaiting => some_ascii(alloc, b"not waiting"),
        Fault::AlreadyResumed => some_ascii(alloc, b"Already resumed"),
        Fault::Done => some_ascii(alloc, b"done"),
    }
}

/// The object that is thrown, without its message.
fn thrown_instance(alloc: Global, fault: Fault) -> Result<Instance, NoMemory>
    ensures { IfOk result (λ i. i ≡ spec.thrown_instance fault) }
{
    let name = Name::of(alloc, fault_class(fault))?;
    let class = ClassName::of(alloc, name)?;
    Ok(Instance {
        class,
        number: Some(fault_number(fault)),
        phase: Phase::Ready,
        fields: Items::new(alloc),
    })
}

/// One more object, whose address is answered.
pub fn make(heap: &mut Heap, object: Object) -> Result<u64, NoMemory>
    ensures address { IfOk result (λ a. a ≡ address_behind heap.old.objects) }
    ensures heap { OnOk result (heap.new ≡ with_made heap.old object) }
{
    let address = heap.objects.next();
    heap.objects.push(object)?;
    Ok(address)
}

/// The message of what is thrown, as an object.
fn make_message(heap: &mut Heap, message: Option<Text16>) -> Result<Value, NoMemory>
    ensures value { IfOk result (λ x. x ≡ spec.message_value message heap.old) }
    ensures heap { OnOk result (heap.new ≡ spec.with_message message heap.old) }
{
    match message {
        Some(text) => Ok(Value::Ref(make(heap, Object::Text(text))?)),
        None => Ok(Value::Null),
    }
}

/// Throws what a fault throws.
pub fn throw(alloc: Global, heap: &mut Heap, fault: Fault) -> Result<NativeEnd, NoMemory>
    ensures end { IfOk result (λ e. e ≡ ended (throws fault) heap.old) }
    ensures heap { OnOk result (heap.new ≡ after (throws fault) heap.old) }
{
    let instance = thrown_instance(alloc, fault)?;
    let text = fault_message(alloc, fault)?;
    let message = make_message(heap, text)?;
    Ok(NativeEnd::Throws(Value::Ref(make(heap, Object::Throwable(message, instance))?)))
}

/// Gives a new object.
pub fn give_new(heap: &mut Heap, object: Object) -> Result<NativeEnd, NoMemory>
    ensures end { IfOk result (λ e. e ≡ ended (makes object) heap.old) }
    ensures heap { OnOk result (heap.new ≡ after (makes object) heap.old) }
{
    Ok(NativeEnd::Returns(Value::Ref(make(heap, object)?)))
}

/// Gives a new text.
pub fn give_text(heap: &mut Heap, text: Text16) -> Result<NativeEnd, NoMemory>
    ensures end { IfOk result (λ e. e ≡ ended (makes_text text) heap.old) }
    ensures heap { OnOk result (heap.new ≡ after (makes_text text) heap.old) }
{
    give_new(heap, Object::Text(text))
}

/// Gives a truth value.
pub fn give_truth(value: bool) -> NativeEnd
    ensures { (heap : Heap) → result ≡ ended (truth value) heap }
{
    if value {
        NativeEnd::Returns(Value::Int(1))
    } else {
        NativeEnd::Returns(Value::Int(0))
    }
}
