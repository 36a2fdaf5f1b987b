//! The methods without code of each of the machine's own classes.

ghost use Rattle.mach_natives.specs.Tables as spec;
ghost use Rattle.std.specs.Prelude.{◌≡◌};

use crate::natives::{AskingNative, BoxNative, Native, ObjectNative, SendingNative, TextNative};
use jvm_runtime::RuntimeClass;

fn of_throwable() -> &'static [Native]
    ensures { result.now ≡ spec.of_throwable }
{
    &[
        Native::Object(ObjectNative::ThrowableInit),
        Native::Object(ObjectNative::ThrowableInitMessage),
        Native::Object(ObjectNative::ThrowableGetMessage),
    ]
}

/// Those of a class, in the order in which it lists its methods.
fn natives(class: RuntimeClass) -> &'static [Native]
    ensures { result.now ≡ spec.natives class }
{
    match class {
        RuntimeClass::Object => &[
            Native::Object(ObjectNative::ObjectInit),
            Native::Object(ObjectNative::ObjectEquals),
            Native::Object(ObjectNative::ObjectToString),
        ],
        RuntimeClass::String => &[
            Native::Text(TextNative::StringLength),
            Native::Text(TextNative::StringCharAt),
            Native::Text(TextNative::StringSubstring),
            Native::Text(TextNative::StringEquals),
            Native::Text(TextNative::StringToString),
        ],
        RuntimeClass::Integer => &[
            Native::Box(BoxNative::IntegerValueOf),
            Native::Box(BoxNative::IntegerValue),
            Native::Box(BoxNative::IntegerEquals),
            Native::Box(BoxNative::IntegerToString),
        ],
        RuntimeClass::Long => &[
            Native::Box(BoxNative::LongValueOf),
            Native::Box(BoxNative::LongValue),
            Native::Box(BoxNative::LongEquals),
            Native::Box(BoxNative::LongToString),
        ],
        RuntimeClass::Boolean => &[
            Native::Box(BoxNative::BooleanValueOf),
            Native::Box(BoxNative::BooleanValue),
            Native::Box(BoxNative::BooleanEquals),
            Native::Box(BoxNative::BooleanToString),
        ],
        RuntimeClass::Character => &[
            Native::Box(BoxNative::CharacterValueOf),
            Native::Box(BoxNative::CharacterValue),
            Native::Box(BoxNative::CharacterEquals),
            Native::Box(BoxNative::CharacterToString),
        ],
        RuntimeClass::Throwable => of_throwable(),
        RuntimeClass::Exception => of_throwable(),
        RuntimeClass::RuntimeException => of_throwable(),
        RuntimeClass::IllegalStateException => of_throwable(),
        RuntimeClass::IllegalArgumentException => of_throwable(),
        RuntimeClass::ArithmeticException => of_throwable(),
        RuntimeClass::NullPointerException => of_throwable(),
        RuntimeClass::ClassCastException => of_throwable(),
        RuntimeClass::NegativeArraySizeException => of_throwable(),
        RuntimeClass::IndexOutOfBoundsException => of_throwable(),
        RuntimeClass::ArrayIndexOutOfBoundsException => of_throwable(),
        RuntimeClass::StringIndexOutOfBoundsException => of_throwable(),
        RuntimeClass::Unit => &[
            Native::Object(ObjectNative::UnitGet),
            Native::Object(ObjectNative::UnitEquals),
            Native::Object(ObjectNative::UnitToString),
        ],
        RuntimeClass::Entry => &[
            Native::Object(ObjectNative::EntryInit),
            Native::Object(ObjectNative::EntryEquals),
            Native::Object(ObjectNative::EntryToString),
        ],
        RuntimeClass::Out => &[Native::Asking(AskingNative::OutPrintln)],
        RuntimeClass::Text => &[
            Native::Text(TextNative::Concat),
            Native::Text(TextNative::OfInt),
            Native::Text(TextNative::OfLong),
            Native::Text(TextNative::OfBoolean),
            Native::Text(TextNative::OfCharacter),
        ],
        RuntimeClass::Turn => &[Native::Asking(AskingNative::Tick)],
        RuntimeClass::Cell => &[],
        RuntimeClass::Cells => &[
            Native::Asking(AskingNative::CellsMake),
            Native::Sending(SendingNative::CellsLaunch),
            Native::Sending(SendingNative::CellsResume),
            Native::Sending(SendingNative::CellsFail),
            Native::Asking(AskingNative::CellsAwait),
            Native::Asking(AskingNative::CellsSuspended),
        ],
        RuntimeClass::ContinuationImpl => &[Native::Object(ObjectNative::ContinuationInit)],
        RuntimeClass::Function0 => &[],
        RuntimeClass::Function1 => &[],
        RuntimeClass::Function2 => &[],
        RuntimeClass::Function3 => &[],
        RuntimeClass::Function4 => &[],
        RuntimeClass::Function5 => &[],
        RuntimeClass::Function6 => &[],
        RuntimeClass::Function7 => &[],
    }
}

impl Native {
    /// The method at a place among those of a class; none where it is abstract, or isn't there.
    pub fn at(class: RuntimeClass, place: usize) -> Option<Native>
        ensures { result ≡ spec.native_at class place }
    {
        natives(class).get(place).copied()
    }
}
