//! The built-in throwables.

ghost use Rattle.kt_types_builtins.specs.Throwables as spec;
ghost use Rattle.std.specs.Prelude.{◌≡◌};

/// A throwable that every program has. All are open, have `val message: String?`, and are built with no argument, which
/// makes the message null, or with one of type `String?`.
#[derive(Clone, Copy, Debug, PartialEq, Eq)]
pub enum BuiltInThrowable {
    Throwable,
    Exception,
    RuntimeException,
    IllegalStateException,
    IllegalArgumentException,
    ArithmeticException,
    NullPointerException,
    ClassCastException,
    NegativeArraySizeException,
    IndexOutOfBoundsException,
    ArrayIndexOutOfBoundsException,
    StringIndexOutOfBoundsException,
}

/// All of them, in the order of their rows.
#[tactic(auto, unfolding(crate::specs::Throwables::throwables))]
pub fn throwables() -> &'static [BuiltInThrowable]
    ensures { result.now ≡ spec.throwables }
{
    &[
        BuiltInThrowable::Throwable,
        BuiltInThrowable::Exception,
        BuiltInThrowable::RuntimeException,
        BuiltInThrowable::IllegalStateException,
        BuiltInThrowable::IllegalArgumentException,
        BuiltInThrowable::ArithmeticException,
        BuiltInThrowable::NullPointerException,
        BuiltInThrowable::ClassCastException,
        BuiltInThrowable::NegativeArraySizeException,
        BuiltInThrowable::IndexOutOfBoundsException,
        BuiltInThrowable::ArrayIndexOutOfBoundsException,
        BuiltInThrowable::StringIndexOutOfBoundsException,
    ]
}

impl BuiltInThrowable {
    /// How it is written, in ASCII. Its JVM name has `java/lang/` before it.
    pub fn name(self) -> &'static [u8]
        ensures { result.now ≡ spec.throwable_name self }
    {
        match self {
            BuiltInThrowable::Throwable => b"Throwable",
            BuiltInThrowable::Exception => b"Exception",
            BuiltInThrowable::RuntimeException => b"RuntimeException",
            BuiltInThrowable::IllegalStateException => b"IllegalStateException",
            BuiltInThrowable::IllegalArgumentException => b"IllegalArgumentException",
            BuiltInThrowable::ArithmeticException => b"ArithmeticException",
            BuiltInThrowable::NullPointerException => b"NullPointerException",
            BuiltInThrowable::ClassCastException => b"ClassCastException",
            BuiltInThrowable::NegativeArraySizeException => b"NegativeArraySizeException",
            BuiltInThrowable::IndexOutOfBoundsException => b"IndexOutOfBoundsException",
            BuiltInThrowable::ArrayIndexOutOfBoundsException => b"ArrayIndexOutOfBoundsException",
            BuiltInThrowable::StringIndexOutOfBoundsException => b"StringIndexOutOfBoundsException",
        }
    }

    /// Its row in the hierarchy of every program.
    pub fn row(self) -> u32
        ensures { result ≡ spec.throwable_row self }
    {
        match self {
            BuiltInThrowable::Throwable => 0,
            BuiltInThrowable::Exception => 1,
            BuiltInThrowable::RuntimeException => 2,
            BuiltInThrowable::IllegalStateException => 3,
            BuiltInThrowable::IllegalArgumentException => 4,
            BuiltInThrowable::ArithmeticException => 5,
            BuiltInThrowable::NullPointerException => 6,
            BuiltInThrowable::ClassCastException => 7,
            BuiltInThrowable::NegativeArraySizeException => 8,
            BuiltInThrowable::IndexOutOfBoundsException => 9,
            BuiltInThrowable::ArrayIndexOutOfBoundsException => 10,
            BuiltInThrowable::StringIndexOutOfBoundsException => 11,
        }
    }

    /// Its declared supertype; `Throwable` has none.
    pub fn superclass(self) -> Option<BuiltInThrowable>
        ensures { result ≡ spec.throwable_super self }
    {
        match self {
            BuiltInThrowable::Throwable => None,
            BuiltInThrowable::Exception => Some(BuiltInThrowable::Throwable),
            BuiltInThrowable::RuntimeException => Some(BuiltInThrowable::Exception),
            BuiltInThrowable::IllegalStateException => Some(BuiltInThrowable::RuntimeException),
            BuiltInThrowable::IllegalArgumentException => Some(BuiltInThrowable::RuntimeException),
            BuiltInThrowable::ArithmeticException => Some(BuiltInThrowable::RuntimeException),
            BuiltInThrowable::NullPointerException => Some(BuiltInThrowable::RuntimeException),
            BuiltInThrowable::ClassCastException => Some(BuiltInThrowable::RuntimeException),
            BuiltInThrowable::NegativeArraySizeException => Some(
                BuiltInThrowable::RuntimeException,
            ),
            BuiltInThrowable::IndexOutOfBoundsException => Some(BuiltInThrowable::RuntimeException),
            BuiltInThrowable::ArrayIndexOutOfBoundsException => Some(
                BuiltInThrowable::IndexOutOfBoundsException,
            ),
            BuiltInThrowable::StringIndexOutOfBoundsException => Some(
                BuiltInThrowable::IndexOutOfBoundsException,
            ),
        }
    }

    /// The throwable that is written so; none where no built-in throwable is.
    #[tactic(auto, unfolding(crate::specs::Throwables::throwable_of_name))]
    pub fn of_name(name: &[u8]) -> Option<BuiltInThrowable>
        ensures { result ≡ spec.throwable_of_name name.now }
    {
        throwables().iter().find(|t| t.name() == name).copied()
    }
}
