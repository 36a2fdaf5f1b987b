//! The classes that the machine itself has, and how they stand to one another.

ghost use Rattle.jvm_class_types.specs.declared.flags.ClassFlags.TheVariants as flags;
ghost use Rattle.jvm_runtime.specs.Classes.{class_flags, class_name, class_named, is_extensible, runtime_classes, superclass};
ghost use Rattle.std.specs.Prelude.{◌≡◌};

use jvm_class_types::ClassFlags;

/// A class that the machine has without a class file.
#[derive(Clone, Copy, Debug, PartialEq, Eq)]
pub enum RuntimeClass {
    /// The class above all others.
    Object,
    /// Texts.
    String,
    /// Boxed `int`s.
    Integer,
    /// Boxed `long`s.
    Long,
    /// Boxed booleans.
    Boolean,
    /// Boxed characters.
    Character,
    /// What can be thrown.
    Throwable,
    /// A throwable that a program is expected to handle.
    Exception,
    /// An exception that any code may throw.
    RuntimeException,
    /// A call came at a time that does not allow it.
    IllegalStateException,
    /// An argument is not allowed.
    IllegalArgumentException,
    /// A division by zero.
    ArithmeticException,
    /// Null where an object is needed.
    NullPointerException,
    /// An object is not of the class that is needed.
    ClassCastException,
    /// An array was to have a negative size.
    NegativeArraySizeException,
    /// An index is out of range.
    IndexOutOfBoundsException,
    /// An index of an array is out of range.
    ArrayIndexOutOfBoundsException,
    /// An index of a text is out of range.
    StringIndexOutOfBoundsException,
    /// The class of the one value of `Unit`.
    Unit,
    /// The class above the enums, whose objects are their entries.
    Entry,
    /// Printing.
    Out,
    /// Making texts.
    Text,
    /// Counting turns.
    Turn,
    /// Cells, by their number.
    Cell,
    /// What a coroutine asks about cells.
    Cells,
    /// The class above all continuations.
    ContinuationImpl,
    /// Functions of no arguments.
    Function0,
    /// Functions of one argument.
    Function1,
    /// Functions of two arguments.
    Function2,
    /// Functions of three arguments.
    Function3,
    /// Functions of four arguments.
    Function4,
    /// Functions of five arguments.
    Function5,
    /// Functions of six arguments.
    Function6,
    /// Functions of seven arguments.
    Function7,
}

/// All of them, each once.
#[tactic(auto, unfolding(crate::specs::Classes::runtime_classes))]
pub fn runtime_classes() -> &'static [RuntimeClass]
    ensures { result.now ≡ runtime_classes }
{
    &[
        RuntimeClass::Object,
        RuntimeClass::String,
        RuntimeClass::Integer,
        RuntimeClass::Long,
        RuntimeClass::Boolean,
        RuntimeClass::Character,
        RuntimeClass::Throwable,
        RuntimeClass::Exception,
        RuntimeClass::RuntimeException,
        RuntimeClass::IllegalStateException,
        RuntimeClass::IllegalArgumentException,
        RuntimeClass::ArithmeticException,
        RuntimeClass::NullPointerException,
        RuntimeClass::ClassCastException,
        RuntimeClass::NegativeArraySizeException,
        RuntimeClass::IndexOutOfBoundsException,
        RuntimeClass::ArrayIndexOutOfBoundsException,
        RuntimeClass::StringIndexOutOfBoundsException,
        RuntimeClass::Unit,
        RuntimeClass::Entry,
        RuntimeClass::Out,
        RuntimeClass::Text,
        RuntimeClass::Turn,
        RuntimeClass::Cell,
        RuntimeClass::Cells,
        RuntimeClass::ContinuationImpl,
        RuntimeClass::Function0,
        RuntimeClass::Function1,
        RuntimeClass::Function2,
        RuntimeClass::Function3,
        RuntimeClass::Function4,
        RuntimeClass::Function5,
        RuntimeClass::Function6,
        RuntimeClass::Function7,
    ]
}

impl RuntimeClass {
    /// The class of this name: `None` exactly where none has it.
    #[tactic(auto, unfolding(crate::specs::Classes::class_named))]
    pub fn of_name(name: &[u8]) -> Option<RuntimeClass>
        ensures { result ≡ class_named name.now }
    {
        runtime_classes()
            .iter()
            .find(|class| class.name() == name)
            .copied()
    }

    /// The name, in the internal form (JVMS SE 8 §4.2.1).
    pub fn name(self) -> &'static [u8]
        ensures { result.now ≡ class_name self }
    {
        match self {
            RuntimeClass::Object => b"java/lang/Object",
            RuntimeClass::String => b"java/lang/String",
            RuntimeClass::Integer => b"java/lang/Integer",
            RuntimeClass::Long => b"java/lang/Long",
            RuntimeClass::Boolean => b"java/lang/Boolean",
            RuntimeClass::Character => b"java/lang/Character",
            RuntimeClass::Throwable => b"java/lang/Throwable",
            RuntimeClass::Exception => b"java/lang/Exception",
            RuntimeClass::RuntimeException => b"java/lang/RuntimeException",
            RuntimeClass::IllegalStateException => b"java/lang/IllegalStateException",
            RuntimeClass::IllegalArgumentException => b"java/lang/IllegalArgumentException",
            RuntimeClass::ArithmeticException => b"java/lang/ArithmeticException",
            RuntimeClass::NullPointerException => b"java/lang/NullPointerException",
            RuntimeClass::ClassCastException => b"java/lang/ClassCastException",
            RuntimeClass::NegativeArraySizeException => b"java/lang/NegativeArraySizeException",
            RuntimeClass::IndexOutOfBoundsException => b"java/lang/IndexOutOfBoundsException",
            RuntimeClass::ArrayIndexOutOfBoundsException =>
                b"java/lang/ArrayIndexOutOfBoundsException",
            RuntimeClass::StringIndexOutOfBoundsException =>
                b"java/lang/StringIndexOutOfBoundsException",
            RuntimeClass::Unit => b"kt/rt/Unit",
            RuntimeClass::Entry => b"kt/rt/Entry",
            RuntimeClass::Out => b"kt/rt/Out",
            RuntimeClass::Text => b"kt/rt/Text",
            RuntimeClass::Turn => b"kt/rt/Turn",
            RuntimeClass::Cell => b"kt/rt/Cell",
            RuntimeClass::Cells => b"kt/rt/Cells",
            RuntimeClass::ContinuationImpl => b"kt/rt/ContinuationImpl",
            RuntimeClass::Function0 => b"kt/rt/Function0",
            RuntimeClass::Function1 => b"kt/rt/Function1",
            RuntimeClass::Function2 => b"kt/rt/Function2",
            RuntimeClass::Function3 => b"kt/rt/Function3",
            RuntimeClass::Function4 => b"kt/rt/Function4",
            RuntimeClass::Function5 => b"kt/rt/Function5",
            RuntimeClass::Function6 => b"kt/rt/Function6",
            RuntimeClass::Function7 => b"kt/rt/Function7",
        }
    }

    /// The flags (JVMS SE 8 §4.1).
    pub fn flags(self) -> ClassFlags
        ensures { result ≡ class_flags self }
    {
        match self {
            RuntimeClass::Object
            | RuntimeClass::Entry
            | RuntimeClass::Throwable
            | RuntimeClass::Exception
            | RuntimeClass::RuntimeException
            | RuntimeClass::IllegalStateException
            | RuntimeClass::IllegalArgumentException
            | RuntimeClass::ArithmeticException
            | RuntimeClass::NullPointerException
            | RuntimeClass::ClassCastException
            | RuntimeClass::NegativeArraySizeException
            | RuntimeClass::IndexOutOfBoundsException
            | RuntimeClass::ArrayIndexOutOfBoundsException
            | RuntimeClass::StringIndexOutOfBoundsException => ClassFlags::Open,
            RuntimeClass::ContinuationImpl => ClassFlags::Abstract,
            RuntimeClass::Function0
            | RuntimeClass::Function1
            | RuntimeClass::Function2
            | RuntimeClass::Function3
            | RuntimeClass::Function4
            | RuntimeClass::Function5
            | RuntimeClass::Function6
            | RuntimeClass::Function7 => ClassFlags::Interface,
            RuntimeClass::String
            | RuntimeClass::Integer
            | RuntimeClass::Long
            | RuntimeClass::Boolean
            | RuntimeClass::Character
            | RuntimeClass::Unit
            | RuntimeClass::Out
            | RuntimeClass::Text
            | RuntimeClass::Turn
            | RuntimeClass::Cell
            | RuntimeClass::Cells => ClassFlags::Final,
        }
    }

    /// Whether a class file may extend the class, or implement it where it is an interface.
    pub fn may_be_extended(self) -> bool
        ensures { result ≡ is_extensible self }
    {
        !matches!(self.flags(), ClassFlags::Final)
    }

    /// The class directly above: `None` for `java/lang/Object` alone.
    pub fn superclass(self) -> Option<RuntimeClass>
        ensures { result ≡ superclass self }
    {
        match self {
            RuntimeClass::Object => None,
            RuntimeClass::Exception => Some(RuntimeClass::Throwable),
            RuntimeClass::RuntimeException => Some(RuntimeClass::Exception),
            RuntimeClass::IllegalStateException
            | RuntimeClass::IllegalArgumentException
            | RuntimeClass::ArithmeticException
            | RuntimeClass::NullPointerException
            | RuntimeClass::ClassCastException
            | RuntimeClass::NegativeArraySizeException
            | RuntimeClass::IndexOutOfBoundsException => Some(RuntimeClass::RuntimeException),
            RuntimeClass::ArrayIndexOutOfBoundsException
            | RuntimeClass::StringIndexOutOfBoundsException => Some(
                RuntimeClass::IndexOutOfBoundsException,
            ),
            RuntimeClass::String
            | RuntimeClass::Integer
            | RuntimeClass::Long
            | RuntimeClass::Boolean
            | RuntimeClass::Character
            | RuntimeClass::Throwable
            | RuntimeClass::Unit
            | RuntimeClass::Entry
            | RuntimeClass::Out
            | RuntimeClass::Text
            | RuntimeClass::Turn
            | RuntimeClass::Cell
            | RuntimeClass::Cells
            | RuntimeClass::ContinuationImpl
            | RuntimeClass::Function0
            | RuntimeClass::Function1
            | RuntimeClass::Function2
            | RuntimeClass::Function3
            | RuntimeClass::Function4
            | RuntimeClass::Function5
            | RuntimeClass::Function6
            | RuntimeClass::Function7 => Some(RuntimeClass::Object),
        }
    }
}
