//! The methods that the machine has without code, by their classes and names.

/// The methods of `java/lang/String` and of `kt/rt/Text`.
#[derive(Clone, Copy, Debug, PartialEq, Eq)]
pub enum TextNative {
    StringLength,
    StringCharAt,
    StringSubstring,
    StringEquals,
    StringToString,
    Concat,
    OfInt,
    OfLong,
    OfBoolean,
    OfCharacter,
}

/// The methods of `java/lang/Integer`, `Long`, `Boolean` and `Character`.
#[derive(Clone, Copy, Debug, PartialEq, Eq)]
pub enum BoxNative {
    IntegerValueOf,
    IntegerValue,
    IntegerEquals,
    IntegerToString,
    LongValueOf,
    LongValue,
    LongEquals,
    LongToString,
    BooleanValueOf,
    BooleanValue,
    BooleanEquals,
    BooleanToString,
    CharacterValueOf,
    CharacterValue,
    CharacterEquals,
    CharacterToString,
}

/// The methods of `java/lang/Object`, of throwables, `kt/rt/Unit`, `kt/rt/Entry` and `kt/rt/ContinuationImpl`.
#[derive(Clone, Copy, Debug, PartialEq, Eq)]
pub enum ObjectNative {
    ObjectInit,
    ObjectEquals,
    ObjectToString,
    ThrowableInit,
    ThrowableInitMessage,
    ThrowableGetMessage,
    UnitGet,
    UnitEquals,
    UnitToString,
    EntryInit,
    EntryEquals,
    EntryToString,
    ContinuationInit,
}

/// The methods of `kt/rt/Out`, `kt/rt/Turn` and `kt/rt/Cells` that hand no value to another coroutine.
#[derive(Clone, Copy, Debug, PartialEq, Eq)]
pub enum AskingNative {
    OutPrintln,
    Tick,
    CellsMake,
    CellsAwait,
    CellsSuspended,
}

/// Those of `kt/rt/Cells` that do.
#[derive(Clone, Copy, Debug, PartialEq, Eq)]
pub enum SendingNative {
    CellsLaunch,
    CellsResume,
    CellsFail,
}

/// A method that the machine has without code.
#[derive(Clone, Copy, Debug, PartialEq, Eq)]
pub enum Native {
    Text(TextNative),
    Box(BoxNative),
    Object(ObjectNative),
    Asking(AskingNative),
    Sending(SendingNative),
}
