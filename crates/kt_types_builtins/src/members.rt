//! The members of built-in types.

ghost use Rattle.kt_types_builtins.specs.Members as spec;
ghost use Rattle.std.specs.Prelude.{◌≡◌};

/// What a built-in member is a member of.
#[derive(Clone, Copy, Debug, PartialEq, Eq)]
pub enum Receiver {
    /// `Int`
    Int,
    /// `Long`
    Long,
    /// `Char`
    Char,
    /// `String`
    String,
    /// `IntArray` or `Array<T>`
    Array,
    /// `Continuation<T>`
    Continuation,
    /// An enum
    Enum,
    /// A class that is `Throwable` or below it
    Throwable,
    /// A type that can be printed
    Printable,
}

/// The type of a parameter or of a result.
#[derive(Clone, Copy, Debug, PartialEq, Eq)]
pub enum MemberType {
    /// `Int`
    Int,
    /// `Long`
    Long,
    /// `Char`
    Char,
    /// `String`
    String,
    /// `String?`
    NullableString,
    /// `Unit`
    Unit,
    /// `Throwable`
    Throwable,
    /// The type argument of the receiver
    Argument,
}

/// A member that every program has.
#[derive(Clone, Copy, Debug, PartialEq, Eq)]
pub enum BuiltInMember {
    /// `size: Int` of an array of either kind
    ArraySize,
    /// `length: Int` of a `String`: the low 32 bits of its number of UTF-16 units
    StringLength,
    /// `substring(start: Int, end: Int): String`
    StringSubstring,
    /// `toLong()` of an `Int`
    IntToLong,
    /// `toChar()` of an `Int`
    IntToChar,
    /// `inv()` of an `Int`
    IntInverse,
    /// `toInt()` of a `Long`
    LongToInt,
    /// `inv()` of a `Long`
    LongInverse,
    /// `code: Int` of a `Char`
    CharCode,
    /// `resume(value: T)` of a `Continuation<T>`
    Resume,
    /// `resumeWithException(exception: Throwable)` of a `Continuation`
    ResumeWithException,
    /// `name: String` of an enum
    EntryName,
    /// `ordinal: Int` of an enum
    EntryOrdinal,
    /// `message: String?` of a throwable
    Message,
    /// `toString(): String` of a value that can be printed
    ToString,
}

/// The row of a member in the table.
#[derive(Clone, Copy)]
pub struct MemberRow {
    pub receiver: Receiver,
    /// How it is written, in ASCII
    pub name: &'static [u8],
    /// The types of its parameters; none where it is a property
    pub parameters: Option<&'static [MemberType]>,
    pub result: MemberType,
}

/// All of them.
#[tactic(auto, unfolding(crate::specs::Members::members))]
fn members() -> &'static [BuiltInMember]
    ensures { result.now ≡ spec.members }
{
    &[
        BuiltInMember::ArraySize,
        BuiltInMember::StringLength,
        BuiltInMember::StringSubstring,
        BuiltInMember::IntToLong,
        BuiltInMember::IntToChar,
        BuiltInMember::IntInverse,
        BuiltInMember::LongToInt,
        BuiltInMember::LongInverse,
        BuiltInMember::CharCode,
        BuiltInMember::Resume,
        BuiltInMember::ResumeWithException,
        BuiltInMember::EntryName,
        BuiltInMember::EntryOrdinal,
        BuiltInMember::Message,
        BuiltInMember::ToString,
    ]
}

fn is_same_receiver(a: Receiver, b: Receiver) -> bool
    ensures { result ≡ spec.same_receiver a b }
{
    a == b
}

impl BuiltInMember {
    /// Its row in the table.
    pub fn row(self) -> MemberRow
        ensures { spec.shown_row result ≡ spec.member_row self }
    {
        match self {
            BuiltInMember::ArraySize => MemberRow {
                receiver: Receiver::Array,
                name: b"size",
                parameters: None,
                result: MemberType::Int,
            },
            BuiltInMember::StringLength => MemberRow {
                receiver: Receiver::String,
                name: b"length",
                parameters: None,
                result: MemberType::Int,
            },
            BuiltInMember::StringSubstring => MemberRow {
                receiver: Receiver::String,
                name: b"substring",
                parameters: Some(&[MemberType::Int, MemberType::Int]),
                result: MemberType::String,
            },
            BuiltInMember::IntToLong => MemberRow {
                receiver: Receiver::Int,
                name: b"toLong",
                parameters: Some(&[]),
                result: MemberType::Long,
            },
            BuiltInMember::IntToChar => MemberRow {
                receiver: Receiver::Int,
                name: b"toChar",
                parameters: Some(&[]),
                result: MemberType::Char,
            },
            BuiltInMember::IntInverse => MemberRow {
                receiver: Receiver::Int,
                name: b"inv",
                parameters: Some(&[]),
                result: MemberType::Int,
            },
            BuiltInMember::LongToInt => MemberRow {
                receiver: Receiver::Long,
                name: b"toInt",
                parameters: Some(&[]),
                result: MemberType::Int,
            },
            BuiltInMember::LongInverse => MemberRow {
                receiver: Receiver::Long,
                name: b"inv",
                parameters: Some(&[]),
                result: MemberType::Long,
            },
            BuiltInMember::CharCode => MemberRow {
                receiver: Receiver::Char,
                name: b"code",
                parameters: None,
                result: MemberType::Int,
            },
            BuiltInMember::Resume => MemberRow {
                receiver: Receiver::Continuation,
                name: b"resume",
                parameters: Some(&[MemberType::Argument]),
                result: MemberType::Unit,
            },
            BuiltInMember::ResumeWithException => MemberRow {
                receiver: Receiver::Continuation,
                name: b"resumeWithException",
                parameters: Some(&[MemberType::Throwable]),
                result: MemberType::Unit,
            },
            BuiltInMember::EntryName => MemberRow {
                receiver: Receiver::Enum,
                name: b"name",
                parameters: None,
                result: MemberType::String,
            },
            BuiltInMember::EntryOrdinal => MemberRow {
                receiver: Receiver::Enum,
                name: b"ordinal",
                parameters: None,
                result: MemberType::Int,
            },
            BuiltInMember::Message => MemberRow {
                receiver: Receiver::Throwable,
                name: b"message",
                parameters: None,
                result: MemberType::NullableString,
            },
            BuiltInMember::ToString => MemberRow {
                receiver: Receiver::Printable,
                name: b"toString",
                parameters: Some(&[]),
                result: MemberType::String,
            },
        }
    }

    /// Whether it is the member of this receiver that is written so.
    fn is_written(self, receiver: Receiver, name: &[u8]) -> bool
        ensures { result ≡ spec.is_written self receiver name.now }
    {
        let row = self.row();
        is_same_receiver(row.receiver, receiver) && row.name == name
    }

    /// The member of this receiver that is written so; none where there is no such built-in member.
    #[tactic(auto, unfolding(crate::specs::Members::member_of))]
    pub fn of(receiver: Receiver, name: &[u8]) -> Option<BuiltInMember>
        ensures { result ≡ spec.member_of receiver name.now }
    {
        members()
            .iter()
            .find(|m| m.is_written(receiver, name))
            .copied()
    }
}
