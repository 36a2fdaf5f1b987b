//! Operators, built-in functions, locals and captures, resolved.

use kt_base::Name;
use kt_types_tree::KtType;

/// A literal that is no string.
#[derive(Clone, Copy, Debug, PartialEq, Eq)]
pub enum TypedLiteral {
    Int(i32),
    Long(i64),
    Boolean(bool),
    /// One UTF-16 code unit.
    Char(u16),
    Null,
}

/// On which numbers an operation works. An `Int` operand of an operation on `Long` is widened.
#[derive(Clone, Copy, Debug, PartialEq, Eq)]
pub enum Width {
    Int,
    Long,
}

#[derive(Clone, Copy, Debug, PartialEq, Eq)]
pub enum ArithmeticOperator {
    Plus,
    Minus,
    Times,
    Divide,
    Remainder,
}

#[derive(Clone, Copy, Debug, PartialEq, Eq)]
pub enum BitwiseOperator {
    And,
    Or,
    Xor,
}

#[derive(Clone, Copy, Debug, PartialEq, Eq)]
pub enum ShiftOperator {
    /// To the left.
    Shl,
    /// To the right, keeping the sign.
    Shr,
    /// To the right, with zeros.
    Ushr,
}

#[derive(Clone, Copy, Debug, PartialEq, Eq)]
pub enum ComparisonOperator {
    Less,
    Greater,
    LessOrEqual,
    GreaterOrEqual,
}

/// What an order is asked of.
#[derive(Clone, Copy, Debug, PartialEq, Eq)]
pub enum Ordered {
    Numbers(Width),
    Characters,
}

/// An operation on two operands.
#[derive(Clone, Copy, Debug, PartialEq, Eq)]
pub enum TypedOperator {
    /// `||`, which evaluates the right side where the left is false
    Disjunction,
    /// `&&`, which evaluates the right side where the left is true
    Conjunction,
    /// `?:`, which evaluates the right side where the left is null
    Elvis,
    /// `==`: a null left side equals only null; else the left value decides
    Equal,
    /// `!=`
    NotEqual,
    /// `+` on a string
    Concatenate,
    Arithmetic(ArithmeticOperator, Width),
    /// On two values of the width.
    Bitwise(BitwiseOperator, Width),
    /// The left operand has the width; the count is an `Int`.
    Shift(ShiftOperator, Width),
    Compare(ComparisonOperator, Ordered),
}

/// Which property is read or assigned.
#[derive(Clone, Copy, Debug, PartialEq, Eq)]
pub enum TypedProperty {
    /// The class that declares it, by its row, and its place among the properties there. The first throwable declares
    /// `message`.
    Declared(u32, u32),
    /// `name` of an entry of an enum
    EntryName,
    /// `ordinal` of an entry of an enum
    Ordinal,
    /// `size` of an array
    Size,
    /// `length` of a string
    Length,
    /// `code` of a character
    Code,
}

/// A built-in function that is called without a receiver.
#[derive(Clone, Copy, Debug, PartialEq, Eq)]
pub enum BuiltIn {
    Println,
    Launch,
    SuspendCoroutine,
    IntArray,
    ArrayOfNulls,
    /// The constructor of a throwable, by its row.
    Throwable(u32),
}

/// A built-in function that is called on a receiver.
#[derive(Clone, Copy, Debug, PartialEq, Eq)]
pub enum BuiltInMethod {
    /// of a continuation
    Resume,
    /// of a continuation
    ResumeWithException,
    /// of a string
    Substring,
    /// of an `Int`
    ToLong,
    /// of an `Int`
    ToChar,
    /// of a `Long`
    ToInt,
    /// of an `Int` or a `Long`
    Inv,
    /// of each type that can be printed
    ToString,
    /// of a job
    Join,
}

/// What a local is.
#[derive(Clone, Copy, Debug, PartialEq, Eq)]
pub enum LocalKind {
    Parameter,
    Val,
    Var,
    LoopVariable,
    CaughtException,
}

/// A local of a body.
#[derive(Drop)]
pub struct TypedLocal {
    pub name: Name,
    pub kind: LocalKind,
    /// The declared type, or that of the initialiser where none is written.
    pub declared: KtType,
}

/// Where the body round a lambda has what the lambda captures.
#[derive(Clone, Copy, Debug, PartialEq, Eq)]
pub enum CaptureSource {
    This,
    /// A local of that body.
    Local(u32),
    /// A capture of that body, which is a lambda too.
    Captured(u32),
}

/// What a lambda captures.
#[derive(Drop)]
pub struct Capture {
    pub source: CaptureSource,
    /// Whether it is a `var`, so that both sides see later writes.
    pub is_variable: bool,
    /// The declared type.
    pub declared: KtType,
}
