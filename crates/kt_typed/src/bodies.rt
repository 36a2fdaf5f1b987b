//! Typed expressions, statements and bodies.

use crate::operators::{
    BuiltIn, BuiltInMethod, Capture, TypedLiteral, TypedLocal, TypedOperator, TypedProperty, Width,
};
use kt_base::Pos;
use kt_tree::{PrefixOperator, RangeOperator, StepOperator, TextPart};
use kt_types_tree::KtType;
use sqlite_items::{Boxed, Items};

/// An expression and its type: the one that the place where it stands chose.
#[derive(Drop)]
#[cycle(typed)]
pub struct TypedExpression {
    pub of_type: KtType,
    pub kind: TypedKind,
}

/// What an expression is.
#[derive(Drop)]
#[cycle(typed)]
pub enum TypedKind {
    Literal(TypedLiteral),
    /// A string, by its parts in order.
    Template(Items<TypedPart>),
    /// A local of this body.
    Local(u32),
    /// What this lambda captures, by its place among the captures.
    Captured(u32),
    /// `this`, in a lambda the captured one.
    This,
    /// A constant of the file.
    Constant(u32),
    /// An entry of an enum: the enum's row, and the ordinal.
    EnumEntry(u32, u32),
    Property(Receiver, TypedProperty),
    Prefix(PrefixOperator, Boxed<TypedExpression>),
    Binary(TypedOperator, Boxed<TypedExpression>, Boxed<TypedExpression>),
    /// `is`, or `!is` where the second is true.
    TypeTest(Boxed<TypedExpression>, bool, KtType),
    /// `as`, or `as?` where the second is true.
    Cast(Boxed<TypedExpression>, bool, KtType),
    /// `!!`
    NotNull(Boxed<TypedExpression>),
    /// An element of an array, or a unit of a string.
    Index(Boxed<TypedExpression>, Boxed<TypedExpression>),
    Call(TypedCall),
    If(Boxed<TypedExpression>, TypedBlock, Option<TypedBlock>),
    /// The subject, where there is one, which is evaluated once, and the entries.
    When(Option<Boxed<TypedExpression>>, Items<TypedEntry>),
    /// The block, the catch blocks, and the block of `finally`.
    Try(TypedBlock, Items<TypedCatch>, Option<TypedBlock>),
    Throw(Boxed<TypedExpression>),
    Return(Option<Boxed<TypedExpression>>),
    Break,
    Continue,
    /// A lambda literal: its number, and its body.
    Lambda(u32, Boxed<TypedFun>),
}

/// A part of a string.
#[derive(Drop)]
#[cycle(typed)]
pub enum TypedPart {
    /// One token of text.
    Text(TextPart),
    /// An expression that is printed.
    Printed(Boxed<TypedExpression>),
}

/// On what a member is read or called.
#[derive(Drop)]
#[cycle(typed)]
pub enum Receiver {
    /// `this`, which isn't written.
    Implicit,
    /// Before `.`
    Plain(Boxed<TypedExpression>),
    /// Before `?.`: where it is null, so is the whole, and no argument is evaluated.
    Safe(Boxed<TypedExpression>),
}

/// A call.
#[derive(Drop)]
#[cycle(typed)]
pub struct TypedCall {
    pub callee: Callee,
    /// As written, or as found.
    pub type_arguments: Items<KtType>,
    pub arguments: Items<TypedExpression>,
    /// Whether it is a suspension point.
    pub suspends: bool,
    /// The place of the first token behind what is called.
    pub suffix: Pos,
}

/// What is called.
#[derive(Drop)]
#[cycle(typed)]
pub enum Callee {
    /// A function at top level.
    Function(u32),
    /// The constructor of a class of the file, by its row.
    Constructor(u32),
    /// A function of a class: the row of the class that declares it, and its place among the functions there. The class
    /// of the receiver's value decides which body runs.
    Method(Receiver, u32, u32),
    /// A value of function type, and whether the call names it: a name, or a member.
    Value(Boxed<TypedExpression>, bool),
    BuiltIn(BuiltIn),
    BuiltInMethod(Receiver, BuiltInMethod),
}

/// An entry of a `when`. The conditions are empty exactly where it is `else`.
#[derive(Drop)]
#[cycle(typed)]
pub struct TypedEntry {
    pub conditions: Items<TypedCondition>,
    pub body: TypedBlock,
}

/// A condition of an entry.
#[derive(Drop)]
#[cycle(typed)]
pub enum TypedCondition {
    /// The subject equals the value.
    Equals(Boxed<TypedExpression>),
    /// The value is true, in a `when` without a subject.
    Holds(Boxed<TypedExpression>),
    /// The subject is of the type, or isn't where the first is true.
    OfType(bool, KtType),
}

/// `catch`: the local that has the exception, the class of throwables that fit, by its row, and what is done.
#[derive(Drop)]
#[cycle(typed)]
pub struct TypedCatch {
    pub local: u32,
    pub class: u32,
    pub body: TypedBlock,
}

/// Statements, and the expression behind them whose value the block has. Without one it has the value `Unit`.
#[derive(Drop)]
#[cycle(typed)]
pub struct TypedBlock {
    pub statements: Items<TypedStatement>,
    pub value: Option<Boxed<TypedExpression>>,
}

/// A statement, and the place of its first token.
#[derive(Drop)]
#[cycle(typed)]
pub struct TypedStatement {
    pub at: Pos,
    pub kind: TypedStatementKind,
}

/// What a statement is.
#[derive(Drop)]
#[cycle(typed)]
pub enum TypedStatementKind {
    /// The declaration of a local, with its initialiser.
    Declare(u32, Option<Boxed<TypedExpression>>),
    /// An assignment; with an operation, which the old value and the new expression are given to.
    Assign(Target, Option<TypedOperator>, Boxed<TypedExpression>),
    Step(Target, StepOperator, Width),
    While(Boxed<TypedExpression>, TypedBlock),
    /// The condition sees the locals of the block.
    DoWhile(TypedBlock, Boxed<TypedExpression>),
    /// The loop variable, whose type is that of both bounds, the first value, the operator, the bound, and the body.
    For(u32, Boxed<TypedExpression>, RangeOperator, Boxed<TypedExpression>, TypedBlock),
    Evaluate(Boxed<TypedExpression>),
    /// In a constructor: the arguments for the constructor of the superclass.
    Superclass(Items<TypedExpression>),
    /// In a constructor: the initialiser of a property, by its place among those of the class.
    Initialize(u32, Boxed<TypedExpression>),
    /// The value of an expression body or of a lambda. It ends the body.
    Result(Boxed<TypedExpression>),
    /// The closing brace of a function.
    End,
}

/// What is assigned to.
#[derive(Drop)]
#[cycle(typed)]
pub enum Target {
    ToLocal(u32),
    ToCaptured(u32),
    ToProperty(Receiver, TypedProperty),
    /// An array and the index.
    ToElement(Boxed<TypedExpression>, Boxed<TypedExpression>),
}

/// The body of a function, of a member, of a constructor or of a lambda.
#[derive(Drop)]
#[cycle(typed)]
pub struct TypedFun {
    /// The place of the first token of the declaration, or of the lambda's `{`.
    pub at: Pos,
    pub is_suspend: bool,
    /// Of a lambda: `this` first, then by first mention.
    pub captures: Items<Capture>,
    /// How many of the locals are its parameters. They come first.
    pub parameters: u32,
    pub locals: Items<TypedLocal>,
    pub result: KtType,
    pub statements: Items<TypedStatement>,
}
