//! Expressions, statements and blocks.

use crate::tokens::Number;
use crate::types::TypeReference;
use kt_base::{Name, Pos, Text16};
use sqlite_items::{Boxed, Items};

/// An expression, and the place of its first token.
#[derive(Drop)]
#[cycle(tree)]
pub struct Expression {
    pub at: Pos,
    pub kind: ExpressionKind,
}

/// What an expression is (Kotlin specification, "Expressions"). Chains of operators and of suffixes group to the left.
#[derive(Drop)]
#[cycle(tree)]
pub enum ExpressionKind {
    Literal(Literal),
    /// A string, by its parts in order.
    Template(Items<StringPart>),
    Name(Name),
    This,
    Parenthesized(Boxed<Expression>),
    Lambda(LambdaLiteral),
    Prefix(PrefixOperator, Boxed<Expression>),
    Binary(BinaryOperator, Boxed<Expression>, Boxed<Expression>),
    /// `is`, or `!is` where the second is true.
    TypeCheck(Boxed<Expression>, bool, TypeReference),
    /// `as`, or `as?` where the second is true.
    Cast(Boxed<Expression>, bool, TypeReference),
    /// `!!`
    NotNull(Boxed<Expression>),
    /// `.` and a name, or `?.` where the second is true.
    Member(Boxed<Expression>, bool, Name),
    /// `[` `]`
    Index(Boxed<Expression>, Boxed<Expression>),
    /// A call: what is called, the place of the first token behind it, the type arguments, and the arguments, of which
    /// a lambda behind the call is the last.
    Call(Boxed<Expression>, Pos, Items<TypeReference>, Items<Expression>),
    If(Boxed<Expression>, ControlStructureBody, Option<ControlStructureBody>),
    /// The subject, where there is one, and the entries.
    When(Option<Boxed<Expression>>, Items<WhenEntry>),
    /// The block, the catch blocks, and the block of `finally`.
    Try(Block, Items<CatchBlock>, Option<Block>),
    Throw(Boxed<Expression>),
    Return(Option<Boxed<Expression>>),
    Break,
    Continue,
}

/// A literal that is no string.
#[derive(Clone, Copy, Debug, PartialEq, Eq)]
pub enum Literal {
    Number(Number),
    /// By its UTF-16 code unit.
    Character(u16),
    True,
    False,
    Null,
}

/// An operator in front of its operand.
#[derive(Clone, Copy, Debug, PartialEq, Eq)]
pub enum PrefixOperator {
    Negate,
    Not,
}

/// An operator between two operands.
#[derive(Clone, Copy, Debug, PartialEq, Eq)]
pub enum BinaryOperator {
    /// `||`
    Disjunction,
    /// `&&`
    Conjunction,
    /// `==`
    Equal,
    /// `!=`
    NotEqual,
    /// `<`
    Less,
    /// `>`
    Greater,
    /// `<=`
    LessOrEqual,
    /// `>=`
    GreaterOrEqual,
    /// `?:`
    Elvis,
    And,
    Or,
    Xor,
    Shl,
    Shr,
    Ushr,
    Plus,
    Minus,
    Times,
    Divide,
    Remainder,
}

/// A part of a string: one of its tokens, or `${` with what stands up to the matching `}`.
#[derive(Drop)]
#[cycle(tree)]
pub enum StringPart {
    Text(TextPart),
    /// `$` with an identifier.
    NamePart(Name),
    /// `$this`
    ThisPart,
    /// `${` and `}` round an expression.
    Hole(Boxed<Expression>),
}

/// A part of a string that is text.
#[derive(Drop)]
pub enum TextPart {
    /// A run of characters, as UTF-16 code units.
    Run(Text16),
    /// An escape, by the UTF-16 code unit that it stands for.
    Escape(u16),
    /// A `$` before anything else.
    Dollar,
}

/// A lambda literal. Where it has no parameters and no `->` is written, it may have one named `it`.
#[derive(Drop)]
#[cycle(tree)]
pub struct LambdaLiteral {
    pub parameters: Items<LambdaParameter>,
    pub body: Block,
}

/// A parameter of a lambda literal, with the type that is written.
#[derive(Drop)]
pub struct LambdaParameter {
    pub name: Name,
    pub annotation: Option<TypeReference>,
}

/// An entry of a `when`. The conditions are empty exactly where it is `else`.
#[derive(Drop)]
#[cycle(tree)]
pub struct WhenEntry {
    pub conditions: Items<WhenCondition>,
    pub body: ControlStructureBody,
}

/// A condition of an entry.
#[derive(Drop)]
#[cycle(tree)]
pub enum WhenCondition {
    /// An expression, which the subject is compared with; without a subject a truth value.
    Equals(Boxed<Expression>),
    /// `is`, or `!is` where the first is true.
    OfType(bool, TypeReference),
}

/// `catch`: the name of the exception, its type, and what is done.
#[derive(Drop)]
#[cycle(tree)]
pub struct CatchBlock {
    pub name: Name,
    pub exception: TypeReference,
    pub body: Block,
}

/// The body of a branch, a loop or an entry (Kotlin specification, `controlStructureBody`).
#[derive(Drop)]
#[cycle(tree)]
pub enum ControlStructureBody {
    Braces(Block),
    Single(Boxed<Statement>),
}

/// Statements, and the place of the `}` behind them.
#[derive(Drop)]
#[cycle(tree)]
pub struct Block {
    pub statements: Items<Statement>,
    pub end: Pos,
}

/// A statement, and the place of its first token.
#[derive(Drop)]
#[cycle(tree)]
pub struct Statement {
    pub at: Pos,
    pub kind: StatementKind,
}

/// What a statement is (Kotlin specification, "Statements").
#[derive(Drop)]
#[cycle(tree)]
pub enum StatementKind {
    /// `var` where the first is true, else `val`; the name, the type that is written, and the initialiser.
    Local(bool, Name, Option<TypeReference>, Option<Boxed<Expression>>),
    Assign(Boxed<Expression>, AssignmentOperator, Boxed<Expression>),
    Step(Boxed<Expression>, StepOperator),
    While(Boxed<Expression>, ControlStructureBody),
    DoWhile(Block, Boxed<Expression>),
    /// The variable, the first value, the operator, the bound, and the body.
    For(Name, Boxed<Expression>, RangeOperator, Boxed<Expression>, ControlStructureBody),
    Evaluate(Boxed<Expression>),
}

/// An operator of an assignment.
#[derive(Clone, Copy, Debug, PartialEq, Eq)]
pub enum AssignmentOperator {
    /// `=`
    Set,
    /// `+=`
    Add,
    /// `-=`
    Subtract,
    /// `*=`
    Multiply,
    /// `/=`
    Divide,
    /// `%=`
    Remainder,
}

/// `++` or `--`, as a statement.
#[derive(Clone, Copy, Debug, PartialEq, Eq)]
pub enum StepOperator {
    Increment,
    Decrement,
}

/// What stands between the first value and the bound of a `for`.
#[derive(Clone, Copy, Debug, PartialEq, Eq)]
pub enum RangeOperator {
    /// `..`, which includes the bound
    Through,
    /// `until`, which doesn't
    Until,
}
