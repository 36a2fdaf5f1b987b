//! Tokens and the syntax tree of the language.
//!
//! A token has a kind and a place. The tree has one kind of node for each production of the grammar; what a later
//! stage may blame carries the place of its first token. The folder `specs/` has, for each recursive tree, a mirror:
//! plain data that definitions match on, with the view that shows a tree as its mirror.
#![tactic(auto)]

pub mod bodies;
pub mod declaration_levels;
pub mod declaration_stages;
pub mod declarations;
pub mod levels;
pub mod stages;
pub mod tokens;
pub mod types;

pub use bodies::{
    AssignmentOperator, BinaryOperator, Block, CatchBlock, ControlStructureBody, Expression,
    ExpressionKind, LambdaLiteral, LambdaParameter, Literal, PrefixOperator, RangeOperator,
    Statement, StatementKind, StepOperator, StringPart, TextPart, WhenCondition, WhenEntry,
};
pub use declarations::{
    ClassDeclaration, ClassMember, ClassModifiers, ConstantDeclaration, ConstantValue,
    ConstructorParameter, ConstructorParameterKind, Declaration, EnumDeclaration, EnumEntry,
    FileTree, FunctionBody, FunctionDeclaration, FunctionModifiers, InterfaceDeclaration,
    Parameter, PropertyDeclaration, SuperArguments, Supertype, TypeParameter,
};
pub use tokens::{Keyword, Number, Sign, SoftKeyword, Token, TokenKind};
pub use types::TypeReference;
