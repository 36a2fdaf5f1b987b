//! What typing gives: the headers of a file, and its bodies with every name resolved and every expression typed.
//!
//! The folder `specs/` has the mirrors: plain data that definitions match on, with the views that show headers, bodies
//! and units as such, and the lists of lambdas, suspension points and direct statements in text order.
#![tactic(auto)]

pub mod bodies;
pub mod headers;
pub mod operators;
pub mod units;

pub use bodies::{
    Callee, Receiver, Target, TypedBlock, TypedCall, TypedCatch, TypedCondition, TypedEntry,
    TypedExpression, TypedFun, TypedKind, TypedPart, TypedStatement, TypedStatementKind,
};
pub use headers::{
    ClassParameter, ConstantLiteral, DeclarationNumber, DeclaredClass, DeclaredConstant,
    DeclaredEntry, DeclaredFunction, DeclaredParameter, DeclaredProperty, DeclaredTypeParameter,
    Headers, MemberNumber, Overridden,
};
pub use operators::{
    ArithmeticOperator, BitwiseOperator, BuiltIn, BuiltInMethod, Capture, CaptureSource,
    ComparisonOperator, LocalKind, Ordered, ShiftOperator, TypedLiteral, TypedLocal, TypedOperator,
    TypedProperty, Width,
};
pub use units::{TypedClass, TypedUnit};
