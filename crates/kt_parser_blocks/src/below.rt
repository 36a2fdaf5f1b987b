//! The parser of one level of phrases, over function values that read the levels below.
//!
//! A rule is a method of [`Below`], or of a struct that holds one, so that each is proved by itself. The crate that makes
//! whole expressions and statements hands these in.

ghost use Rattle.kt_parser_blocks.specs.Below.{AreRead};
ghost use Rattle.kt_grammar.specs.StatementParser.{parsers};
ghost use Rattle.kt_parser_steps.specs.Steps.{ReadsAs};
ghost use Rattle.kt_tree.specs.Bodies.{expression_tree, statement_tree};
ghost use Rattle.kt_parser_blocks.specs.Rules.{expression, has_more};
ghost use Rattle.kt_grammar_parsers.specs.Parsers.{some_levels};
ghost use Rattle.kt_tree.specs.Levels.{levels};
ghost use Rattle.std.specs.Prelude.{◌≡◌, ◌+◌, ◌<◌};

use kt_grammar::Context;
use kt_parser_steps::{ParseError, Tokens};
use kt_tree::{Expression, Statement};
use std::alloc::Global;

/// Which operators an expression may have outside of parentheses: those of its own row, and of the rows below it. (Kotlin
/// specification, "Expressions", the rows of precedence from the lowest on.)
#[derive(Clone, Copy, Debug, PartialEq, Eq)]
pub enum Precedence {
    /// `||`
    Disjunction,
    /// `&&`
    Conjunction,
    /// `==`, `!=`
    Equality,
    /// `<`, `>`, `<=`, `>=`
    Comparison,
    /// `is`, `!is`, and `?:`
    Test,
    /// `and`, `shl` and their kin
    Infix,
    /// `+`, `-`
    Additive,
    /// `*`, `/`, `%`
    Multiplicative,
    /// `as`, `as?`
    Cast,
    /// `-`, `!`
    Prefix,
}

/// The parser of the phrases that hold phrases of at most `room` levels.
#[derive(Clone, Copy)]
pub struct Below<E, S> {
    /// Where trees are made.
    pub alloc: Global,
    /// How many levels are left for what a phrase holds.
    pub room: u32,
    /// Reads an expression of at most so many levels.
    pub expression: E,
    /// Reads a statement of at most so many levels.
    pub statement: S,
}

impl<
    E: Fn(Global, u32, Precedence, Context, &mut Tokens<'_>) -> Result<Expression, ParseError>
        + Copy,
    S: Fn(Global, u32, Context, &mut Tokens<'_>) -> Result<Statement, ParseError> + Copy,
> Below<E, S> {
    /// An expression of at most `room` levels.
    pub fn inner_expression(
        &self,
        precedence: Precedence,
        at: Context,
        tokens: &mut Tokens<'_>,
    ) -> Result<Expression, ParseError>
        requires { AreRead self.now.room (E.pre self.now.expression) (E.post self.now.expression)
            (S.pre self.now.statement) (S.post self.now.statement) }
        ensures { ReadsAs expression_tree (expression precedence self.now.room at tokens.old) result tokens.new }
    {
        (self.expression)(self.alloc, self.room, precedence, at, tokens)
    }

    /// A statement of at most `room` levels.
    pub fn inner_statement(
        &self,
        at: Context,
        tokens: &mut Tokens<'_>,
    ) -> Result<Statement, ParseError>
        requires { AreRead self.now.room (E.pre self.now.expression) (E.post self.now.expression)
            (S.pre self.now.statement) (S.post self.now.statement) }
        ensures { ReadsAs statement_tree ((parsers self.now.room).statement at tokens.old) result tokens.new }
    {
        (self.statement)(self.alloc, self.room, at, tokens)
    }

    /// The parser of the phrases one level lower, which are those of at most `room` levels.
    pub fn lower(&self) -> Below<E, S>
        requires below { AreRead self.now.room (E.pre self.now.expression) (E.post self.now.expression)
            (S.pre self.now.statement) (S.post self.now.statement) }
        requires level { 0 < self.now.room }
        ensures room { result.room + 1 ≡ self.now.room }
        ensures reads { AreRead result.room (E.pre result.expression) (E.post result.expression)
            (S.pre result.statement) (S.post result.statement) }
    {
        Below {
            room: self.room - 1,
            ..*self
        }
    }

    /// Whether a level is left for what a phrase holds.
    pub fn is_deep(&self) -> bool
        ensures { result ≡ some_levels (parsers self.now.room).levels }
    {
        self.room > 0
    }

    /// Whether there is room for a level above the expression.
    pub fn has_more(&self, value: &Expression) -> bool
        requires { AreRead self.now.room (E.pre self.now.expression) (E.post self.now.expression)
            (S.pre self.now.statement) (S.post self.now.statement) }
        ensures { result ≡ has_more self.now.room (expression_tree value.now) }
    {
        value.levels() <= self.room
    }
}
