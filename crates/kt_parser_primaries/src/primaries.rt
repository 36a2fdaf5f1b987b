//! Primary expressions, in the order in which they are told apart by their first token.

ghost use Rattle.kt_parser_blocks.specs.Below.{AreRead};
ghost use Rattle.kt_parser_steps.specs.Steps.{Expects, ReadsAs};
ghost use Rattle.kt_tree.specs.Bodies.{expression_tree};
ghost use Rattle.kt_parser_primaries.specs.Rules as rules;

use kt_grammar::Context;
use kt_parser_blocks::{Below, Precedence};
use kt_parser_steps::{
    ParseError, Refused, TokenClass, Tokens, beside, class_ahead, expect, keyword_if, name_of,
    sign_if, take_literal,
};
use kt_tree::{Expression, Keyword, Sign, Statement, Token};
use kt_tree_nodes::expressions::{
    break_loop, continue_loop, literal, name, parenthesized, return_with, this, throw,
};
use std::alloc::Global;

/// The parser of the primary expressions that hold phrases of at most `room` levels.
#[derive(Clone, Copy)]
pub struct Primaries<E, S> {
    /// Where it stands, and what reads the levels below.
    pub below: Below<E, S>,
}

impl<
    E: Fn(Global, u32, Precedence, Context, &mut Tokens<'_>) -> Result<Expression, ParseError>
        + Copy,
    S: Fn(Global, u32, Context, &mut Tokens<'_>) -> Result<Statement, ParseError> + Copy,
> Primaries<E, S> {
    /// What begins a level of its own, or another primary expression.
    pub fn primary(&self, at: Context, tokens: &mut Tokens<'_>) -> Result<Expression, ParseError>
        requires { AreRead self.now.below.room (E.pre self.now.below.expression) (E.post self.now.below.expression)
            (S.pre self.now.below.statement) (S.post self.now.below.statement) }
        ensures { ReadsAs expression_tree (rules.primary self.now.below.room at tokens.old) result tokens.new }
    {
        let deep = self.below.is_deep();
        match sign_if(deep, tokens, Sign::OpenParenthesis) {
            Some(token) => self.parenthesized_rest(token, at, tokens),
            None => match keyword_if(deep, tokens, Keyword::If) {
                Some(token) => self.below.if_rest(token, at, tokens),
                None => match keyword_if(deep, tokens, Keyword::Throw) {
                    Some(token) => self.throw_rest(token, at, tokens),
                    None => self.jump(at, tokens),
                },
            },
        }
    }

    /// `expr ')'`, behind this `(`.
    fn parenthesized_rest(
        &self,
        start: &Token,
        at: Context,
        tokens: &mut Tokens<'_>,
    ) -> Result<Expression, ParseError>
        requires { AreRead self.now.below.room (E.pre self.now.below.expression) (E.post self.now.below.expression)
            (S.pre self.now.below.statement) (S.post self.now.below.statement) }
        ensures { ReadsAs expression_tree (rules.parenthesized_rest self.now.below.room at start.now tokens.old)
            result tokens.new }
    {
        let inner = self
            .below
            .inner_expression(Precedence::Disjunction, at, tokens)?;
        let (inner, _) = beside(inner, expect(tokens, Sign::CloseParenthesis))?;
        Ok(parenthesized(self.below.alloc, start.pos, inner)?)
    }

    /// `expr`, behind this `throw`.
    fn throw_rest(
        &self,
        start: &Token,
        at: Context,
        tokens: &mut Tokens<'_>,
    ) -> Result<Expression, ParseError>
        requires { AreRead self.now.below.room (E.pre self.now.below.expression) (E.post self.now.below.expression)
            (S.pre self.now.below.statement) (S.post self.now.below.statement) }
        ensures { ReadsAs expression_tree (rules.throw_rest self.now.below.room at start.now tokens.old)
            result tokens.new }
    {
        let exception = self
            .below
            .inner_expression(Precedence::Disjunction, at, tokens)?;
        Ok(throw(self.below.alloc, start.pos, exception)?)
    }

    /// `return` outside of lambdas, `break` and `continue` in loops, or another primary expression.
    fn jump(&self, at: Context, tokens: &mut Tokens<'_>) -> Result<Expression, ParseError>
        requires { AreRead self.now.below.room (E.pre self.now.below.expression) (E.post self.now.below.expression)
            (S.pre self.now.below.statement) (S.post self.now.below.statement) }
        ensures { ReadsAs expression_tree (rules.jump self.now.below.room at tokens.old) result tokens.new }
    {
        match keyword_if(!at.in_lambda, tokens, Keyword::Return) {
            Some(token) => self.return_rest(token, at, tokens),
            None => match keyword_if(at.in_loop, tokens, Keyword::Break) {
                Some(token) => Ok(break_loop(token.pos)),
                None => match keyword_if(at.in_loop, tokens, Keyword::Continue) {
                    Some(token) => Ok(continue_loop(token.pos)),
                    None => self.braced(at, tokens),
                },
            },
        }
    }

    /// `expr?`, behind this `return`: a value, where the next token begins an expression.
    fn return_rest(
        &self,
        start: &Token,
        at: Context,
        tokens: &mut Tokens<'_>,
    ) -> Result<Expression, ParseError>
        requires { AreRead self.now.below.room (E.pre self.now.below.expression) (E.post self.now.below.expression)
            (S.pre self.now.below.statement) (S.post self.now.below.statement) }
        ensures { ReadsAs expression_tree (rules.return_rest self.now.below.room at start.now tokens.old)
            result tokens.new }
    {
        if class_ahead(tokens, TokenClass::BeginsExpression) {
            self.returned_value(start, at, tokens)
        } else {
            Ok(return_with(self.below.alloc, start.pos, None)?)
        }
    }

    /// `expr`, behind this `return`.
    fn returned_value(
        &self,
        start: &Token,
        at: Context,
        tokens: &mut Tokens<'_>,
    ) -> Result<Expression, ParseError>
        requires { AreRead self.now.below.room (E.pre self.now.below.expression) (E.post self.now.below.expression)
            (S.pre self.now.below.statement) (S.post self.now.below.statement) }
        ensures { ReadsAs expression_tree (rules.returned_value self.now.below.room at start.now tokens.old)
            result tokens.new }
    {
        let value = self
            .below
            .inner_expression(Precedence::Disjunction, at, tokens)?;
        Ok(return_with(self.below.alloc, start.pos, Some(value))?)
    }

    /// A lambda literal, `when`, `try`, or another primary expression.
    fn braced(&self, at: Context, tokens: &mut Tokens<'_>) -> Result<Expression, ParseError>
        requires { AreRead self.now.below.room (E.pre self.now.below.expression) (E.post self.now.below.expression)
            (S.pre self.now.below.statement) (S.post self.now.below.statement) }
        ensures { ReadsAs expression_tree (rules.braced self.now.below.room at tokens.old) result tokens.new }
    {
        match tokens.take_sign(Sign::OpenBrace) {
            Some(token) => self.below.lambda_rest(token, tokens),
            None => match tokens.take_keyword(Keyword::When) {
                Some(token) => self.below.when_rest(token, at, tokens),
                None => match tokens.take_keyword(Keyword::Try) {
                    Some(token) => self.below.try_rest(token, at, tokens),
                    None => self.atom(at, tokens),
                },
            },
        }
    }

    /// A string, `this`, a name, or a literal.
    fn atom(&self, at: Context, tokens: &mut Tokens<'_>) -> Result<Expression, ParseError>
        requires { AreRead self.now.below.room (E.pre self.now.below.expression) (E.post self.now.below.expression)
            (S.pre self.now.below.statement) (S.post self.now.below.statement) }
        ensures { ReadsAs expression_tree (rules.atom self.now.below.room at tokens.old) result tokens.new }
    {
        match tokens.take_class(TokenClass::OpenQuote) {
            Some(token) => self.string_rest(token.pos, at, tokens),
            None => match tokens.take_keyword(Keyword::This) {
                Some(token) => Ok(this(token.pos)),
                None => match tokens.take_identifier() {
                    Some(token) => Ok(name(token.pos, name_of(self.below.alloc, token)?)),
                    None => Ok(literal_atom(tokens)?),
                },
            },
        }
    }
}

/// A literal that is no string.
fn literal_atom(tokens: &mut Tokens<'_>) -> Result<Expression, Refused>
    ensures { Expects expression_tree (rules.literal_atom tokens.old) result tokens.new }
{
    match take_literal(true, tokens) {
        Some((token, value)) => Ok(literal(token.pos, value)),
        None => Err(Refused),
    }
}
