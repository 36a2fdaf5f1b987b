//! Blocks, bodies and lambda literals.

ghost use Rattle.kt_parser_blocks.specs.Below.{AreRead};
ghost use Rattle.kt_grammar.specs.StatementParser.{parsers};
ghost use Rattle.kt_parser_steps.specs.Steps.{ReadsAs};
ghost use Rattle.kt_tree.specs.Bodies.{expression_tree};
ghost use Rattle.kt_parser_blocks.specs.Rules as rules;
ghost use Rattle.kt_grammar.specs.ExpressionParser as parser;
ghost use Rattle.kt_tree.specs.Bodies.{block_tree, body_tree, parameter_tree};
ghost use Rattle.std.specs.Prelude.{map};

use crate::below::{Below, Precedence};
use kt_grammar::Context;
use kt_parser_steps::{
    Lead, ParseError, TokenClass, Tokens, attempt_if, beside, expect, expect_identifier, name_of,
    separated, several,
};
use kt_parser_types::annotation;
use kt_tree::{Block, ControlStructureBody, Expression, LambdaParameter, Sign, Statement, Token};
use kt_tree_nodes::blocks::{block, braces, single};
use kt_tree_nodes::expressions as nodes;
use sqlite_items::Items;
use std::alloc::Global;

impl<
    E: Fn(Global, u32, Precedence, Context, &mut Tokens<'_>) -> Result<Expression, ParseError>
        + Copy,
    S: Fn(Global, u32, Context, &mut Tokens<'_>) -> Result<Statement, ParseError> + Copy,
> Below<E, S> {
    /// `statements '}'`, behind `{`.
    pub(crate) fn block_rest(
        &self,
        at: Context,
        tokens: &mut Tokens<'_>,
    ) -> Result<Block, ParseError>
        requires { AreRead self.now.room (E.pre self.now.expression) (E.post self.now.expression)
            (S.pre self.now.statement) (S.post self.now.statement) }
        ensures { ReadsAs block_tree (parser.block_rest ((parsers self.now.room).statement at) tokens.old)
            result tokens.new }
    {
        let (statements, end) = separated(
            self.alloc,
            tokens,
            TokenClass::CloseBrace,
            &|tokens: &mut Tokens<'_>| self.inner_statement(at, tokens),
        )?;
        Ok(block(statements, end))
    }

    /// `'{' statements '}'`
    pub fn block(&self, at: Context, tokens: &mut Tokens<'_>) -> Result<Block, ParseError>
        requires { AreRead self.now.room (E.pre self.now.expression) (E.post self.now.expression)
            (S.pre self.now.statement) (S.post self.now.statement) }
        ensures { ReadsAs block_tree (parser.block_of ((parsers self.now.room).statement at) tokens.old)
            result tokens.new }
    {
        expect(tokens, Sign::OpenBrace)?;
        self.block_rest(at, tokens)
    }

    /// A body of at most `room` levels: a block or a statement.
    pub fn inner_body(
        &self,
        at: Context,
        tokens: &mut Tokens<'_>,
    ) -> Result<ControlStructureBody, ParseError>
        requires { AreRead self.now.room (E.pre self.now.expression) (E.post self.now.expression)
            (S.pre self.now.statement) (S.post self.now.statement) }
        ensures { ReadsAs body_tree ((parsers self.now.room).body at tokens.old) result tokens.new }
    {
        if self.room == 0 {
            return Err(tokens.refuse());
        }
        self.body(at, tokens)
    }

    /// `block | statement`
    fn body(&self, at: Context, tokens: &mut Tokens<'_>) -> Result<ControlStructureBody, ParseError>
        requires { AreRead self.now.room (E.pre self.now.expression) (E.post self.now.expression)
            (S.pre self.now.statement) (S.post self.now.statement) }
        ensures { ReadsAs body_tree (rules.body_over self.now.room at tokens.old) result tokens.new }
    {
        match tokens.take_sign(Sign::OpenBrace) {
            Some(_) => self.braced_body(at, tokens),
            None => self.single_body(at, tokens),
        }
    }

    /// `statements '}'`, behind `{`.
    fn braced_body(
        &self,
        at: Context,
        tokens: &mut Tokens<'_>,
    ) -> Result<ControlStructureBody, ParseError>
        requires { AreRead self.now.room (E.pre self.now.expression) (E.post self.now.expression)
            (S.pre self.now.statement) (S.post self.now.statement) }
        ensures { ReadsAs body_tree (rules.braced_body self.now.room at tokens.old) result tokens.new }
    {
        let block = self.block_rest(at, tokens)?;
        Ok(braces(block))
    }

    /// `statement`
    fn single_body(
        &self,
        at: Context,
        tokens: &mut Tokens<'_>,
    ) -> Result<ControlStructureBody, ParseError>
        requires { AreRead self.now.room (E.pre self.now.expression) (E.post self.now.expression)
            (S.pre self.now.statement) (S.post self.now.statement) }
        ensures { ReadsAs body_tree (rules.single_body self.now.room at tokens.old) result tokens.new }
    {
        let statement = self.inner_statement(at, tokens)?;
        Ok(single(self.alloc, statement)?)
    }

    /// `n (parameters n '->')? statements '}'`, behind this `{`.
    pub fn lambda_rest(
        &self,
        start: &Token,
        tokens: &mut Tokens<'_>,
    ) -> Result<Expression, ParseError>
        requires { AreRead self.now.room (E.pre self.now.expression) (E.post self.now.expression)
            (S.pre self.now.statement) (S.post self.now.statement) }
        ensures { ReadsAs expression_tree (rules.lambda_rest self.now.room start.now tokens.old) result tokens.new }
    {
        tokens.skip_lines();
        let parameters = self.lambda_parameters(tokens)?;
        let (parameters, body) = beside(parameters, self.block_rest(IN_LAMBDA, tokens))?;
        Ok(nodes::lambda(start.pos, parameters, body))
    }

    /// `(parameters n '->')?`
    fn lambda_parameters(
        &self,
        tokens: &mut Tokens<'_>,
    ) -> Result<Items<LambdaParameter>, ParseError>
        requires { AreRead self.now.room (E.pre self.now.expression) (E.post self.now.expression)
            (S.pre self.now.statement) (S.post self.now.statement) }
        ensures { ReadsAs (map parameter_tree) (rules.lambda_parameters self.now.room tokens.old) result tokens.new }
    {
        let parameters = attempt_if(
            self.is_deep(),
            tokens,
            &|tokens: &mut Tokens<'_>| self.lambda_head(tokens),
        )?;
        match parameters {
            Some(parameters) => Ok(parameters),
            None => Ok(Items::new(self.alloc)),
        }
    }

    /// `parameters n '->'`
    fn lambda_head(&self, tokens: &mut Tokens<'_>) -> Result<Items<LambdaParameter>, ParseError>
        requires { AreRead self.now.room (E.pre self.now.expression) (E.post self.now.expression)
            (S.pre self.now.statement) (S.post self.now.statement) }
        ensures { ReadsAs (map parameter_tree) (rules.lambda_head self.now.room tokens.old) result tokens.new }
    {
        let parameters = several(
            self.alloc,
            tokens,
            Lead::Nothing,
            &|tokens: &mut Tokens<'_>| self.lambda_parameter(tokens),
        )?;
        tokens.skip_lines();
        let (parameters, _) = beside(parameters, expect(tokens, Sign::Arrow))?;
        Ok(parameters)
    }

    /// A parameter of at most `room` levels.
    fn lambda_parameter(&self, tokens: &mut Tokens<'_>) -> Result<LambdaParameter, ParseError>
        requires { AreRead self.now.room (E.pre self.now.expression) (E.post self.now.expression)
            (S.pre self.now.statement) (S.post self.now.statement) }
        ensures { ReadsAs parameter_tree ((parsers self.now.room).parameter tokens.old) result tokens.new }
    {
        if self.room == 0 {
            return Err(tokens.refuse());
        }
        self.typed_parameter(tokens)
    }

    /// `ID (':' type)?`
    fn typed_parameter(&self, tokens: &mut Tokens<'_>) -> Result<LambdaParameter, ParseError>
        ensures { ReadsAs parameter_tree (parser.parameter_of self.now.room tokens.old) result tokens.new }
    {
        let token = expect_identifier(tokens)?;
        let name = name_of(self.alloc, token)?;
        let written = annotation(self.alloc, self.room, tokens)?;
        Ok(nodes::parameter(name, written))
    }

    /// A lambda literal of at most `room` levels.
    pub fn inner_lambda(
        &self,
        at: Context,
        tokens: &mut Tokens<'_>,
    ) -> Result<Expression, ParseError>
        requires { AreRead self.now.room (E.pre self.now.expression) (E.post self.now.expression)
            (S.pre self.now.statement) (S.post self.now.statement) }
        ensures { ReadsAs expression_tree ((parsers self.now.room).lambda at tokens.old) result tokens.new }
    {
        if self.room == 0 {
            return Err(tokens.refuse());
        }
        self.lower().lambda(tokens)
    }

    /// `'{' n (parameters n '->')? statements '}'`
    fn lambda(&self, tokens: &mut Tokens<'_>) -> Result<Expression, ParseError>
        requires { AreRead self.now.room (E.pre self.now.expression) (E.post self.now.expression)
            (S.pre self.now.statement) (S.post self.now.statement) }
        ensures { ReadsAs expression_tree (rules.lambda self.now.room tokens.old) result tokens.new }
    {
        let open = expect(tokens, Sign::OpenBrace)?;
        self.lambda_rest(open, tokens)
    }
}

/// In a lambda, and in no loop of it.
const IN_LAMBDA: Context = Context {
    in_loop: false,
    in_lambda: true,
};
