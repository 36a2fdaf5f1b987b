//! `try` with its `catch` blocks and `finally`.

ghost use Rattle.kt_parser_blocks.specs.Below.{AreRead};
ghost use Rattle.kt_grammar.specs.StatementParser.{parsers};
ghost use Rattle.kt_parser_steps.specs.Steps.{Expects, ReadsAs};
ghost use Rattle.kt_tree.specs.Bodies.{expression_tree};
ghost use Rattle.kt_parser_blocks.specs.Rules as rules;
ghost use Rattle.kt_parser_steps.specs.Steps.{turn_tree};
ghost use Rattle.kt_tree.specs.Bodies.{block_tree, catch_tree};
ghost use Rattle.std.specs.Prelude.{map};

use crate::below::{Below, Precedence};
use kt_base::Name;
use kt_grammar::Context;
use kt_parser_steps::{
    ParseError, Refused, Tokens, Turn, beside, expect, expect_identifier, expect_soft_keyword,
    name_of, part_if, repeat,
};
use kt_parser_types::read_type;
use kt_tree::{Block, CatchBlock, Expression, Sign, SoftKeyword, Statement, Token};
use kt_tree_nodes::blocks::catch;
use kt_tree_nodes::expressions::try_catch;
use sqlite_items::Items;
use std::alloc::Global;

/// `n 'catch' '(' ID ':'`. The name is given.
fn catch_head<'a>(tokens: &mut Tokens<'a>) -> Result<&'a Token, Refused>
    ensures { Expects (λ token. token.now) (rules.catch_head tokens.old) result tokens.new }
{
    tokens.skip_lines();
    expect_soft_keyword(tokens, SoftKeyword::Catch)?;
    expect(tokens, Sign::OpenParenthesis)?;
    let name = expect_identifier(tokens)?;
    expect(tokens, Sign::Colon)?;
    Ok(name)
}

/// `n 'finally' n '{'`
fn finally_head<'a>(tokens: &mut Tokens<'a>) -> Result<&'a Token, Refused>
    ensures { Expects (λ token. token.now) (rules.finally_head tokens.old) result tokens.new }
{
    tokens.skip_lines();
    expect_soft_keyword(tokens, SoftKeyword::Finally)?;
    tokens.skip_lines();
    expect(tokens, Sign::OpenBrace)
}

impl<
    E: Fn(Global, u32, Precedence, Context, &mut Tokens<'_>) -> Result<Expression, ParseError>
        + Copy,
    S: Fn(Global, u32, Context, &mut Tokens<'_>) -> Result<Statement, ParseError> + Copy,
> Below<E, S> {
    /// `n block catches (n 'finally' n block)?`, behind this `try`.
    pub fn try_rest(
        &self,
        start: &Token,
        at: Context,
        tokens: &mut Tokens<'_>,
    ) -> Result<Expression, ParseError>
        requires { AreRead self.now.room (E.pre self.now.expression) (E.post self.now.expression)
            (S.pre self.now.statement) (S.post self.now.statement) }
        ensures { ReadsAs expression_tree (rules.try_rest self.now.room at start.now tokens.old) result tokens.new }
    {
        tokens.skip_lines();
        let block = self.block(at, tokens)?;
        let (block, catches) = beside(block, self.catches(at, tokens))?;
        self.finally_rest(start, at, block, catches, tokens)
    }

    /// As many `catch` blocks as there are.
    fn catches(&self, at: Context, tokens: &mut Tokens<'_>) -> Result<Items<CatchBlock>, ParseError>
        requires { AreRead self.now.room (E.pre self.now.expression) (E.post self.now.expression)
            (S.pre self.now.statement) (S.post self.now.statement) }
        ensures { ReadsAs (map catch_tree) (rules.catches self.now.room at tokens.old) result tokens.new }
    {
        repeat(
            tokens,
            Items::new(self.alloc),
            &|catches: Items<CatchBlock>, tokens: &mut Tokens<'_>| self.catch_turn(
                at, catches, tokens,
            ),
        )
    }

    /// One `catch` block more, where one comes next.
    fn catch_turn(
        &self,
        at: Context,
        catches: Items<CatchBlock>,
        tokens: &mut Tokens<'_>,
    ) -> Result<Turn<Items<CatchBlock>, Items<CatchBlock>>, ParseError>
        requires { AreRead self.now.room (E.pre self.now.expression) (E.post self.now.expression)
            (S.pre self.now.statement) (S.post self.now.statement) }
        ensures { ReadsAs (turn_tree (map catch_tree) (map catch_tree))
            (rules.catch_turn self.now.room at (map catch_tree catches) tokens.old) result tokens.new }
    {
        match part_if(self.is_deep(), tokens, &catch_head) {
            Some(token) => self.catch_more(at, catches, token, tokens),
            None => Ok(Turn::Done(catches)),
        }
    }

    /// `type ')' n block`, behind the name of a `catch` and `:`.
    fn catch_more(
        &self,
        at: Context,
        mut catches: Items<CatchBlock>,
        token: &Token,
        tokens: &mut Tokens<'_>,
    ) -> Result<Turn<Items<CatchBlock>, Items<CatchBlock>>, ParseError>
        requires { AreRead self.now.room (E.pre self.now.expression) (E.post self.now.expression)
            (S.pre self.now.statement) (S.post self.now.statement) }
        ensures { ReadsAs (turn_tree (map catch_tree) (map catch_tree))
            (rules.catch_more self.now.room at (map catch_tree catches) token.now tokens.old) result tokens.new }
    {
        let name = name_of(self.alloc, token)?;
        let next = self.inner_catch(at, name, tokens)?;
        catches.push(next)?;
        Ok(Turn::More(catches))
    }

    /// `type ')' n block`, a `catch` block of at most `room` levels.
    fn inner_catch(
        &self,
        at: Context,
        name: Name,
        tokens: &mut Tokens<'_>,
    ) -> Result<CatchBlock, ParseError>
        requires { AreRead self.now.room (E.pre self.now.expression) (E.post self.now.expression)
            (S.pre self.now.statement) (S.post self.now.statement) }
        ensures { ReadsAs catch_tree ((parsers self.now.room).catch at name tokens.old) result tokens.new }
    {
        if self.room == 0 {
            return Err(tokens.refuse());
        }
        self.lower().catch_rest(at, name, tokens)
    }

    /// `type ')' n block`
    fn catch_rest(
        &self,
        at: Context,
        name: Name,
        tokens: &mut Tokens<'_>,
    ) -> Result<CatchBlock, ParseError>
        requires { AreRead self.now.room (E.pre self.now.expression) (E.post self.now.expression)
            (S.pre self.now.statement) (S.post self.now.statement) }
        ensures { ReadsAs catch_tree (rules.catch_rest self.now.room at name tokens.old) result tokens.new }
    {
        let exception = read_type(self.alloc, self.room + 1, tokens)?;
        let (exception, _) = beside(exception, expect(tokens, Sign::CloseParenthesis))?;
        tokens.skip_lines();
        let (exception, body) = beside(exception, self.block(at, tokens))?;
        Ok(catch(name, exception, body))
    }

    /// `(n 'finally' n block)?`, behind the `catch` blocks. It has to stand where there are none.
    fn finally_rest(
        &self,
        start: &Token,
        at: Context,
        block: Block,
        catches: Items<CatchBlock>,
        tokens: &mut Tokens<'_>,
    ) -> Result<Expression, ParseError>
        requires { AreRead self.now.room (E.pre self.now.expression) (E.post self.now.expression)
            (S.pre self.now.statement) (S.post self.now.statement) }
        ensures { ReadsAs expression_tree
            (rules.finally_rest self.now.room at start.now (block_tree block) (map catch_tree catches) tokens.old)
            result tokens.new }
    {
        match part_if(true, tokens, &finally_head) {
            Some(_) => self.finally_block(start, at, block, catches, tokens),
            None => without_finally(start, block, catches, tokens),
        }
    }

    /// `statements '}'`, behind `finally {`.
    fn finally_block(
        &self,
        start: &Token,
        at: Context,
        block: Block,
        catches: Items<CatchBlock>,
        tokens: &mut Tokens<'_>,
    ) -> Result<Expression, ParseError>
        requires { AreRead self.now.room (E.pre self.now.expression) (E.post self.now.expression)
            (S.pre self.now.statement) (S.post self.now.statement) }
        ensures { ReadsAs expression_tree
            (rules.finally_block self.now.room at start.now (block_tree block) (map catch_tree catches) tokens.old)
            result tokens.new }
    {
        let held = beside((block, catches), self.block_rest(at, tokens));
        let ((block, catches), last) = held?;
        Ok(try_catch(start.pos, block, catches, Some(last)))
    }
}

/// A `try` without `finally` has a `catch`.
fn without_finally(
    start: &Token,
    block: Block,
    catches: Items<CatchBlock>,
    tokens: &mut Tokens<'_>,
) -> Result<Expression, ParseError>
    ensures { ReadsAs expression_tree
        (rules.without_finally start.now (block_tree block) (map catch_tree catches) tokens.old) result tokens.new }
{
    if catches.is_empty() {
        return Err(tokens.refuse());
    }
    Ok(try_catch(start.pos, block, catches, None))
}
