//! Expressions and statements of each number of levels.

ghost use Rattle.kt_parser_blocks.specs.Rules.{expression};
ghost use Rattle.kt_grammar.specs.StatementParser.{parsers};
ghost use Rattle.kt_parser_steps.specs.Steps.{ReadsAs};
ghost use Rattle.kt_tree.specs.Bodies.{expression_tree, statement_tree};
ghost use Rattle.kt_grammar.specs.ExpressionParser as parser;
ghost use Rattle.kt_tree.specs.Bodies.{block_tree};
ghost use Rattle.std.specs.Prelude.{◌+◌, ◌<◌, ◌^◌};

use crate::statements::Statements;
use kt_grammar::Context;
use kt_parser_blocks::{Below, Precedence};
use kt_parser_operators::Operators;
use kt_parser_steps::{ParseError, Tokens};
use kt_tree::{Block, Expression, Statement};
use std::alloc::Global;

/// An expression of at most `room` levels.
#[cycle(phrases)]
pub fn read_expression(
    alloc: Global,
    room: u32,
    precedence: Precedence,
    at: Context,
    tokens: &mut Tokens<'_>,
) -> Result<Expression, ParseError>
    requires { room + 1 < 2 ^ 32 }
    ensures { ReadsAs expression_tree (expression precedence room at tokens.old) result tokens.new }
{
    if room == 0 {
        return Err(tokens.refuse());
    }
    let below = Below {
        alloc,
        room: room - 1,
        expression: read_expression,
        statement: read_statement,
    };
    Operators { below }.whole_expression(precedence, at, tokens)
}

/// An expression of at most `room` levels, with any operators.
pub fn read_whole_expression(
    alloc: Global,
    room: u32,
    at: Context,
    tokens: &mut Tokens<'_>,
) -> Result<Expression, ParseError>
    requires { room + 1 < 2 ^ 32 }
    ensures { ReadsAs expression_tree ((parsers room).disjunction at tokens.old) result tokens.new }
{
    read_expression(alloc, room, Precedence::Disjunction, at, tokens)
}

/// A statement of at most `room` levels.
#[cycle(phrases)]
pub fn read_statement(
    alloc: Global,
    room: u32,
    at: Context,
    tokens: &mut Tokens<'_>,
) -> Result<Statement, ParseError>
    requires { room + 1 < 2 ^ 32 }
    ensures { ReadsAs statement_tree ((parsers room).statement at tokens.old) result tokens.new }
{
    if room == 0 {
        return Err(tokens.refuse());
    }
    let below = Below {
        alloc,
        room: room - 1,
        expression: read_expression,
        statement: read_statement,
    };
    Statements { below }.whole_statement(at, tokens)
}

/// `'{' statements '}'`, each statement of at most `room` levels.
pub fn read_block(
    alloc: Global,
    room: u32,
    at: Context,
    tokens: &mut Tokens<'_>,
) -> Result<Block, ParseError>
    requires { room + 2 < 2 ^ 32 }
    ensures { ReadsAs block_tree (parser.block_of ((parsers room).statement at) tokens.old) result tokens.new }
{
    Below {
        alloc,
        room,
        expression: read_expression,
        statement: read_statement,
    }
    .block(at, tokens)
}
