//! Types, expressions and blocks as declarations hold them: with all levels, outside of loops and lambdas.

ghost use Rattle.kt_grammar.specs.DeclarationParser as parser;
ghost use Rattle.kt_grammar.specs.DeclarationParser.{any_type, top};
ghost use Rattle.kt_grammar.specs.Declarations.{outside};
ghost use Rattle.kt_grammar.specs.ExpressionParser.{block_of};
ghost use Rattle.kt_grammar.specs.Readers.{maybe};
ghost use Rattle.kt_parser_steps.specs.Steps.{ReadsAs};
ghost use Rattle.kt_tree.specs.Bodies.{block_tree, expression_tree};
ghost use Rattle.kt_tree.specs.Tokens.{is_sign};
ghost use Rattle.kt_tree.specs.Types.{maybe_type, type_tree};
ghost use Rattle.kt_tree.specs.declared.tokens.Sign.TheVariants as sign;

use kt_grammar::Context;
use kt_parser_statements::{read_block, read_whole_expression};
use kt_parser_steps::{ParseError, Tokens};
use kt_parser_types::{named_type, read_type};
use kt_tree::{Block, Expression, TypeReference};
use std::alloc::Global;

/// The greatest number of levels of a type, an expression or a statement.
const MOST_LEVELS: u32 = 200;

/// Where the body of a function and the other expressions of a declaration stand.
const OUTSIDE: Context = Context {
    in_loop: false,
    in_lambda: false,
};

/// A type.
#[tactic(auto, unfolding(kt_grammar::specs::Declarations::most_levels))]
pub(crate) fn any_type(alloc: Global, tokens: &mut Tokens<'_>) -> Result<TypeReference, ParseError>
    ensures { ReadsAs type_tree (any_type tokens.old) result tokens.new }
{
    read_type(alloc, MOST_LEVELS, tokens)
}

/// `(':' type)?`
#[tactic(auto, unfolding(kt_grammar::specs::Declarations::most_levels))]
pub(crate) fn annotation(
    alloc: Global,
    tokens: &mut Tokens<'_>,
) -> Result<Option<TypeReference>, ParseError>
    ensures { ReadsAs maybe_type (maybe (is_sign sign.Colon) any_type tokens.old) result tokens.new }
{
    kt_parser_types::annotation(alloc, MOST_LEVELS, tokens)
}

/// `ID targs?`, a supertype without arguments for its constructor.
pub(crate) fn parent(alloc: Global, tokens: &mut Tokens<'_>) -> Result<TypeReference, ParseError>
    ensures { ReadsAs type_tree (parser.parent tokens.old) result tokens.new }
{
    named_type(alloc, MOST_LEVELS - 1, tokens)
}

/// `expr`
#[tactic(auto, unfolding(kt_grammar::specs::Declarations::most_levels))]
pub(crate) fn expression(alloc: Global, tokens: &mut Tokens<'_>) -> Result<Expression, ParseError>
    ensures { ReadsAs expression_tree (top.disjunction outside tokens.old) result tokens.new }
{
    read_whole_expression(alloc, MOST_LEVELS, OUTSIDE, tokens)
}

/// `block`
#[tactic(auto, unfolding(kt_grammar::specs::Declarations::most_levels))]
pub(crate) fn block(alloc: Global, tokens: &mut Tokens<'_>) -> Result<Block, ParseError>
    ensures { ReadsAs block_tree (block_of (top.statement outside) tokens.old) result tokens.new }
{
    read_block(alloc, MOST_LEVELS, OUTSIDE, tokens)
}
