//! Type parameters, and the parameters of functions and constructors.

ghost use Rattle.kt_parser_declarations.specs.Rests as rests;
ghost use Rattle.kt_grammar.specs.DeclarationParser as parser;
ghost use Rattle.kt_grammar.specs.Declarations as grammar;
ghost use Rattle.kt_parser_steps.specs.Chosen.{FindsIf, found_token};
ghost use Rattle.kt_parser_steps.specs.Steps.{ReadsAs};
ghost use Rattle.kt_grammar.specs.Readers.{commas, maybe_commas, meant};
ghost use Rattle.kt_tree.specs.Declarations.{constructor_parameter_tree, type_parameter_tree, typed_parameter_tree};
ghost use Rattle.kt_tree.specs.Tokens.{is_sign};
ghost use Rattle.kt_tree.specs.declared.tokens.Sign.TheVariants as sign;
ghost use Rattle.std.specs.Prelude.{◌≡◌, map, Ok, true};

use crate::levels::{annotation, any_type};
use kt_parser_steps::{
    ParseError, Tokens, comma_list, expect, expect_identifier, maybe_comma_list, meant_if, name_of,
};
use kt_tree::{
    ConstructorParameter, ConstructorParameterKind, Keyword, Parameter, Sign, Token, TypeParameter,
};
use kt_tree_nodes::declarations as nodes;
use sqlite_items::Items;
use std::alloc::Global;

/// `ID (':' type)?`
fn type_parameter(alloc: Global, tokens: &mut Tokens<'_>) -> Result<TypeParameter, ParseError>
    ensures { ReadsAs type_parameter_tree (parser.type_parameter tokens.old) result tokens.new }
{
    let token = expect_identifier(tokens)?;
    let name = name_of(alloc, token)?;
    let bound = annotation(alloc, tokens)?;
    Ok(nodes::type_parameter(name, bound))
}

/// `tparam (',' tparam)* '>'`, behind `<`.
fn type_parameters_rest(
    alloc: Global,
    tokens: &mut Tokens<'_>,
) -> Result<Items<TypeParameter>, ParseError>
    ensures { ReadsAs (map type_parameter_tree) (commas (is_sign sign.Greater) parser.type_parameter tokens.old)
        result tokens.new }
{
    comma_list(
        alloc,
        tokens,
        Sign::Greater,
        &|tokens: &mut Tokens<'_>| type_parameter(alloc, tokens),
    )
}

/// `('<' tparam (',' tparam)* '>')?`
pub(crate) fn type_parameters(
    alloc: Global,
    tokens: &mut Tokens<'_>,
) -> Result<Items<TypeParameter>, ParseError>
    ensures { ReadsAs (map type_parameter_tree) (parser.type_parameters tokens.old) result tokens.new }
{
    match tokens.take_sign(Sign::Less) {
        Some(_) => type_parameters_rest(alloc, tokens),
        None => Ok(Items::new(alloc)),
    }
}

/// `ID ':' type`
pub(crate) fn typed_parameter(
    alloc: Global,
    tokens: &mut Tokens<'_>,
) -> Result<Parameter, ParseError>
    ensures { ReadsAs typed_parameter_tree (parser.typed_parameter tokens.old) result tokens.new }
{
    let token = expect_identifier(tokens)?;
    let name = name_of(alloc, token)?;
    expect(tokens, Sign::Colon)?;
    let annotation = any_type(alloc, tokens)?;
    Ok(nodes::parameter(name, annotation))
}

/// `(param (',' param)*)? ')'`, behind `(`.
pub(crate) fn parameters_rest(
    alloc: Global,
    tokens: &mut Tokens<'_>,
) -> Result<Items<Parameter>, ParseError>
    ensures { ReadsAs (map typed_parameter_tree)
        (maybe_commas (is_sign sign.CloseParenthesis) parser.typed_parameter tokens.old) result tokens.new }
{
    maybe_comma_list(
        alloc,
        tokens,
        Sign::CloseParenthesis,
        &|tokens: &mut Tokens<'_>| typed_parameter(alloc, tokens),
    )
}

/// What `val` or `var` before a parameter of a constructor says.
fn kind_of(token: &Token) -> Option<ConstructorParameterKind>
    ensures { result ≡ grammar.kind_of token.now }
{
    if token.is_keyword(Keyword::Val) {
        Some(ConstructorParameterKind::Val)
    } else if token.is_keyword(Keyword::Var) {
        Some(ConstructorParameterKind::Var)
    } else {
        None
    }
}

/// Takes `val` or `var`, where one stands.
fn take_kind<'a>(tokens: &mut Tokens<'a>) -> Option<(&'a Token, ConstructorParameterKind)>
    ensures { FindsIf true found_token (meant grammar.kind_of) tokens.old result tokens.new }
{
    meant_if(true, tokens, &|token: &Token| kind_of(token))
}

/// `('val' | 'var')?`
fn parameter_kind(tokens: &mut Tokens<'_>) -> ConstructorParameterKind
    ensures { rests.parameter_kind tokens.old ≡ Ok (result, tokens.new) }
{
    match take_kind(tokens) {
        Some((_, kind)) => kind,
        None => ConstructorParameterKind::Plain,
    }
}

/// `('val' | 'var')? ID ':' type`
fn constructor_parameter(
    alloc: Global,
    tokens: &mut Tokens<'_>,
) -> Result<ConstructorParameter, ParseError>
    ensures { ReadsAs constructor_parameter_tree (parser.constructor_parameter tokens.old) result tokens.new }
{
    let kind = parameter_kind(tokens);
    let declared = typed_parameter(alloc, tokens)?;
    Ok(nodes::constructor_parameter(kind, declared))
}

/// `(cparam (',' cparam)*)? ')'`, behind `(`.
fn constructor_parameters_rest(
    alloc: Global,
    tokens: &mut Tokens<'_>,
) -> Result<Items<ConstructorParameter>, ParseError>
    ensures { ReadsAs (map constructor_parameter_tree)
        (maybe_commas (is_sign sign.CloseParenthesis) parser.constructor_parameter tokens.old) result tokens.new }
{
    maybe_comma_list(
        alloc,
        tokens,
        Sign::CloseParenthesis,
        &|tokens: &mut Tokens<'_>| constructor_parameter(alloc, tokens),
    )
}

/// `('(' cparams? ')')?`
pub(crate) fn constructor_parameters(
    alloc: Global,
    tokens: &mut Tokens<'_>,
) -> Result<Items<ConstructorParameter>, ParseError>
    ensures { ReadsAs (map constructor_parameter_tree) (parser.constructor_parameters tokens.old) result tokens.new }
{
    match tokens.take_sign(Sign::OpenParenthesis) {
        Some(_) => constructor_parameters_rest(alloc, tokens),
        None => Ok(Items::new(alloc)),
    }
}
