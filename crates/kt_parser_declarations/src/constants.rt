//! Enums and constants.

ghost use Rattle.kt_parser_declarations.specs.Rests as rests;
ghost use Rattle.kt_grammar.specs.DeclarationParser as parser;
ghost use Rattle.kt_grammar.specs.Readers.{lines, several_items};
ghost use Rattle.kt_parser_steps.specs.Steps.{Expects, ReadsAs, turn_tree};
ghost use Rattle.kt_tree.specs.Declarations.{constant_tree, declaration_tree};
ghost use Rattle.std.specs.Prelude.{◌≡◌, map, Ok};

use crate::levels::annotation;
use kt_parser_steps::{
    Lead, ParseError, Refused, TokenClass, Tokens, Turn, beside, expect, expect_identifier,
    expect_keyword, meant_text, name_of, repeat, several, take_literal,
};
use kt_tree::{
    ConstantDeclaration, ConstantValue, Declaration, EnumEntry, Keyword, Sign, TextPart, Token,
};
use kt_tree_nodes::declarations as nodes;
use sqlite_items::Items;
use std::alloc::Global;

// ---- enums

/// `ID`
fn enum_entry(alloc: Global, tokens: &mut Tokens<'_>) -> Result<EnumEntry, ParseError>
    ensures { ReadsAs (λ entry. entry) (parser.enum_entry tokens.old) result tokens.new }
{
    let token = expect_identifier(tokens)?;
    let name = name_of(alloc, token)?;
    Ok(nodes::enum_entry(token.pos, name))
}

/// `ID (n ',' n ID)*`
fn enum_entries(alloc: Global, tokens: &mut Tokens<'_>) -> Result<Items<EnumEntry>, ParseError>
    ensures { ReadsAs (λ entries. entries) (several_items lines parser.enum_entry tokens.old) result tokens.new }
{
    several(
        alloc,
        tokens,
        Lead::Lines,
        &|tokens: &mut Tokens<'_>| enum_entry(alloc, tokens),
    )
}

/// `'class' ID n '{' n ID (n ',' n ID)* n '}'`, behind this `enum`.
pub(crate) fn enum_rest(
    alloc: Global,
    start: &Token,
    tokens: &mut Tokens<'_>,
) -> Result<Declaration, ParseError>
    ensures { ReadsAs declaration_tree (parser.enum_rest start.now tokens.old) result tokens.new }
{
    expect_keyword(tokens, Keyword::Class)?;
    let token = expect_identifier(tokens)?;
    let name = name_of(alloc, token)?;
    tokens.skip_lines();
    expect(tokens, Sign::OpenBrace)?;
    tokens.skip_lines();
    let entries = enum_entries(alloc, tokens)?;
    tokens.skip_lines();
    expect(tokens, Sign::CloseBrace)?;
    Ok(nodes::enum_declaration(start.pos, name, entries))
}

// ---- constants

/// `'"'`, which ends a string.
fn text_end(
    parts: Items<TextPart>,
    tokens: &mut Tokens<'_>,
) -> Result<Turn<Items<TextPart>, Items<TextPart>>, ParseError>
    ensures { ReadsAs (turn_tree (map (λ part. part)) (map (λ part. part)))
        (rests.text_end (map (λ part. part) parts) tokens.old) result tokens.new }
{
    match tokens.take_class(TokenClass::CloseQuote) {
        Some(_) => Ok(Turn::Done(parts)),
        None => Err(ParseError::Refused),
    }
}

/// `part | '"'`: one part of a string more, or its end.
fn text_turn(
    mut parts: Items<TextPart>,
    tokens: &mut Tokens<'_>,
) -> Result<Turn<Items<TextPart>, Items<TextPart>>, ParseError>
    ensures { ReadsAs (turn_tree (map (λ part. part)) (map (λ part. part)))
        (parser.text_turn (map (λ part. part) parts) tokens.old) result tokens.new }
{
    let next = meant_text(tokens)?;
    match next {
        Some((_, part)) => {
            parts.push(part)?;
            Ok(Turn::More(parts))
        }
        None => text_end(parts, tokens),
    }
}

/// `part* '"'`, behind the `"` that begins a string all of whose parts are text.
fn text_parts(alloc: Global, tokens: &mut Tokens<'_>) -> Result<Items<TextPart>, ParseError>
    ensures { ReadsAs (λ parts. parts) (rests.text_parts tokens.old) result tokens.new }
{
    repeat(tokens, Items::new(alloc), &text_turn)
}

/// `part* '"'`, the value of a constant, behind the `"` that begins it.
fn text_value(alloc: Global, tokens: &mut Tokens<'_>) -> Result<ConstantValue, ParseError>
    ensures { ReadsAs (λ value. value) (rests.text_value tokens.old) result tokens.new }
{
    let parts = text_parts(alloc, tokens)?;
    Ok(nodes::constant_text(parts))
}

/// `'-'?`
fn minus(tokens: &mut Tokens<'_>) -> bool
    ensures { rests.minus tokens.old ≡ Ok (result, tokens.new) }
{
    match tokens.take_sign(Sign::Minus) {
        Some(_) => true,
        None => false,
    }
}

/// `'-'? literal`
fn literal_value(tokens: &mut Tokens<'_>) -> Result<ConstantValue, Refused>
    ensures { Expects (λ value. value) (rests.literal_value tokens.old) result tokens.new }
{
    let negative = minus(tokens);
    literal_behind(negative, tokens)
}

/// `literal`, behind the `-` where it is negative.
fn literal_behind(negative: bool, tokens: &mut Tokens<'_>) -> Result<ConstantValue, Refused>
    ensures { Expects (λ value. value) (rests.literal_behind negative tokens.old) result tokens.new }
{
    match take_literal(true, tokens) {
        Some((_, literal)) => Ok(nodes::constant_literal(negative, literal)),
        None => Err(Refused),
    }
}

/// `'-'? literal | string`
fn constant_value(alloc: Global, tokens: &mut Tokens<'_>) -> Result<ConstantValue, ParseError>
    ensures { ReadsAs (λ value. value) (parser.constant_value tokens.old) result tokens.new }
{
    match tokens.take_class(TokenClass::OpenQuote) {
        Some(_) => text_value(alloc, tokens),
        None => Ok(literal_value(tokens)?),
    }
}

/// `'val' ID (':' type)? '=' n ('-'? literal | string)`, behind this `const`.
pub(crate) fn constant_rest(
    alloc: Global,
    start: &Token,
    tokens: &mut Tokens<'_>,
) -> Result<ConstantDeclaration, ParseError>
    ensures { ReadsAs constant_tree (parser.constant_rest start.now tokens.old) result tokens.new }
{
    expect_keyword(tokens, Keyword::Val)?;
    let token = expect_identifier(tokens)?;
    let name = name_of(alloc, token)?;
    let annotation = annotation(alloc, tokens)?;
    let (annotation, _) = beside(annotation, expect(tokens, Sign::Assign))?;
    tokens.skip_lines();
    let (annotation, value) = beside(annotation, constant_value(alloc, tokens))?;
    Ok(nodes::constant(start.pos, name, annotation, value))
}
