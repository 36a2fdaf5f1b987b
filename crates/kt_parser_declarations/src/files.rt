//! Declarations of any kind, and files.

ghost use Rattle.kt_parser_declarations.specs.Openings.{opening_tree};
ghost use Rattle.kt_parser_declarations.specs.Rests as rests;
ghost use Rattle.kt_grammar.specs.DeclarationParser as parser;
ghost use Rattle.kt_parser_steps.specs.Steps.{Finds, ReadsAs};
ghost use Rattle.kt_tree.specs.Declarations.{declaration_tree};
ghost use Rattle.std.specs.Prelude.{map};

use crate::classes::{class_rest, interface_rest};
use crate::constants::{constant_rest, enum_rest};
use crate::functions::{Scope, function};
use crate::lists::items_until;
use crate::modifiers::{Opening, class_word};
use kt_parser_steps::{ParseError, TokenClass, Tokens, part_if};
use kt_tree::{ClassModifiers, Declaration, Keyword, SoftKeyword, Token};
use kt_tree_nodes::declarations as nodes;
use sqlite_items::Items;
use std::alloc::Global;

/// `ID tparams? supers? functions?`, behind this `interface`.
fn interface_declaration(
    alloc: Global,
    start: &Token,
    tokens: &mut Tokens<'_>,
) -> Result<Declaration, ParseError>
    ensures { ReadsAs declaration_tree (rests.interface_declaration start.now tokens.old) result tokens.new }
{
    let interface = interface_rest(alloc, start, tokens)?;
    Ok(nodes::interface_declaration(interface))
}

/// `'val' ID (':' type)? '=' n ('-'? literal | string)`, behind this `const`.
fn constant_declaration(
    alloc: Global,
    start: &Token,
    tokens: &mut Tokens<'_>,
) -> Result<Declaration, ParseError>
    ensures { ReadsAs declaration_tree (rests.constant_declaration start.now tokens.old) result tokens.new }
{
    let constant = constant_rest(alloc, start, tokens)?;
    Ok(nodes::constant_declaration(constant))
}

/// `ID tparams? cparams? supers? members?`, behind the modifiers of a class and `class`.
fn class_declaration(
    alloc: Global,
    opening: Opening<ClassModifiers>,
    tokens: &mut Tokens<'_>,
) -> Result<Declaration, ParseError>
    ensures { ReadsAs declaration_tree (rests.class_declaration (opening_tree opening) tokens.old) result tokens.new }
{
    let class = class_rest(alloc, opening, tokens)?;
    Ok(nodes::class_declaration(class))
}

/// A function.
fn function_declaration(alloc: Global, tokens: &mut Tokens<'_>) -> Result<Declaration, ParseError>
    ensures { ReadsAs declaration_tree (rests.function_declaration tokens.old) result tokens.new }
{
    let function = function(alloc, Scope::AtTop, tokens)?;
    Ok(nodes::function_declaration(function))
}

/// Takes modifiers and `class`, where they stand. Else the cursor goes back.
fn class_word_ahead(tokens: &mut Tokens<'_>) -> Option<Opening<ClassModifiers>>
    ensures { Finds opening_tree (parser.class_word tokens.old) tokens.old result tokens.new }
{
    part_if(true, tokens, &class_word)
}

/// A class or a function, which may begin with the same modifiers.
fn class_or_function(alloc: Global, tokens: &mut Tokens<'_>) -> Result<Declaration, ParseError>
    ensures { ReadsAs declaration_tree (rests.class_or_function tokens.old) result tokens.new }
{
    match class_word_ahead(tokens) {
        Some(opening) => class_declaration(alloc, opening, tokens),
        None => function_declaration(alloc, tokens),
    }
}

/// `fun | class | iface | enum | const`
fn declaration(alloc: Global, tokens: &mut Tokens<'_>) -> Result<Declaration, ParseError>
    ensures { ReadsAs declaration_tree (parser.declaration_parser tokens.old) result tokens.new }
{
    match tokens.take_keyword(Keyword::Interface) {
        Some(start) => interface_declaration(alloc, start, tokens),
        None => match tokens.take_soft_keyword(SoftKeyword::Enum) {
            Some(start) => enum_rest(alloc, start, tokens),
            None => match tokens.take_soft_keyword(SoftKeyword::Const) {
                Some(start) => constant_declaration(alloc, start, tokens),
                None => class_or_function(alloc, tokens),
            },
        },
    }
}

/// A file: its declarations in order.
#[tactic(auto, unfolding(kt_grammar::specs::DeclarationParser::file_parser))]
pub fn read_file(alloc: Global, tokens: &mut Tokens<'_>) -> Result<Items<Declaration>, ParseError>
    ensures { ReadsAs (map declaration_tree) (parser.file_parser tokens.old) result tokens.new }
{
    items_until(
        alloc,
        tokens,
        TokenClass::End,
        &|tokens: &mut Tokens<'_>| declaration(alloc, tokens),
    )
}
