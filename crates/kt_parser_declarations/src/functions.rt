//! Functions, at top level and in classes and interfaces.

ghost use Rattle.kt_parser_declarations.specs.Rests as rests;
ghost use Rattle.kt_parser_declarations.specs.Scopes.{scope_of};
ghost use Rattle.kt_grammar.specs.DeclarationParser as parser;
ghost use Rattle.kt_grammar.specs.Declarations as grammar;
ghost use Rattle.kt_parser_steps.specs.Steps.{ReadsAs};
ghost use Rattle.kt_tree.specs.Declarations.{function_body_tree, function_tree, maybe_function_body, type_parameter_tree};
ghost use Rattle.std.specs.Prelude.{◌≡◌, map};

use crate::levels::{annotation, block, expression};
use crate::modifiers::fun_word;
use crate::parameters::{parameters_rest, type_parameters};
use kt_parser_steps::{ParseError, Tokens, beside, expect, expect_identifier, name_of, sign_if};
use kt_tree::{FunctionBody, FunctionDeclaration, FunctionModifiers, Sign, TypeParameter};
use kt_tree_nodes::declarations as nodes;
use sqlite_items::Items;
use std::alloc::Global;

/// Where a function stands.
#[derive(Clone, Copy, Debug, PartialEq, Eq)]
pub enum Scope {
    AtTop,
    InClass,
    InInterface,
}

/// Whether a function has a body: not where it is abstract or in an interface.
fn has_body(scope: Scope, modifiers: FunctionModifiers) -> bool
    ensures { result ≡ grammar.has_body (scope_of scope) modifiers }
{
    match scope {
        Scope::AtTop | Scope::InClass => !modifiers.is_abstract,
        Scope::InInterface => false,
    }
}

/// Type parameters, which functions have at top level alone.
fn type_parameters_in(
    alloc: Global,
    scope: Scope,
    tokens: &mut Tokens<'_>,
) -> Result<Items<TypeParameter>, ParseError>
    ensures { ReadsAs (map type_parameter_tree) (rests.type_parameters_in (scope_of scope) tokens.old)
        result tokens.new }
{
    match scope {
        Scope::AtTop => type_parameters(alloc, tokens),
        Scope::InClass | Scope::InInterface => Ok(Items::new(alloc)),
    }
}

/// `n expr`, behind `=`.
fn result_body(alloc: Global, tokens: &mut Tokens<'_>) -> Result<FunctionBody, ParseError>
    ensures { ReadsAs function_body_tree (rests.result_body tokens.old) result tokens.new }
{
    tokens.skip_lines();
    let value = expression(alloc, tokens)?;
    Ok(nodes::outcome(value))
}

/// `n block`
fn braces_body(alloc: Global, tokens: &mut Tokens<'_>) -> Result<FunctionBody, ParseError>
    ensures { ReadsAs function_body_tree (rests.braces_body tokens.old) result tokens.new }
{
    tokens.skip_lines();
    let braces = block(alloc, tokens)?;
    Ok(nodes::braces(braces))
}

/// `n block | '=' n expr`, the second only where the result's type is written.
fn function_body(
    alloc: Global,
    typed: bool,
    tokens: &mut Tokens<'_>,
) -> Result<FunctionBody, ParseError>
    ensures { ReadsAs function_body_tree (parser.function_body typed tokens.old) result tokens.new }
{
    match sign_if(typed, tokens, Sign::Assign) {
        Some(_) => result_body(alloc, tokens),
        None => braces_body(alloc, tokens),
    }
}

/// The body, where there is one.
fn body_if(
    alloc: Global,
    present: bool,
    typed: bool,
    tokens: &mut Tokens<'_>,
) -> Result<Option<FunctionBody>, ParseError>
    ensures { ReadsAs maybe_function_body (parser.body_if present typed tokens.old) result tokens.new }
{
    if present {
        let body = function_body(alloc, typed, tokens)?;
        Ok(Some(body))
    } else {
        Ok(None)
    }
}

/// `fmod* 'fun' tparams? ID '(' params? ')' (':' type)? (n block | '=' n expr)?`
pub(crate) fn function(
    alloc: Global,
    scope: Scope,
    tokens: &mut Tokens<'_>,
) -> Result<FunctionDeclaration, ParseError>
    ensures { ReadsAs function_tree (parser.function_parser (scope_of scope) tokens.old) result tokens.new }
{
    let opening = fun_word(tokens)?;
    let type_parameters = type_parameters_in(alloc, scope, tokens)?;
    let token = expect_identifier(tokens)?;
    let name = name_of(alloc, token)?;
    expect(tokens, Sign::OpenParenthesis)?;
    let parameters = parameters_rest(alloc, tokens)?;
    let outcome = annotation(alloc, tokens)?;
    let present = has_body(scope, opening.modifiers);
    let body = body_if(alloc, present, outcome.is_some(), tokens);
    let (outcome, body) = beside(outcome, body)?;
    Ok(nodes::function(
        opening.at,
        opening.modifiers,
        type_parameters,
        name,
        parameters,
        outcome,
        body,
    ))
}
