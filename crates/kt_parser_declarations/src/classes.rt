//! Classes and interfaces, with their supertypes and members.

ghost use Rattle.kt_parser_declarations.specs.Openings.{opening_tree};
ghost use Rattle.kt_parser_declarations.specs.Rests as rests;
ghost use Rattle.kt_grammar.specs.DeclarationParser as parser;
ghost use Rattle.kt_grammar.specs.DeclarationParser.{top};
ghost use Rattle.kt_grammar.specs.Declarations.{in_interface, outside};
ghost use Rattle.kt_grammar.specs.Readers.{maybe_commas};
ghost use Rattle.kt_parser_steps.specs.Steps.{ReadsAs};
ghost use Rattle.kt_tree.specs.Bodies.{expression_tree};
ghost use Rattle.kt_tree.specs.Declarations.{class_tree, function_tree, interface_tree, maybe_super_arguments, member_tree, property_tree, supertype_tree};
ghost use Rattle.kt_tree.specs.Tokens.{is_sign};
ghost use Rattle.kt_tree.specs.Types.{type_tree};
ghost use Rattle.kt_tree.specs.declared.tokens.Sign.TheVariants as sign;
ghost use Rattle.std.specs.Prelude.{map};

use crate::functions::{Scope, function};
use crate::levels::{expression, parent};
use crate::lists::{members, supertypes};
use crate::modifiers::Opening;
use crate::parameters::{constructor_parameters, type_parameters, typed_parameter};
use kt_parser_steps::{
    ParseError, Tokens, beside, expect, expect_identifier, maybe_comma_list, name_of, take_variable,
};
use kt_tree::{
    ClassDeclaration, ClassMember, ClassModifiers, Expression, FunctionDeclaration,
    InterfaceDeclaration, PropertyDeclaration, Sign, SuperArguments, Supertype, Token,
    TypeReference,
};
use kt_tree_nodes::declarations as nodes;
use sqlite_items::Items;
use std::alloc::Global;

// ---- supertypes

/// `args? ')'`, behind `(`.
fn argument_list(alloc: Global, tokens: &mut Tokens<'_>) -> Result<Items<Expression>, ParseError>
    ensures { ReadsAs (map expression_tree)
        (maybe_commas (is_sign sign.CloseParenthesis) (top.disjunction outside) tokens.old) result tokens.new }
{
    maybe_comma_list(
        alloc,
        tokens,
        Sign::CloseParenthesis,
        &|tokens: &mut Tokens<'_>| expression(alloc, tokens),
    )
}

/// `args? ')'`, behind this `(`: the arguments for the constructor of a superclass.
fn super_arguments_rest(
    alloc: Global,
    parenthesis: &Token,
    tokens: &mut Tokens<'_>,
) -> Result<Option<SuperArguments>, ParseError>
    ensures { ReadsAs maybe_super_arguments (rests.super_arguments_rest parenthesis.now tokens.old) result tokens.new }
{
    let values = argument_list(alloc, tokens)?;
    Ok(Some(nodes::super_arguments(parenthesis, values)))
}

/// `('(' args? ')')?`
fn super_arguments(
    alloc: Global,
    tokens: &mut Tokens<'_>,
) -> Result<Option<SuperArguments>, ParseError>
    ensures { ReadsAs maybe_super_arguments (rests.super_arguments tokens.old) result tokens.new }
{
    match tokens.take_sign(Sign::OpenParenthesis) {
        Some(parenthesis) => super_arguments_rest(alloc, parenthesis, tokens),
        None => Ok(None),
    }
}

/// `ID targs? ('(' args? ')')?`
fn supertype(alloc: Global, tokens: &mut Tokens<'_>) -> Result<Supertype, ParseError>
    ensures { ReadsAs supertype_tree (parser.supertype tokens.old) result tokens.new }
{
    let parent = parent(alloc, tokens)?;
    let (parent, arguments) = beside(parent, super_arguments(alloc, tokens))?;
    Ok(nodes::supertype(parent, arguments))
}

/// `(':' n super (',' n super)*)?`, the supertypes of a class.
fn class_supertypes(alloc: Global, tokens: &mut Tokens<'_>) -> Result<Items<Supertype>, ParseError>
    ensures { ReadsAs (map supertype_tree) (parser.supertypes parser.supertype tokens.old) result tokens.new }
{
    supertypes(
        alloc,
        tokens,
        &|tokens: &mut Tokens<'_>| supertype(alloc, tokens),
    )
}

/// `(':' n super (',' n super)*)?`, the supertypes of an interface, which have no arguments for a constructor.
fn interface_supertypes(
    alloc: Global,
    tokens: &mut Tokens<'_>,
) -> Result<Items<TypeReference>, ParseError>
    ensures { ReadsAs (map type_tree) (parser.supertypes parser.parent tokens.old) result tokens.new }
{
    supertypes(
        alloc,
        tokens,
        &|tokens: &mut Tokens<'_>| parent(alloc, tokens),
    )
}

// ---- members

/// `ID ':' type '=' n expr`, behind this `val` or `var`.
fn property_rest(
    alloc: Global,
    token: &Token,
    variable: bool,
    tokens: &mut Tokens<'_>,
) -> Result<PropertyDeclaration, ParseError>
    ensures { ReadsAs property_tree (parser.property_rest (token.now, variable) tokens.old) result tokens.new }
{
    let declared = typed_parameter(alloc, tokens)?;
    let (declared, _) = beside(declared, expect(tokens, Sign::Assign))?;
    tokens.skip_lines();
    let (declared, initializer) = beside(declared, expression(alloc, tokens))?;
    Ok(nodes::property(token.pos, variable, declared, initializer))
}

/// `ID ':' type '=' n expr`, behind this `val` or `var`: a property of a class.
fn property_member(
    alloc: Global,
    token: &Token,
    variable: bool,
    tokens: &mut Tokens<'_>,
) -> Result<ClassMember, ParseError>
    ensures { ReadsAs member_tree (rests.property_member (token.now, variable) tokens.old) result tokens.new }
{
    let property = property_rest(alloc, token, variable, tokens)?;
    Ok(nodes::property_member(property))
}

/// A function in a class.
fn method_member(alloc: Global, tokens: &mut Tokens<'_>) -> Result<ClassMember, ParseError>
    ensures { ReadsAs member_tree (rests.method_member tokens.old) result tokens.new }
{
    let method = function(alloc, Scope::InClass, tokens)?;
    Ok(nodes::method_member(method))
}

/// `fun | ('val' | 'var') ID ':' type '=' n expr`
fn member(alloc: Global, tokens: &mut Tokens<'_>) -> Result<ClassMember, ParseError>
    ensures { ReadsAs member_tree (parser.member tokens.old) result tokens.new }
{
    match take_variable(true, tokens) {
        Some((token, variable)) => property_member(alloc, token, variable, tokens),
        None => method_member(alloc, tokens),
    }
}

/// The members of a class.
fn class_members(alloc: Global, tokens: &mut Tokens<'_>) -> Result<Items<ClassMember>, ParseError>
    ensures { ReadsAs (map member_tree) (parser.members parser.member tokens.old) result tokens.new }
{
    members(
        alloc,
        tokens,
        &|tokens: &mut Tokens<'_>| member(alloc, tokens),
    )
}

/// A function in an interface.
fn interface_function(
    alloc: Global,
    tokens: &mut Tokens<'_>,
) -> Result<FunctionDeclaration, ParseError>
    ensures { ReadsAs function_tree (parser.function_parser in_interface tokens.old) result tokens.new }
{
    function(alloc, Scope::InInterface, tokens)
}

/// The functions of an interface.
fn interface_functions(
    alloc: Global,
    tokens: &mut Tokens<'_>,
) -> Result<Items<FunctionDeclaration>, ParseError>
    ensures { ReadsAs (map function_tree) (parser.members (parser.function_parser in_interface) tokens.old)
        result tokens.new }
{
    members(
        alloc,
        tokens,
        &|tokens: &mut Tokens<'_>| interface_function(alloc, tokens),
    )
}

// ---- declarations

/// `ID tparams? cparams? supers? members?`, behind the modifiers of a class and `class`.
pub(crate) fn class_rest(
    alloc: Global,
    opening: Opening<ClassModifiers>,
    tokens: &mut Tokens<'_>,
) -> Result<ClassDeclaration, ParseError>
    ensures { ReadsAs class_tree (parser.class_rest (opening_tree opening) tokens.old) result tokens.new }
{
    let token = expect_identifier(tokens)?;
    let name = name_of(alloc, token)?;
    let type_parameters = type_parameters(alloc, tokens)?;
    let parameters = constructor_parameters(alloc, tokens)?;
    let supertypes = class_supertypes(alloc, tokens)?;
    let (supertypes, members) = beside(supertypes, class_members(alloc, tokens))?;
    Ok(nodes::class(
        opening.at,
        opening.modifiers,
        name,
        type_parameters,
        parameters,
        supertypes,
        members,
    ))
}

/// `ID tparams? supers? functions?`, behind this `interface`.
pub(crate) fn interface_rest(
    alloc: Global,
    start: &Token,
    tokens: &mut Tokens<'_>,
) -> Result<InterfaceDeclaration, ParseError>
    ensures { ReadsAs interface_tree (parser.interface_rest start.now tokens.old) result tokens.new }
{
    let token = expect_identifier(tokens)?;
    let name = name_of(alloc, token)?;
    let type_parameters = type_parameters(alloc, tokens)?;
    let supertypes = interface_supertypes(alloc, tokens)?;
    let functions = interface_functions(alloc, tokens)?;
    Ok(nodes::interface(start.pos, name, type_parameters, supertypes, functions))
}
