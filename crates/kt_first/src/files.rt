//! The code of a file.

ghost use Rattle.kt_first.specs.Answers.{Answers, Pushes, few};
ghost use Rattle.kt_first.specs.Programs.{code_of, print_code};
ghost use Rattle.kt_first.specs.Trees as trees;
ghost use Rattle.kt_tree.specs.Bodies.{expression_tree, expressions_of, statement_tree, statements_of};
ghost use Rattle.kt_tree.specs.Declarations.{declaration_tree, file_tree, function_tree, maybe_function_body, type_parameter_tree, typed_parameter_tree};
ghost use Rattle.kt_tree.specs.Types.{maybe_type, type_tree};
ghost use Rattle.std.specs.Prelude.{◌≡◌, map, option_map, None, if◌then◌else◌, option_and_then};

use crate::expressions::push_operand;
use crate::reading::FirstErr;
use kt_base::Plain;
use kt_tree::{
    Declaration, Expression, ExpressionKind, FileTree, FunctionBody, FunctionDeclaration,
    FunctionModifiers, Keyword, Parameter, Sign, Statement, StatementKind, Token, TypeParameter,
    TypeReference,
};
use std::alloc::Global;

/// How many steps the code of a program has at most.
const MOST_STEPS: usize = 512;

/// The code of a file, by its tokens and its declarations.
pub(crate) fn program_code(
    alloc: Global,
    tokens: &[Token],
    file: &FileTree,
) -> Result<Vec<Plain>, FirstErr>
    ensures { Answers (λ code. code.items) result
        (if trees.begins_with_head tokens.now
        then few (option_map code_of (trees.program_of_file (file_tree file.now))) else None) }
{
    if begins_with_head(tokens) {
        short_code(alloc, file)
    } else {
        Err(FirstErr::NotBuilt)
    }
}

/// The code of a file, where it has few steps.
fn short_code(alloc: Global, file: &FileTree) -> Result<Vec<Plain>, FirstErr>
    ensures { Answers (λ code. code.items) result
        (few (option_map code_of (trees.program_of_file (file_tree file.now)))) }
{
    let mut code = Vec::new(alloc);
    push_file(file.declarations.as_slice(), &mut code)?;
    if code.len() <= MOST_STEPS {
        Ok(code)
    } else {
        Err(FirstErr::NotBuilt)
    }
}

/// Pushes the code of a file, whose one declaration is `main`.
fn push_file(declarations: &[Declaration], code: &mut Vec<Plain>) -> Result<(), FirstErr>
    ensures { Pushes result code.old.items code.new.items
        (option_map code_of (trees.program_of_file (map declaration_tree declarations.now))) }
{
    match declarations {
        [Declaration::Function(function)] if is_main(function) => push_body(&function.body, code),
        _ => Err(FirstErr::NotBuilt),
    }
}

/// Pushes the code of a body.
fn push_body(body: &Option<FunctionBody>, code: &mut Vec<Plain>) -> Result<(), FirstErr>
    ensures { Pushes result code.old.items code.new.items
        (option_map code_of (trees.program_of_body (maybe_function_body body.now))) }
{
    match body {
        Some(FunctionBody::Braces(block)) => push_statements(block.statements.as_slice(), code),
        _ => Err(FirstErr::NotBuilt),
    }
}

/// Pushes the code of statements.
fn push_statements(statements: &[Statement], code: &mut Vec<Plain>) -> Result<(), FirstErr>
    ensures { Pushes result code.old.items code.new.items
        (option_map code_of (trees.program_of_statements (statements_of (map statement_tree statements.now)))) }
{
    for statement in statements {
        push_statement(statement, code)?;
    }
    Ok(())
}

/// Pushes the code of a statement, which prints.
fn push_statement(statement: &Statement, code: &mut Vec<Plain>) -> Result<(), FirstErr>
    ensures { Pushes result code.old.items code.new.items
        (option_map print_code (trees.printed_by (statement_tree statement.now))) }
{
    match &statement.kind {
        StatementKind::Evaluate(value) => push_print(value.get(), code),
        _ => Err(FirstErr::NotBuilt),
    }
}

/// Pushes the code of a call of `println`.
#[tactic(auto, using(crate::proofs::Pushing::step_pushed))]
fn push_print(call: &Expression, code: &mut Vec<Plain>) -> Result<(), FirstErr>
    ensures { Pushes result code.old.items code.new.items
        (option_map print_code (option_and_then trees.operand_of (trees.argument_of (expression_tree call.now)))) }
{
    match argument_of(call) {
        Some(operand) => {
            push_operand(operand, code)?;
            Ok(code.push(Plain::Print)?)
        }
        None => Err(FirstErr::NotBuilt),
    }
}

/// The argument of a call of `println`.
fn argument_of(call: &Expression) -> Option<&Expression>
    ensures { option_map (λ a. expression_tree a.now) result ≡ trees.argument_of (expression_tree call.now) }
{
    match &call.kind {
        ExpressionKind::Call(called, _, types, arguments) if is_println(called.get()) => {
            one_argument(types.as_slice(), arguments.as_slice())
        }
        _ => None,
    }
}

/// Whether it is the name `println`.
fn is_println(called: &Expression) -> bool
    ensures { result ≡ trees.is_println (expression_tree called.now) }
{
    match &called.kind {
        ExpressionKind::Name(name) => name.as_bytes() == b"println".as_slice(),
        _ => false,
    }
}

/// The argument of a call that has one alone, and no type arguments.
#[tactic(auto, using(crate::proofs::Arguments::several))]
fn one_argument<'a>(types: &[TypeReference], arguments: &'a [Expression]) -> Option<&'a Expression>
    ensures { option_map (λ a. expression_tree a.now) result ≡ trees.one_argument (map type_tree types.now)
        (expressions_of (map expression_tree arguments.now)) }
{
    match types {
        [] => match arguments {
            [] => None,
            [argument] => Some(argument),
            [_, _, ..] => None,
        },
        _ => None,
    }
}

/// Whether it is `fun main()`.
fn is_main(function: &FunctionDeclaration) -> bool
    ensures { result ≡ trees.is_main (function_tree function.now) }
{
    function.name.as_bytes() == b"main".as_slice()
        && !has_modifiers(function.modifiers)
        && is_bare(
            function.type_parameters.as_slice(),
            function.parameters.as_slice(),
            &function.result,
        )
}

fn has_modifiers(modifiers: FunctionModifiers) -> bool
    ensures { result ≡ trees.has_modifiers modifiers }
{
    modifiers.is_override || modifiers.is_open || modifiers.is_abstract || modifiers.is_suspend
}

/// Whether nothing stands between `fun` and the name, in the parentheses, and behind them.
fn is_bare(
    type_parameters: &[TypeParameter],
    parameters: &[Parameter],
    outcome: &Option<TypeReference>,
) -> bool
    ensures { result ≡ trees.is_bare (map type_parameter_tree type_parameters.now)
        (map typed_parameter_tree parameters.now) (maybe_type outcome.now) }
{
    match type_parameters {
        [] => match parameters {
            [] => match outcome {
                None => true,
                Some(_) => false,
            },
            _ => false,
        },
        _ => false,
    }
}

/// Whether `fun`, a name, `(`, `)` and `{` stand first, with no line end before the brace.
fn begins_with_head(tokens: &[Token]) -> bool
    ensures { result ≡ trees.begins_with_head tokens.now }
{
    match tokens {
        [word, name, open, close, brace, ..] => {
            word.is_keyword(Keyword::Fun)
                && name.is_identifier()
                && open.is_sign(Sign::OpenParenthesis)
                && close.is_sign(Sign::CloseParenthesis)
                && brace.is_sign(Sign::OpenBrace)
        }
        _ => false,
    }
}
