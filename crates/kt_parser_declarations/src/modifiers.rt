//! Modifiers, each at most once and in any order, and the keyword behind them.

ghost use Rattle.kt_parser_declarations.specs.Rests as rests;
ghost use Rattle.kt_parser_declarations.specs.Openings.{modified_tree, opening_tree};
ghost use Rattle.kt_grammar.specs.DeclarationParser as parser;
ghost use Rattle.kt_grammar.specs.Declarations as grammar;
ghost use Rattle.kt_parser_steps.specs.Steps.{Expects, turn_tree};
ghost use Rattle.std.specs.Prelude.{◌≡◌};

use crate::lists::repeat_steps;
use kt_base::Pos;
use kt_parser_steps::{Node, Refused, Tokens, Turn, expect_keyword, soft_keyword_if};
use kt_tree::{ClassModifiers, FunctionModifiers, Keyword, SoftKeyword, Token};

/// The modifiers so far, and the place of the first of them.
#[derive(Clone, Copy)]
pub struct Modified<M> {
    start: Option<Pos>,
    modifiers: M,
}

/// What a declaration opens with: its modifiers, and the place of the first token.
#[derive(Clone, Copy)]
pub struct Opening<M> {
    pub at: Pos,
    pub modifiers: M,
}

impl<M> Node for Modified<M> {
    ghost use Rattle.kt_parser_declarations.specs.Openings.{modified_tree};
    ghost use Rattle.kt_grammar.specs.Declarations as grammar;

    ghost Tree = { grammar.Modified M };

    ghost tree = { modified_tree };
}

impl<M> Node for Opening<M> {
    ghost use Rattle.kt_base.specs.declared.refusals.Pos.{Pos};
    ghost use Rattle.kt_parser_declarations.specs.Openings.{opening_tree};

    ghost Tree = { Pos × M };

    ghost tree = { opening_tree };
}

/// The place of the first token.
fn start_of(start: Option<Pos>, token: &Token) -> Pos
    ensures { result ≡ grammar.start_of start token.now }
{
    match start {
        Some(at) => at,
        None => token.pos,
    }
}

/// The place of the first modifier, when one more is this token.
fn first_place(start: Option<Pos>, token: &Token) -> Option<Pos>
    ensures { result ≡ grammar.first_place start token.now }
{
    match start {
        Some(at) => Some(at),
        None => Some(token.pos),
    }
}

impl<M: Copy> Modified<M> {
    fn none(modifiers: M) -> Modified<M>
        ensures { modified_tree result ≡ record { start = None; modifiers = modifiers } }
    {
        Modified {
            start: None,
            modifiers,
        }
    }

    /// These modifiers, the last of which is the token.
    fn with(self, token: &Token, modifiers: M) -> Modified<M>
        ensures { modified_tree result ≡ record
            { start = grammar.first_place self.start token.now; modifiers = modifiers } }
    {
        Modified {
            start: first_place(self.start, token),
            modifiers,
        }
    }

    /// The modifiers, with the keyword behind them.
    fn opening(self, keyword: &Token) -> Opening<M>
        ensures { opening_tree result ≡ (grammar.start_of self.start keyword.now, self.modifiers) }
    {
        Opening {
            at: start_of(self.start, keyword),
            modifiers: self.modifiers,
        }
    }
}

// ---- functions

/// `'fun'`, behind its modifiers.
fn fun_turn(
    so_far: Modified<FunctionModifiers>,
    tokens: &mut Tokens<'_>,
) -> Result<Turn<Modified<FunctionModifiers>, Opening<FunctionModifiers>>, Refused>
    ensures { Expects (turn_tree modified_tree opening_tree) (rests.fun_turn (modified_tree so_far) tokens.old)
        result tokens.new }
{
    let keyword = expect_keyword(tokens, Keyword::Fun)?;
    Ok(Turn::Done(so_far.opening(keyword)))
}

/// One modifier more that doesn't stand yet, or `fun`.
fn function_turn(
    so_far: Modified<FunctionModifiers>,
    tokens: &mut Tokens<'_>,
) -> Result<Turn<Modified<FunctionModifiers>, Opening<FunctionModifiers>>, Refused>
    ensures { Expects (turn_tree modified_tree opening_tree) (parser.function_turn (modified_tree so_far) tokens.old)
        result tokens.new }
{
    let modifiers = so_far.modifiers;
    match soft_keyword_if(!modifiers.is_override, tokens, SoftKeyword::Override) {
        Some(token) => Ok(Turn::More(so_far.with(
            token,
            FunctionModifiers {
                is_override: true,
                ..modifiers
            },
        ))),
        None => match soft_keyword_if(!modifiers.is_open, tokens, SoftKeyword::Open) {
            Some(token) => Ok(Turn::More(so_far.with(
                token,
                FunctionModifiers {
                    is_open: true,
                    ..modifiers
                },
            ))),
            None => match soft_keyword_if(!modifiers.is_abstract, tokens, SoftKeyword::Abstract) {
                Some(token) => Ok(Turn::More(so_far.with(
                    token,
                    FunctionModifiers {
                        is_abstract: true,
                        ..modifiers
                    },
                ))),
                None => match soft_keyword_if(!modifiers.is_suspend, tokens, SoftKeyword::Suspend) {
                    Some(token) => Ok(Turn::More(so_far.with(
                        token,
                        FunctionModifiers {
                            is_suspend: true,
                            ..modifiers
                        },
                    ))),
                    None => fun_turn(so_far, tokens),
                },
            },
        },
    }
}

/// `fmod* 'fun'`
pub(crate) fn fun_word(tokens: &mut Tokens<'_>) -> Result<Opening<FunctionModifiers>, Refused>
    ensures { Expects opening_tree (parser.fun_word tokens.old) result tokens.new }
{
    let none = FunctionModifiers {
        is_override: false,
        is_open: false,
        is_abstract: false,
        is_suspend: false,
    };
    repeat_steps(tokens, Modified::none(none), &function_turn)
}

// ---- classes

/// `'class'`, behind its modifiers.
fn class_keyword_turn(
    so_far: Modified<ClassModifiers>,
    tokens: &mut Tokens<'_>,
) -> Result<Turn<Modified<ClassModifiers>, Opening<ClassModifiers>>, Refused>
    ensures { Expects (turn_tree modified_tree opening_tree)
        (rests.class_keyword_turn (modified_tree so_far) tokens.old) result tokens.new }
{
    let keyword = expect_keyword(tokens, Keyword::Class)?;
    Ok(Turn::Done(so_far.opening(keyword)))
}

/// One modifier more that doesn't stand yet, or `class`.
fn class_turn(
    so_far: Modified<ClassModifiers>,
    tokens: &mut Tokens<'_>,
) -> Result<Turn<Modified<ClassModifiers>, Opening<ClassModifiers>>, Refused>
    ensures { Expects (turn_tree modified_tree opening_tree) (parser.class_turn (modified_tree so_far) tokens.old)
        result tokens.new }
{
    let modifiers = so_far.modifiers;
    match soft_keyword_if(!modifiers.is_open, tokens, SoftKeyword::Open) {
        Some(token) => Ok(Turn::More(so_far.with(
            token,
            ClassModifiers {
                is_open: true,
                ..modifiers
            },
        ))),
        None => match soft_keyword_if(!modifiers.is_abstract, tokens, SoftKeyword::Abstract) {
            Some(token) => Ok(Turn::More(so_far.with(
                token,
                ClassModifiers {
                    is_abstract: true,
                    ..modifiers
                },
            ))),
            None => match soft_keyword_if(!modifiers.is_data, tokens, SoftKeyword::Data) {
                Some(token) => Ok(Turn::More(so_far.with(
                    token,
                    ClassModifiers {
                        is_data: true,
                        ..modifiers
                    },
                ))),
                None => class_keyword_turn(so_far, tokens),
            },
        },
    }
}

/// `('open' | 'abstract' | 'data')* 'class'`
pub(crate) fn class_word(tokens: &mut Tokens<'_>) -> Result<Opening<ClassModifiers>, Refused>
    ensures { Expects opening_tree (parser.class_word tokens.old) result tokens.new }
{
    let none = ClassModifiers {
        is_open: false,
        is_abstract: false,
        is_data: false,
    };
    repeat_steps(tokens, Modified::none(none), &class_turn)
}
