//! Parts that are taken where they are allowed and stand.

ghost use Rattle.kt_grammar_parsers.specs.Parsers.{Parser, ahead};
ghost use Rattle.kt_parser_steps.specs.Classes.{is_of};
ghost use Rattle.kt_parser_steps.specs.Chosen.{FindsIf, TriesIf, TurnedIf};
ghost use Rattle.kt_parser_steps.specs.Steps.{EachExpects, EachReads};
ghost use Rattle.kt_tree.specs.declared.tokens.Token.{Token};
ghost use Rattle.kt_tree.specs.Tokens.{is_keyword, is_sign, is_soft_keyword};
ghost use Rattle.std.specs.Option.{option_copied};
ghost use Rattle.std.specs.Prelude.{IfOk};

use crate::classes::TokenClass;
use crate::error::ParseError;
use crate::node::Node;
use crate::refused::Refused;
use crate::steps::class_ahead;
use crate::tokens::Tokens;
use kt_base::NoMemory;
use kt_tree::{Keyword, Sign, SoftKeyword, Token};

/// Takes the next token where this sign is allowed, and is it.
pub fn sign_if<'a>(allowed: bool, tokens: &mut Tokens<'a>, sign: Sign) -> Option<&'a Token>
    ensures { TurnedIf allowed (is_sign sign) tokens.old (option_copied result) tokens.new }
{
    if allowed {
        tokens.take_sign(sign)
    } else {
        None
    }
}

/// Takes the next token where this keyword is allowed, and is it.
pub fn keyword_if<'a>(allowed: bool, tokens: &mut Tokens<'a>, keyword: Keyword) -> Option<&'a Token>
    ensures { TurnedIf allowed (is_keyword keyword) tokens.old (option_copied result) tokens.new }
{
    if allowed {
        tokens.take_keyword(keyword)
    } else {
        None
    }
}

/// Takes the next token where this soft keyword is allowed, and is how it is spelled.
pub fn soft_keyword_if<'a>(
    allowed: bool,
    tokens: &mut Tokens<'a>,
    word: SoftKeyword,
) -> Option<&'a Token>
    ensures { TurnedIf allowed (is_soft_keyword word) tokens.old (option_copied result) tokens.new }
{
    if allowed {
        tokens.take_soft_keyword(word)
    } else {
        None
    }
}

/// Takes the next token where this class is allowed, and has it.
pub fn class_if<'a>(allowed: bool, tokens: &mut Tokens<'a>, class: TokenClass) -> Option<&'a Token>
    ensures { TurnedIf allowed (is_of class) tokens.old (option_copied result) tokens.new }
{
    if allowed {
        tokens.take_class(class)
    } else {
        None
    }
}

/// Whether the next token is of this class, where that is asked. It is examined then, and not taken.
pub fn class_ahead_if(asked: bool, tokens: &mut Tokens<'_>, class: TokenClass) -> bool
    ensures { TriesIf asked (ahead (is_of class)) tokens.old result tokens.new }
{
    if asked {
        class_ahead(tokens, class)
    } else {
        false
    }
}

/// Takes a part that needs no memory, where it is allowed and stands. Else the cursor goes back.
pub fn part_if<'a, A: Node + Drop, F: Fn(&mut Tokens<'a>) -> Result<A, Refused>>(
    allowed: bool,
    tokens: &mut Tokens<'a>,
    part: &F,
) -> Option<A>
    requires { F.IsAlwaysCallable part.now }
    ensures { (p : Parser Token A.Tree) → EachExpects A.tree p (F.post part.now)
        → FindsIf allowed A.tree p tokens.old result tokens.new }
{
    if !allowed {
        return None;
    }
    let place = tokens.rest();
    match part(tokens) {
        Ok(found) => Some(found),
        Err(Refused) => {
            tokens.go_to(place);
            None
        }
    }
}

/// Takes a part where it is allowed and can be read. Else the cursor goes back.
pub fn attempt_if<'a, A: Node + Drop, F: Fn(&mut Tokens<'a>) -> Result<A, ParseError>>(
    allowed: bool,
    tokens: &mut Tokens<'a>,
    part: &F,
) -> Result<Option<A>, NoMemory>
    requires { F.IsAlwaysCallable part.now }
    ensures { (p : Parser Token A.Tree) → EachReads A.tree p (F.post part.now)
        → IfOk result (λ found. FindsIf allowed A.tree p tokens.old found tokens.new) }
{
    if !allowed {
        return Ok(None);
    }
    let place = tokens.rest();
    match part(tokens) {
        Ok(found) => Ok(Some(found)),
        Err(ParseError::Refused) => {
            tokens.go_to(place);
            Ok(None)
        }
        Err(ParseError::NoMemory) => Err(NoMemory),
    }
}
