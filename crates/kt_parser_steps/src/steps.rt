//! Steps that each production is made of.

ghost use Rattle.kt_grammar_parsers.specs.Parsers as parsers;
ghost use Rattle.kt_grammar_parsers.specs.Parsers.{cursor, further};
ghost use Rattle.kt_grammar.specs.Terminals as spec;
ghost use Rattle.kt_grammar.specs.Terminals.{Meaning};
ghost use Rattle.kt_parser_steps.specs.Classes.{is_of};
ghost use Rattle.kt_grammar.specs.Readers as readers;
ghost use Rattle.kt_tree.specs.Tokens.{is_identifier, is_keyword, is_sign, is_soft_keyword};
ghost use Rattle.kt_parser_steps.specs.Steps.{EachMeans, Expects, Finds, Tries};
ghost use Rattle.std.specs.Prelude.{◌≡◌, IfOk};

use crate::classes::TokenClass;
use crate::meanings::text_part;
use crate::refused::Refused;
use crate::tokens::Tokens;
use kt_base::{Name, NoMemory};
use kt_tree::{Keyword, Sign, SoftKeyword, TextPart, Token, TokenKind};
use std::alloc::Global;

/// The next token, which is to be this sign.
#[tactic(auto, using(crate::proofs::Turns::token_taken, crate::proofs::Turns::token_missed))]
pub fn expect<'a>(tokens: &mut Tokens<'a>, sign: Sign) -> Result<&'a Token, Refused>
    ensures { Expects (λ token. token.now) (readers.expect sign tokens.old) result tokens.new }
{
    match tokens.take_sign(sign) {
        Some(token) => Ok(token),
        None => Err(Refused),
    }
}

/// The next token, which is to be an identifier.
#[tactic(auto, using(crate::proofs::Turns::token_taken, crate::proofs::Turns::token_missed))]
pub fn expect_identifier<'a>(tokens: &mut Tokens<'a>) -> Result<&'a Token, Refused>
    ensures { Expects (λ token. token.now) (parsers.token is_identifier tokens.old) result tokens.new }
{
    match tokens.take_identifier() {
        Some(token) => Ok(token),
        None => Err(Refused),
    }
}

/// The spelling of an identifier, or of the name in a string. Other tokens have none.
pub fn name_of(alloc: Global, token: &Token) -> Result<Name, NoMemory>
    ensures { IfOk result (λ name. name ≡ spec.name_of token.now) }
{
    match &token.kind {
        TokenKind::Identifier(name) | TokenKind::NamePart(name) => Ok(name.clone()?),
        _ => Name::of(alloc, b""),
    }
}

/// Goes back to where a look began. The token that it found there counts as examined.
fn end_look<'a>(tokens: &mut Tokens<'a>, place: &'a [Token])
    ensures { tokens.new ≡ cursor place.now (further place.now tokens.old.far) }
{
    tokens.go_to(place);
    tokens.refuse();
}

/// Whether the next token is this sign. It is examined, and not taken.
#[tactic(auto, using(crate::proofs::Ways::ahead_seen, crate::proofs::Ways::ahead_unseen, crate::proofs::Ways::missed_rest))]
pub fn sign_ahead(tokens: &mut Tokens<'_>, sign: Sign) -> bool
    ensures { Tries (parsers.ahead (is_sign sign) tokens.old) tokens.old result tokens.new }
{
    let place = tokens.rest();
    match tokens.take_sign(sign) {
        Some(_) => {
            end_look(tokens, place);
            true
        }
        None => false,
    }
}

/// Whether the next token is of this class. It is examined, and not taken.
#[tactic(auto, using(crate::proofs::Ways::ahead_seen, crate::proofs::Ways::ahead_unseen, crate::proofs::Ways::missed_rest))]
pub fn class_ahead(tokens: &mut Tokens<'_>, class: TokenClass) -> bool
    ensures { Tries (parsers.ahead (is_of class) tokens.old) tokens.old result tokens.new }
{
    let place = tokens.rest();
    match tokens.take_class(class) {
        Some(_) => {
            end_look(tokens, place);
            true
        }
        None => false,
    }
}

/// The next token and what it stands for, where it stands for something: it is taken then.
pub fn meant<'a, A: Drop, F: Fn(&Token) -> Option<A>>(
    tokens: &mut Tokens<'a>,
    of: &F,
) -> Option<(&'a Token, A)>
    requires { F.IsAlwaysCallable of.now }
    ensures { (m : Meaning A) → EachMeans m (F.post of.now)
        → Finds (λ found. (found.0.now, found.1)) (readers.meant m tokens.old) tokens.old result tokens.new }
{
    match tokens.rest() {
        [token, rest @ ..] => match of(token) {
            Some(value) => {
                tokens.go_to(rest);
                Some((token, value))
            }
            None => {
                tokens.refuse();
                None
            }
        },
        [] => {
            tokens.refuse();
            None
        }
    }
}

/// The next token and the part of a string that it is, where it is text: it is taken then.
pub fn meant_text<'a>(tokens: &mut Tokens<'a>) -> Result<Option<(&'a Token, TextPart)>, NoMemory>
    ensures { IfOk result
        (λ found. Finds (λ part. (part.0.now, part.1)) (readers.meant spec.text_of tokens.old)
        tokens.old found tokens.new) }
{
    match tokens.rest() {
        [token, rest @ ..] => match text_part(token)? {
            Some(part) => {
                tokens.go_to(rest);
                Ok(Some((token, part)))
            }
            None => {
                tokens.refuse();
                Ok(None)
            }
        },
        [] => {
            tokens.refuse();
            Ok(None)
        }
    }
}

/// The next token, which is to be this keyword.
#[tactic(auto, using(crate::proofs::Turns::token_taken, crate::proofs::Turns::token_missed))]
pub fn expect_keyword<'a>(tokens: &mut Tokens<'a>, keyword: Keyword) -> Result<&'a Token, Refused>
    ensures { Expects (λ token. token.now) (parsers.token (is_keyword keyword) tokens.old) result tokens.new }
{
    match tokens.take_keyword(keyword) {
        Some(token) => Ok(token),
        None => Err(Refused),
    }
}

/// The next token, which is to be spelled as this soft keyword.
#[tactic(auto, using(crate::proofs::Turns::token_taken, crate::proofs::Turns::token_missed))]
pub fn expect_soft_keyword<'a>(
    tokens: &mut Tokens<'a>,
    word: SoftKeyword,
) -> Result<&'a Token, Refused>
    ensures { Expects (λ token. token.now) (parsers.token (is_soft_keyword word) tokens.old) result tokens.new }
{
    match tokens.take_soft_keyword(word) {
        Some(token) => Ok(token),
        None => Err(Refused),
    }
}
