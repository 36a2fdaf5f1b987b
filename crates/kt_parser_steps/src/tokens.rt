//! A cursor over tokens, which keeps the furthest token that was examined in vain.

ghost use Rattle.kt_parser_steps.specs.Cursors.{Turned};
ghost use Rattle.kt_grammar_parsers.specs.Parsers as spec;
ghost use Rattle.kt_grammar_parsers.specs.Parsers.{behind, cursor, further};
ghost use Rattle.kt_grammar.specs.Terminals.{is_separator};
ghost use Rattle.kt_parser_steps.specs.Classes.{is_of};
ghost use Rattle.kt_tree.specs.Tokens.{is_identifier, is_keyword, is_new_line, is_sign, is_soft_keyword};
ghost use Rattle.std.specs.Prelude.{◌≡◌, ◌+◌, ◌<◌, ◌∷◌, length, Ok};
ghost use Rattle.std.specs.Option.{option_copied};

use crate::classes::TokenClass;
use crate::error::ParseError;
use kt_tree::{Keyword, Sign, SoftKeyword, Token};
use std::marker::Model;

/// The tokens that aren't taken yet, and those from the furthest one on that was examined in vain.
#[derive(Drop)]
pub struct Tokens<'a> {
    rest: &'a [Token],
    far: &'a [Token],
}

impl<'a> Model for Tokens<'a> {
    ghost use Rattle.kt_grammar_parsers.specs.Parsers.{Cursor};
    ghost use Rattle.kt_tree.specs.declared.tokens.Token.{Token};

    ghost Value = { Cursor Token };

    ghost view = { λ t. record { rest = t.rest.now; far = t.far.now } };
}

#[tactic(auto, unfolding(kt_grammar_parsers::specs::Parsers::further))]
fn furthest<'t>(a: &'t [Token], b: &'t [Token]) -> &'t [Token]
    ensures { result.now ≡ further a.now b.now }
{
    if a.len() <= b.len() { a } else { b }
}

/// The tokens behind the line ends that come first.
#[tactic(auto, using(kt_grammar_parsers::proofs::Behind::behind_more, kt_grammar_parsers::proofs::Behind::behind_done, kt_grammar_parsers::proofs::Behind::tail_shorter))]
fn behind_lines<'t>(tokens: &'t [Token]) -> &'t [Token]
    ensures { result.now ≡ behind is_new_line tokens.now }
{
    let mut rest = tokens;
    while next_is_line(rest) {
        rest = tail(rest);
    }
    rest
}

fn next_is_line(tokens: &[Token]) -> bool
    ensures { result ≡ spec.first is_new_line tokens.now }
{
    match tokens {
        [token, ..] => token.is_new_line(),
        [] => false,
    }
}

/// The tokens behind the separators that come first.
#[tactic(auto, using(kt_grammar_parsers::proofs::Behind::behind_more, kt_grammar_parsers::proofs::Behind::behind_done, kt_grammar_parsers::proofs::Behind::tail_shorter))]
fn behind_separators<'t>(tokens: &'t [Token]) -> &'t [Token]
    ensures { result.now ≡ behind is_separator tokens.now }
{
    let mut rest = tokens;
    while next_is_separator(rest) {
        rest = tail(rest);
    }
    rest
}

fn next_is_separator(tokens: &[Token]) -> bool
    ensures { result ≡ spec.first is_separator tokens.now }
{
    match tokens {
        [token, ..] => token.is_new_line() || token.is_sign(Sign::Semicolon),
        [] => false,
    }
}

fn tail<'t>(tokens: &'t [Token]) -> &'t [Token]
    ensures { result.now ≡ spec.tail tokens.now }
{
    match tokens {
        [_, rest @ ..] => rest,
        [] => tokens,
    }
}

impl<'a> Tokens<'a> {
    /// A cursor at the first token.
    pub fn new(tokens: &'a [Token]) -> Tokens<'a>
        ensures { result ≡ cursor tokens.now tokens.now }
    {
        Tokens {
            rest: tokens,
            far: tokens,
        }
    }

    /// More turns than a loop has that takes a token in each.
    pub fn turns(&self) -> usize
        ensures { result ≡ length self.now.rest + 1 }
    {
        self.rest.len() + 1
    }

    /// How many tokens there are from the furthest one on that was examined in vain.
    pub fn far(&self) -> usize
        ensures { result ≡ length self.now.far }
    {
        self.far.len()
    }

    /// The tokens that aren't taken yet: a place for [`Tokens::go_to`].
    pub fn rest(&self) -> &'a [Token]
        ensures { result.now ≡ self.now.rest }
    {
        self.rest
    }

    /// Goes to a place. What was examined in vain is kept.
    pub fn go_to(&mut self, place: &'a [Token])
        ensures { self.new ≡ cursor place.now self.old.far }
    {
        self.rest = place;
    }

    /// Marks the next token as examined in vain.
    pub fn refuse(&mut self) -> ParseError
        ensures error { result ≡ ParseError.Refused }
        ensures marked { self.new ≡ cursor self.old.rest (further self.old.rest self.old.far) }
    {
        self.far = furthest(self.rest, self.far);
        ParseError::Refused
    }

    /// Skips the line ends that come next.
    #[tactic(auto, unfolding(kt_grammar_parsers::specs::Parsers::skip))]
    pub fn skip_lines(&mut self)
        ensures { spec.skip is_new_line self.old ≡ Ok (tt, self.new) }
    {
        self.rest = behind_lines(self.rest);
        self.far = furthest(self.rest, self.far);
    }

    /// Skips the separators that come next.
    #[tactic(auto, unfolding(kt_grammar_parsers::specs::Parsers::skip))]
    pub fn skip_separators(&mut self)
        ensures { spec.skip is_separator self.old ≡ Ok (tt, self.new) }
    {
        self.rest = behind_separators(self.rest);
        self.far = furthest(self.rest, self.far);
    }

    /// Takes the next token.
    fn take(&mut self) -> &'a Token
        requires { 0 < length self.old.rest }
        ensures token { self.old.rest ≡ result.now ∷ self.new.rest }
        ensures far { self.new.far ≡ self.old.far }
    {
        match self.rest {
            [token, rest @ ..] => {
                self.rest = rest;
                token
            }
            [] => unreachable!(),
        }
    }

    /// Takes the next token where it is this sign.
    #[tactic(auto, using(kt_grammar_parsers::proofs::Behind::first_there, kt_grammar_parsers::proofs::Behind::first_passes))]
    pub fn take_sign(&mut self, sign: Sign) -> Option<&'a Token>
        ensures { Turned (is_sign sign) self.old (option_copied result) self.new }
    {
        if next_is_sign(self.rest, sign) {
            Some(self.take())
        } else {
            self.far = furthest(self.rest, self.far);
            None
        }
    }

    /// Takes the next token where it is this keyword.
    #[tactic(auto, using(kt_grammar_parsers::proofs::Behind::first_there, kt_grammar_parsers::proofs::Behind::first_passes))]
    pub fn take_keyword(&mut self, keyword: Keyword) -> Option<&'a Token>
        ensures { Turned (is_keyword keyword) self.old (option_copied result) self.new }
    {
        if next_is_keyword(self.rest, keyword) {
            Some(self.take())
        } else {
            self.far = furthest(self.rest, self.far);
            None
        }
    }

    /// Takes the next token where it is spelled as this soft keyword.
    #[tactic(auto, using(kt_grammar_parsers::proofs::Behind::first_there, kt_grammar_parsers::proofs::Behind::first_passes))]
    pub fn take_soft_keyword(&mut self, word: SoftKeyword) -> Option<&'a Token>
        ensures { Turned (is_soft_keyword word) self.old (option_copied result) self.new }
    {
        if next_is_soft_keyword(self.rest, word) {
            Some(self.take())
        } else {
            self.far = furthest(self.rest, self.far);
            None
        }
    }

    /// Takes the next token where it is of this class.
    #[tactic(auto, using(kt_grammar_parsers::proofs::Behind::first_there, kt_grammar_parsers::proofs::Behind::first_passes))]
    pub fn take_class(&mut self, class: TokenClass) -> Option<&'a Token>
        ensures { Turned (is_of class) self.old (option_copied result) self.new }
    {
        if next_is_of(self.rest, class) {
            Some(self.take())
        } else {
            self.far = furthest(self.rest, self.far);
            None
        }
    }

    /// Takes the next token where it is an identifier.
    #[tactic(auto, using(kt_grammar_parsers::proofs::Behind::first_there, kt_grammar_parsers::proofs::Behind::first_passes))]
    pub fn take_identifier(&mut self) -> Option<&'a Token>
        ensures { Turned is_identifier self.old (option_copied result) self.new }
    {
        if next_is_identifier(self.rest) {
            Some(self.take())
        } else {
            self.far = furthest(self.rest, self.far);
            None
        }
    }
}

fn next_is_sign(tokens: &[Token], sign: Sign) -> bool
    ensures { result ≡ spec.first (is_sign sign) tokens.now }
{
    match tokens {
        [token, ..] => token.is_sign(sign),
        [] => false,
    }
}

fn next_is_keyword(tokens: &[Token], keyword: Keyword) -> bool
    ensures { result ≡ spec.first (is_keyword keyword) tokens.now }
{
    match tokens {
        [token, ..] => token.is_keyword(keyword),
        [] => false,
    }
}

fn next_is_soft_keyword(tokens: &[Token], word: SoftKeyword) -> bool
    ensures { result ≡ spec.first (is_soft_keyword word) tokens.now }
{
    match tokens {
        [token, ..] => token.is_soft_keyword(word),
        [] => false,
    }
}

fn next_is_of(tokens: &[Token], class: TokenClass) -> bool
    ensures { result ≡ spec.first (is_of class) tokens.now }
{
    match tokens {
        [token, ..] => class.contains(token),
        [] => false,
    }
}

fn next_is_identifier(tokens: &[Token]) -> bool
    ensures { result ≡ spec.first is_identifier tokens.now }
{
    match tokens {
        [token, ..] => token.is_identifier(),
        [] => false,
    }
}
