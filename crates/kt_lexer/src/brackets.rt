//! What is open at a place of a text: brackets and strings.

ghost use Rattle.std.specs.Prelude.{◌≡◌, [], ◌∷◌, OnOk};
ghost use Rattle.kt_lexer.specs.Texts as spec;

use kt_base::NoMemory;
use kt_tree::{Sign, TokenKind};
use std::alloc::Global;
use std::marker::Model;

/// A bracket or a string that is open.
#[derive(Clone, Copy, PartialEq, Eq)]
pub enum Open {
    Parenthesis,
    Bracket,
    Brace,
    String,
}

/// What is open, the innermost last. Contracts see the innermost first.
#[derive(Drop)]
pub struct Openings {
    stack: Vec<Open>,
}

impl Model for Openings {
    ghost use Rattle.std.specs.Prelude.{List, reverse};
    ghost use Rattle.kt_lexer.specs.declared.brackets.Open.{Open};

    ghost Value = { List Open };

    ghost view = { λ o. reverse o.stack.items };
}

impl Openings {
    /// Nothing is open.
    pub fn new(alloc: Global) -> Openings
        ensures { result ≡ [] }
    {
        Openings {
            stack: Vec::new(alloc),
        }
    }

    /// Whether the text is within a string, and not within brackets in it.
    pub fn in_string(&self) -> bool
        ensures { result ≡ spec.in_string self.now }
    {
        match self.stack.last() {
            Some(Open::String) => true,
            Some(Open::Parenthesis | Open::Bracket | Open::Brace) | None => false,
        }
    }

    /// Whether the ends of lines count for nothing.
    pub fn drops_lines(&self) -> bool
        ensures { result ≡ spec.drops_lines self.now }
    {
        match self.stack.last() {
            Some(Open::Parenthesis | Open::Bracket) => true,
            Some(Open::Brace | Open::String) | None => false,
        }
    }

    /// Opens or closes what the token does.
    pub fn pass(&mut self, kind: &TokenKind) -> Result<(), NoMemory>
        ensures { OnOk result (self.new ≡ spec.after_token kind.now self.old) }
    {
        match kind {
            TokenKind::Sign(sign) => self.pass_sign(*sign),
            TokenKind::OpenTemplate => self.open(Open::Brace),
            TokenKind::OpenQuote => self.open(Open::String),
            TokenKind::CloseQuote => {
                self.close(Open::String);
                Ok(())
            }
            _ => Ok(()),
        }
    }

    /// Opens or closes the bracket that the sign is.
    fn pass_sign(&mut self, sign: Sign) -> Result<(), NoMemory>
        ensures { OnOk result (self.new ≡ spec.after_sign sign self.old) }
    {
        match sign {
            Sign::OpenParenthesis => self.open(Open::Parenthesis)?,
            Sign::OpenBracket => self.open(Open::Bracket)?,
            Sign::OpenBrace => self.open(Open::Brace)?,
            Sign::CloseParenthesis => self.close(Open::Parenthesis),
            Sign::CloseBracket => self.close(Open::Bracket),
            Sign::CloseBrace => self.close(Open::Brace),
            _ => {}
        }
        Ok(())
    }

    fn open(&mut self, opened: Open) -> Result<(), NoMemory>
        ensures { OnOk result (self.new ≡ opened ∷ self.old) }
    {
        Ok(self.stack.push(opened)?)
    }

    /// Closes the innermost open one if it is of this kind, else nothing.
    fn close(&mut self, closing: Open)
        ensures { self.new ≡ spec.closed closing self.old }
    {
        if self.closes(closing) {
            self.stack.pop();
        }
    }

    /// Whether the innermost open one is of this kind.
    fn closes(&self, closing: Open) -> bool
        ensures { result ≡ spec.closes closing self.now }
    {
        match self.stack.last() {
            Some(innermost) => same_open(*innermost, closing),
            None => false,
        }
    }
}

/// Whether the two are the same bracket, or a string both.
#[tactic(auto, unfolding(crate::specs::Texts::same_open))]
fn same_open(a: Open, b: Open) -> bool
    ensures { result ≡ spec.same_open a b }
{
    a == b
}
