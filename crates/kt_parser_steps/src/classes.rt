//! Classes of tokens that productions ask for, beside single signs and words.

ghost use Rattle.kt_grammar.specs.Terminals as spec;
ghost use Rattle.kt_parser_steps.specs.Classes.{is_of};
ghost use Rattle.std.specs.Prelude.{◌≡◌};

use kt_tree::{Keyword, Sign, Token, TokenKind};

/// A class of tokens.
#[derive(Clone, Copy, Debug, PartialEq, Eq)]
pub enum TokenClass {
    /// The end of a line, or `;`.
    Separator,
    /// `}`
    CloseBrace,
    /// The end of the text.
    End,
    /// `(` or `{`: what the arguments of a call begin with.
    OpensArguments,
    /// What an expression begins with.
    BeginsExpression,
    /// Any token but `->`.
    NoArrow,
    /// The `"` that begins a string.
    OpenQuote,
    /// The `"` that ends a string.
    CloseQuote,
    /// `$` with an identifier, in a string.
    NamePart,
    /// `$this`, in a string.
    ThisPart,
    /// `${`, in a string.
    OpenTemplate,
}

impl TokenClass {
    /// Whether the token is of the class.
    pub fn contains(self, token: &Token) -> bool
        ensures { result ≡ is_of self token.now }
    {
        match self {
            TokenClass::Separator => token.is_new_line() || token.is_sign(Sign::Semicolon),
            TokenClass::CloseBrace => token.is_sign(Sign::CloseBrace),
            TokenClass::End => matches!(token.kind, TokenKind::End),
            TokenClass::OpensArguments => {
                token.is_sign(Sign::OpenParenthesis) || token.is_sign(Sign::OpenBrace)
            }
            TokenClass::BeginsExpression => begins_expression(&token.kind),
            TokenClass::NoArrow => !token.is_sign(Sign::Arrow),
            TokenClass::OpenQuote => matches!(token.kind, TokenKind::OpenQuote),
            TokenClass::CloseQuote => matches!(token.kind, TokenKind::CloseQuote),
            TokenClass::NamePart => matches!(token.kind, TokenKind::NamePart(_)),
            TokenClass::ThisPart => matches!(token.kind, TokenKind::ThisPart),
            TokenClass::OpenTemplate => matches!(token.kind, TokenKind::OpenTemplate),
        }
    }
}

fn begins_expression(kind: &TokenKind) -> bool
    ensures { result ≡ spec.kind_begins_expression kind.now }
{
    match kind {
        TokenKind::Identifier(_)
        | TokenKind::Number(_)
        | TokenKind::Character(_)
        | TokenKind::OpenQuote => true,
        TokenKind::Keyword(keyword) => keyword_begins_expression(*keyword),
        TokenKind::Sign(sign) => sign_begins_expression(*sign),
        _ => false,
    }
}

fn keyword_begins_expression(keyword: Keyword) -> bool
    ensures { result ≡ spec.keyword_begins_expression keyword }
{
    matches!(
        keyword,
        Keyword::Break
            | Keyword::Continue
            | Keyword::False
            | Keyword::If
            | Keyword::Null
            | Keyword::Return
            | Keyword::This
            | Keyword::Throw
            | Keyword::True
            | Keyword::Try
            | Keyword::When
    )
}

fn sign_begins_expression(sign: Sign) -> bool
    ensures { result ≡ spec.sign_begins_expression sign }
{
    matches!(
        sign,
        Sign::Minus | Sign::Not | Sign::OpenParenthesis | Sign::OpenBrace
    )
}
