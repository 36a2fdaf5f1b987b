//! Tokens (Kotlin specification, "Syntax and grammar", "Lexical grammar", in the profile of this language).

ghost use Rattle.kt_tree.specs.Tokens as spec;
ghost use Rattle.std.specs.Prelude.{◌≡◌};

use kt_base::{Name, Pos, Text16};

/// A token, and the place of its first character. The last token of a text is [`TokenKind::End`], at the place of the
/// end of the text.
#[derive(Clone, Debug, Drop, PartialEq, Eq)]
pub struct Token {
    pub kind: TokenKind,
    pub pos: Pos,
}

/// What a token is.
#[derive(Clone, Debug, Drop, PartialEq, Eq)]
pub enum TokenKind {
    /// A name that is no keyword. A [`SoftKeyword`] is one, and is told by its spelling.
    Identifier(Name),
    Keyword(Keyword),
    Number(Number),
    /// A character literal, by its UTF-16 code unit.
    Character(u16),
    Sign(Sign),
    /// The `"` that begins a string.
    OpenQuote,
    /// The `"` that ends a string.
    CloseQuote,
    /// A run of characters in a string, as UTF-16 code units.
    Run(Text16),
    /// An escape in a string, by the UTF-16 code unit that it stands for.
    Escape(u16),
    /// `$` with an identifier, in a string.
    NamePart(Name),
    /// `$this`, in a string.
    ThisPart,
    /// `${`, in a string. Ordinary tokens follow up to the matching `}`.
    OpenTemplate,
    /// A `$` before anything else, in a string, which is text.
    Dollar,
    /// The end of a line, where the innermost open bracket is neither `(` nor `[`.
    NewLine,
    /// The end of the text.
    End,
}

/// A decimal number literal.
#[derive(Clone, Copy, Debug, PartialEq, Eq)]
pub struct Number {
    /// The number, where it is at most 9223372036854775807. A greater one is a token too, and has no type.
    pub value: Option<u64>,
    /// Whether an `L` stands behind it.
    pub long: bool,
}

/// The words that are no names.
#[derive(Clone, Copy, Debug, PartialEq, Eq)]
pub enum Keyword {
    As,
    Break,
    Class,
    Continue,
    Do,
    Else,
    False,
    For,
    Fun,
    If,
    In,
    Interface,
    Is,
    Null,
    Object,
    Package,
    Return,
    Super,
    This,
    Throw,
    True,
    Try,
    TypeAlias,
    TypeOf,
    Val,
    Var,
    When,
    While,
}

/// The names that have a meaning of their own at some places of the grammar.
#[derive(Clone, Copy, Debug, PartialEq, Eq)]
pub enum SoftKeyword {
    Abstract,
    Catch,
    Const,
    Data,
    Enum,
    Finally,
    Open,
    Override,
    Suspend,
    And,
    Or,
    Xor,
    Shl,
    Shr,
    Ushr,
    Until,
}

/// Operators, brackets and separators.
#[derive(Clone, Copy, Debug, PartialEq, Eq)]
pub enum Sign {
    /// `+`
    Plus,
    /// `-`
    Minus,
    /// `*`
    Times,
    /// `/`
    Divide,
    /// `%`
    Remainder,
    /// `++`
    Increment,
    /// `--`
    Decrement,
    /// `+=`
    PlusAssign,
    /// `-=`
    MinusAssign,
    /// `*=`
    TimesAssign,
    /// `/=`
    DivideAssign,
    /// `%=`
    RemainderAssign,
    /// `=`
    Assign,
    /// `==`
    Equal,
    /// `!=`
    NotEqual,
    /// `<`
    Less,
    /// `>`
    Greater,
    /// `<=`
    LessOrEqual,
    /// `>=`
    GreaterOrEqual,
    /// `&&`
    Conjunction,
    /// `||`
    Disjunction,
    /// `!`
    Not,
    /// `!!`
    NotNull,
    /// `?`
    Question,
    /// `?.`
    SafeDot,
    /// `?:`
    Elvis,
    /// `.`
    Dot,
    /// `..`
    Range,
    /// `,`
    Comma,
    /// `:`
    Colon,
    /// `;`
    Semicolon,
    /// `->`
    Arrow,
    /// `(`
    OpenParenthesis,
    /// `)`
    CloseParenthesis,
    /// `[`
    OpenBracket,
    /// `]`
    CloseBracket,
    /// `{`
    OpenBrace,
    /// `}`
    CloseBrace,
    /// `as?`
    SafeAs,
    /// `!is`, where no letter, digit or `_` follows
    NotIs,
}

impl Token {
    /// Whether it is this keyword.
    pub fn is_keyword(&self, keyword: Keyword) -> bool
        ensures { result ≡ spec.is_keyword keyword self.now }
    {
        match &self.kind {
            TokenKind::Keyword(found) => same_keyword(*found, keyword),
            _ => false,
        }
    }

    /// Whether it is this sign.
    pub fn is_sign(&self, sign: Sign) -> bool
        ensures { result ≡ spec.is_sign sign self.now }
    {
        match &self.kind {
            TokenKind::Sign(found) => same_sign(*found, sign),
            _ => false,
        }
    }

    /// Whether it is an identifier that is spelled as this soft keyword.
    pub fn is_soft_keyword(&self, word: SoftKeyword) -> bool
        ensures { result ≡ spec.is_soft_keyword word self.now }
    {
        match &self.kind {
            TokenKind::Identifier(name) => name.as_bytes() == word.spelling(),
            _ => false,
        }
    }

    /// Whether it is an identifier.
    pub fn is_identifier(&self) -> bool
        ensures { result ≡ spec.is_identifier self.now }
    {
        matches!(&self.kind, TokenKind::Identifier(_))
    }

    /// Whether it is the end of a line.
    pub fn is_new_line(&self) -> bool
        ensures { result ≡ spec.is_new_line self.now }
    {
        matches!(&self.kind, TokenKind::NewLine)
    }
}

/// Whether two keywords are the same.
pub fn same_keyword(a: Keyword, b: Keyword) -> bool
    ensures { result ≡ spec.same_keyword a b }
{
    a == b
}

/// Whether two signs are the same.
pub fn same_sign(a: Sign, b: Sign) -> bool
    ensures { result ≡ spec.same_sign a b }
{
    a == b
}

impl SoftKeyword {
    /// How it is written, in ASCII.
    pub fn spelling(self) -> &'static [u8]
        ensures { result.now ≡ spec.spelling self }
    {
        match self {
            SoftKeyword::Abstract => b"abstract",
            SoftKeyword::Catch => b"catch",
            SoftKeyword::Const => b"const",
            SoftKeyword::Data => b"data",
            SoftKeyword::Enum => b"enum",
            SoftKeyword::Finally => b"finally",
            SoftKeyword::Open => b"open",
            SoftKeyword::Override => b"override",
            SoftKeyword::Suspend => b"suspend",
            SoftKeyword::And => b"and",
            SoftKeyword::Or => b"or",
            SoftKeyword::Xor => b"xor",
            SoftKeyword::Shl => b"shl",
            SoftKeyword::Shr => b"shr",
            SoftKeyword::Ushr => b"ushr",
            SoftKeyword::Until => b"until",
        }
    }
}
