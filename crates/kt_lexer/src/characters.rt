//! The kinds of characters of which tokens are made.

ghost use Rattle.std.specs.Prelude.{◌≡◌, ◌≤◌, length};
ghost use Rattle.kt_lexer.specs.Lexemes as spec;
ghost use Rattle.kt_lexer.specs.Scanning as scanning;

/// A kind of characters that stand in any number behind one another.
#[derive(Clone, Copy)]
pub enum CharacterClass {
    /// An ASCII letter, a digit or `_`.
    Word,
    /// A decimal digit.
    Digit,
    /// What stands in a string by itself: all but `"`, `\`, `$` and the ends of lines.
    Run,
}

impl CharacterClass {
    /// Whether the character is of this kind.
    pub fn contains(self, c: char) -> bool
        ensures { result ≡ scanning.contains self c }
    {
        match self {
            CharacterClass::Word => is_word(c),
            CharacterClass::Digit => is_digit(c),
            CharacterClass::Run => is_run(c),
        }
    }

    /// The characters behind those of this kind that come first.
    pub fn behind(self, chars: &[char]) -> &[char]
        ensures rest { result.now ≡ scanning.behind (scanning.contains self) chars.now }
        ensures shorter { length result.now ≤ length chars.now }
    {
        let mut rest = chars;
        while let [next, behind @ ..] = rest {
            if !self.contains(*next) {
                break;
            }
            rest = behind;
        }
        rest
    }
}

/// Whether it is an ASCII letter or `_`.
pub fn is_letter(c: char) -> bool
    ensures { result ≡ spec.is_letter c }
{
    ('A' <= c && c <= 'Z') || ('a' <= c && c <= 'z') || c == '_'
}

/// Whether it is a decimal digit.
pub fn is_digit(c: char) -> bool
    ensures { result ≡ spec.is_digit c }
{
    '0' <= c && c <= '9'
}

/// Whether it may stand in a name behind its first character.
pub fn is_word(c: char) -> bool
    ensures { result ≡ spec.is_word c }
{
    is_letter(c) || is_digit(c)
}

/// Whether it is a hexadecimal digit.
pub fn is_hexadecimal(c: char) -> bool
    ensures { result ≡ spec.is_hexadecimal c }
{
    is_digit(c) || ('A' <= c && c <= 'F') || ('a' <= c && c <= 'f')
}

/// Whether it may stand in a character literal by itself: of the basic plane, and no `'`, `\` or end of a line.
pub fn is_plain(c: char) -> bool
    ensures { result ≡ spec.is_plain c }
{
    u32::from(c) < 0x1_0000 && !(c == '\'' || c == '\\' || c == '\n' || c == '\r')
}

/// Whether it may stand in a run of a string.
fn is_run(c: char) -> bool
    ensures { result ≡ spec.is_run c }
{
    !(c == '"' || c == '\\' || c == '$' || c == '\n' || c == '\r')
}

/// The characters that were passed, where `rest` is left.
pub fn passed<'t>(chars: &'t [char], rest: &[char]) -> &'t [char]
    requires { length rest.now ≤ length chars.now }
    ensures { result.now ≡ scanning.passed chars.now rest.now }
{
    &chars[..chars.len() - rest.len()]
}
