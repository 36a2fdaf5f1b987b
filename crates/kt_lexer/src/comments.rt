//! Comments.

ghost use Rattle.std.specs.Prelude.{◌≡◌, ◌<◌};
ghost use Rattle.std.specs.Option.{option_map};
ghost use Rattle.kt_lexer.specs.Scanning as scanning;

/// What is left from the line's end on.
pub fn line_rest(chars: &[char]) -> &[char]
    ensures { result.now ≡ scanning.line_rest chars.now }
{
    let mut rest = chars;
    while let [next, behind @ ..] = rest {
        if at_line_end(*next, behind) {
            break;
        }
        rest = behind;
    }
    rest
}

/// Whether a line ends with this character and what follows.
fn at_line_end(c: char, behind: &[char]) -> bool
    ensures { result ≡ scanning.at_line_end c behind.now }
{
    match behind {
        ['\n', ..] => c == '\n' || c == '\r',
        _ => c == '\n',
    }
}

/// What stands behind a comment whose `/*` has been read. Comments nest.
pub fn comment_rest(chars: &[char]) -> Option<&[char]>
    ensures { option_map (λ rest. rest.now) result ≡ scanning.comment_rest 0 chars.now }
{
    let mut depth = 0usize;
    let mut rest = chars;
    while rest.len() >= 2 {
        let first = rest[0];
        let second = rest[1];
        if opens_comment(first, second) {
            depth += 1;
            rest = &rest[2..];
        } else if closes_comment(first, second) {
            if depth == 0 {
                return Some(&rest[2..]);
            }
            depth -= 1;
            rest = &rest[2..];
        } else {
            rest = &rest[1..];
        }
    }
    None
}

fn opens_comment(first: char, second: char) -> bool
    ensures { result ≡ scanning.opens_comment first second }
{
    first == '/' && second == '*'
}

fn closes_comment(first: char, second: char) -> bool
    ensures { result ≡ scanning.closes_comment first second }
{
    first == '*' && second == '/'
}
