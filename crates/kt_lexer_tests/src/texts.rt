//! Texts with their tokens, and texts that have none with the place, worked out by hand.

use kt_base::{FrontErr, Text16};
use kt_lexer::{lex, lex_bytes};
use kt_tree::{Token, TokenKind};
use std::alloc::{AllocError, Global};
use std::str;
use std::test::Fail;

/// The tokens with their places, or why there are none.
fn told(alloc: Global, outcome: Result<Vec<Token>, FrontErr>) -> Result<String, AllocError> {
    match outcome {
        Ok(tokens) => listed(alloc, &tokens),
        Err(error) => format!(in alloc; "{error}"),
    }
}

fn listed(alloc: Global, tokens: &Vec<Token>) -> Result<String, AllocError> {
    let mut listing = String::new(alloc);
    for token in tokens {
        let pos = token.pos;
        let kind = kind_told(alloc, &token.kind)?;
        listing.push_str(format!(in alloc; "{pos} {kind}, ")?.as_str())?;
    }
    Ok(listing)
}

fn kind_told(alloc: Global, kind: &TokenKind) -> Result<String, AllocError> {
    match kind {
        TokenKind::Identifier(name) => format!(in alloc; "name {}", ascii(name.as_bytes())),
        TokenKind::Keyword(keyword) => format!(in alloc; "{keyword:?}"),
        TokenKind::Number(number) => {
            let value = number.value;
            let long = number.long;
            format!(in alloc; "number {value:?} {long}")
        }
        TokenKind::Character(unit) => format!(in alloc; "character {unit}"),
        TokenKind::Sign(sign) => format!(in alloc; "{sign:?}"),
        TokenKind::OpenQuote => format!(in alloc; "open"),
        TokenKind::CloseQuote => format!(in alloc; "close"),
        TokenKind::Run(text) => run_told(alloc, text),
        TokenKind::Escape(unit) => format!(in alloc; "escape {unit}"),
        TokenKind::NamePart(name) => format!(in alloc; "part {}", ascii(name.as_bytes())),
        TokenKind::ThisPart => format!(in alloc; "this"),
        TokenKind::OpenTemplate => format!(in alloc; "template"),
        TokenKind::Dollar => format!(in alloc; "dollar"),
        TokenKind::NewLine => format!(in alloc; "line"),
        TokenKind::End => format!(in alloc; "end"),
    }
}

fn run_told(alloc: Global, text: &Text16) -> Result<String, AllocError> {
    let units = text.units();
    format!(in alloc; "run {units:?}")
}

fn ascii(bytes: &[u8]) -> &str {
    match str::from_utf8(bytes) {
        Ok(text) => text,
        Err(_) => "not ASCII",
    }
}

/// Each kind of token, with the longest match.
fn tokens() -> [(&'static str, &'static str); 33] {
    [
        ("", "1:1 end, "),
        (
            "fun main() { }",
            "1:1 Fun, 1:5 name main, 1:9 OpenParenthesis, 1:10 CloseParenthesis, 1:12 OpenBrace, 1:14 CloseBrace, \
             1:15 end, ",
        ),
        (
            "open suspend catch until _a9 funs",
            "1:1 name open, 1:6 name suspend, 1:14 name catch, 1:20 name until, 1:26 name _a9, 1:30 name funs, \
             1:34 end, ",
        ),
        (
            "as break class continue do else false for fun if",
            "1:1 As, 1:4 Break, 1:10 Class, 1:16 Continue, 1:25 Do, 1:28 Else, 1:33 False, 1:39 For, 1:43 Fun, \
             1:47 If, 1:49 end, ",
        ),
        (
            "in interface is null object package return super this",
            "1:1 In, 1:4 Interface, 1:14 Is, 1:17 Null, 1:22 Object, 1:29 Package, 1:37 Return, 1:44 Super, \
             1:50 This, 1:54 end, ",
        ),
        (
            "throw true try typealias typeof val var when while",
            "1:1 Throw, 1:7 True, 1:12 Try, 1:16 TypeAlias, 1:26 TypeOf, 1:33 Val, 1:37 Var, 1:41 When, \
             1:46 While, 1:51 end, ",
        ),
        (
            "0123 1L0L",
            "1:1 number Some(0) false, 1:2 number Some(123) false, 1:6 number Some(1) true, \
             1:8 number Some(0) true, 1:10 end, ",
        ),
        (
            "9223372036854775807L 9223372036854775808",
            "1:1 number Some(9223372036854775807) true, 1:22 number None false, 1:41 end, ",
        ),
        ("12ab", "1:1 number Some(12) false, 1:3 name ab, 1:5 end, "),
        (
            "'a''\u{FFFF}''\"'",
            "1:1 character 97, 1:4 character 65535, 1:7 character 34, 1:10 end, ",
        ),
        (
            "'\\t''\\b''\\n''\\r''\\'''\\\"''\\\\''\\$''\\uD83d'",
            "1:1 character 9, 1:5 character 8, 1:9 character 10, 1:13 character 13, 1:17 character 39, \
             1:21 character 34, 1:25 character 92, 1:29 character 36, 1:33 character 55357, 1:41 end, ",
        ),
        (
            "+ - * / % ++ -- += -= *= /= %= =",
            "1:1 Plus, 1:3 Minus, 1:5 Times, 1:7 Divide, 1:9 Remainder, 1:11 Increment, 1:14 Decrement, \
             1:17 PlusAssign, 1:20 MinusAssign, 1:23 TimesAssign, 1:26 DivideAssign, 1:29 RemainderAssign, \
             1:32 Assign, 1:33 end, ",
        ),
        (
            "== != < > <= >= && || ! !! ? ?. ?:",
            "1:1 Equal, 1:4 NotEqual, 1:7 Less, 1:9 Greater, 1:11 LessOrEqual, 1:14 GreaterOrEqual, \
             1:17 Conjunction, 1:20 Disjunction, 1:23 Not, 1:25 NotNull, 1:28 Question, 1:30 SafeDot, 1:33 Elvis, \
             1:35 end, ",
        ),
        (
            ". .. , : ; -> as? !is",
            "1:1 Dot, 1:3 Range, 1:6 Comma, 1:8 Colon, 1:10 Semicolon, 1:12 Arrow, 1:15 SafeAs, 1:19 NotIs, 1:22 end, ",
        ),
        (
            "1..2...3",
            "1:1 number Some(1) false, 1:2 Range, 1:4 number Some(2) false, 1:5 Range, 1:7 Dot, \
             1:8 number Some(3) false, 1:9 end, ",
        ),
        (
            "a--b---c",
            "1:1 name a, 1:2 Decrement, 1:4 name b, 1:5 Decrement, 1:7 Minus, 1:8 name c, 1:9 end, ",
        ),
        (
            "!isX !is_ !is1 !is.",
            "1:1 Not, 1:2 name isX, 1:6 Not, 1:7 name is_, 1:11 Not, 1:12 name is1, 1:16 NotIs, 1:19 Dot, 1:20 end, ",
        ),
        (
            "!!is !!! as?as as ?asx?",
            "1:1 NotNull, 1:3 Is, 1:6 NotNull, 1:8 Not, 1:10 SafeAs, 1:13 As, 1:16 As, 1:19 Question, \
             1:20 name asx, 1:23 Question, 1:24 end, ",
        ),
        (
            "a/*b/*c*/\nd*/e//f\r\ng/",
            "1:1 name a, 2:4 name e, 2:8 line, 3:1 name g, 3:2 Divide, 3:3 end, ",
        ),
        (
            "//\u{1F600}\rx\n/**//*/**/*/1",
            "1:6 line, 2:13 number Some(1) false, 2:14 end, ",
        ),
        (
            "a\n\n\r\n\tb",
            "1:1 name a, 1:2 line, 2:1 line, 3:1 line, 4:2 name b, 4:3 end, ",
        ),
        (
            "(\n[\n{\n}\n]\n)\n",
            "1:1 OpenParenthesis, 2:1 OpenBracket, 3:1 OpenBrace, 3:2 line, 4:1 CloseBrace, 5:1 CloseBracket, \
             6:1 CloseParenthesis, 6:2 line, 7:1 end, ",
        ),
        (
            "(]\n}\n)\n",
            "1:1 OpenParenthesis, 1:2 CloseBracket, 2:1 CloseBrace, 3:1 CloseParenthesis, 3:2 line, 4:1 end, ",
        ),
        (
            ")\n{)\n}",
            "1:1 CloseParenthesis, 1:2 line, 2:1 OpenBrace, 2:2 CloseParenthesis, 2:3 line, 3:1 CloseBrace, 3:2 end, ",
        ),
        (
            "\"\" \"ab c\"",
            "1:1 open, 1:2 close, 1:4 open, 1:5 run [97, 98, 32, 99], 1:9 close, 1:10 end, ",
        ),
        (
            "\"a\\n\\u0041b\"",
            "1:1 open, 1:2 run [97], 1:3 escape 10, 1:5 escape 65, 1:11 run [98], 1:12 close, 1:13 end, ",
        ),
        (
            "\"$a$this$if $ $$b$_1.\"",
            "1:1 open, 1:2 part a, 1:4 this, 1:9 dollar, 1:10 run [105, 102, 32], 1:13 dollar, 1:14 run [32], \
             1:15 dollar, 1:16 part b, 1:18 part _1, 1:21 run [46], 1:22 close, 1:23 end, ",
        ),
        (
            "\"$thisx$1\"",
            "1:1 open, 1:2 part thisx, 1:8 dollar, 1:9 run [49], 1:10 close, 1:11 end, ",
        ),
        (
            "\"a${b}c\"",
            "1:1 open, 1:2 run [97], 1:3 template, 1:5 name b, 1:6 CloseBrace, 1:7 run [99], 1:8 close, 1:9 end, ",
        ),
        (
            "\"${\"${1}x\"}\"y",
            "1:1 open, 1:2 template, 1:4 open, 1:5 template, 1:7 number Some(1) false, 1:8 CloseBrace, \
             1:9 run [120], 1:10 close, 1:11 CloseBrace, 1:12 close, 1:13 name y, 1:14 end, ",
        ),
        (
            "(\"${\n(\n}\n)}\"\n)",
            "1:1 OpenParenthesis, 1:2 open, 1:3 template, 1:5 line, 2:1 OpenParenthesis, 3:1 CloseBrace, \
             4:1 CloseParenthesis, 4:2 CloseBrace, 4:3 close, 5:1 CloseParenthesis, 5:2 end, ",
        ),
        (
            "\"\u{1F600}\"x",
            "1:1 open, 1:2 run [55357, 56832], 1:3 close, 1:4 name x, 1:5 end, ",
        ),
        (
            "/*\u{1F600}*/x\"${",
            "1:6 name x, 1:7 open, 1:8 template, 1:10 end, ",
        ),
    ]
}

#[test]
fn tokens_of_texts(rt: HostRuntime) -> Result<(), Fail> {
    for (text, listing) in tokens() {
        assert_eq!(rt;
            told(rt.alloc(), lex_bytes(rt.alloc(), text.as_bytes()))?.as_str(),
            listing,
            "of {text}"
        );
    }
    Ok(())
}

#[test]
fn tokens_of_a_text(rt: HostRuntime) -> Result<(), Fail> {
    let outcome = lex(rt.alloc(), "a\r\n");
    assert_eq!(rt;
        told(rt.alloc(), outcome)?.as_str(),
        "1:1 name a, 1:2 line, 2:1 end, "
    );
    Ok(())
}

/// Texts without tokens.
fn refusals() -> [(&'static str, &'static str); 35] {
    [
        ("fun main() { # }", "1:14: Lex"),
        ("\u{1F600}", "1:1: Lex"),
        ("a \u{1F600}", "1:3: Lex"),
        ("a\rb", "1:2: Lex"),
        ("a\r", "1:2: Lex"),
        ("a\r\r\n", "1:2: Lex"),
        ("a & b", "1:3: Lex"),
        ("a | b", "1:3: Lex"),
        ("\\", "1:1: Lex"),
        ("a\n $b", "2:2: Lex"),
        ("/*", "1:1: Lex"),
        ("1 /* /* */ ", "1:3: Lex"),
        ("/*/", "1:1: Lex"),
        ("''", "1:1: Lex"),
        ("'", "1:1: Lex"),
        (" 'ab'", "1:2: Lex"),
        ("'\n'", "1:1: Lex"),
        ("'\r'", "1:1: Lex"),
        ("'\\'", "1:1: Lex"),
        ("'\\q'", "1:1: Lex"),
        ("'\\u00g0'", "1:1: Lex"),
        ("'\\u004'", "1:1: Lex"),
        ("'\\u00411'", "1:1: Lex"),
        ("'\u{1F600}'", "1:1: Lex"),
        ("'''", "1:1: Lex"),
        ("\"", "1:2: Lex"),
        ("\"abc", "1:5: Lex"),
        ("\"abc\n\"", "1:5: Lex"),
        ("\"abc\r\n\"", "1:5: Lex"),
        ("\"a\\q\"", "1:3: Lex"),
        ("\"a\\u12\"", "1:3: Lex"),
        ("\"${}", "1:5: Lex"),
        ("\"${\"", "1:5: Lex"),
        ("\"${'}", "1:4: Lex"),
        ("\"${\n{}\n}\n", "3:2: Lex"),
    ]
}

#[test]
fn places_of_refusals(rt: HostRuntime) -> Result<(), Fail> {
    for (text, place) in refusals() {
        assert_eq!(rt;
            told(rt.alloc(), lex_bytes(rt.alloc(), text.as_bytes()))?.as_str(),
            place,
            "of {text}"
        );
    }
    Ok(())
}

/// Sources, which are bytes.
fn sources() -> [(&'static [u8], &'static str); 7] {
    [
        (b"a", "1:1 name a, 1:2 end, "),
        (b"a\xFF", "1:2: Lex"),
        (b"\xC3", "1:1: Lex"),
        (b"a\n\xC3\xA9\xC3", "2:1: Lex"),
        (b"/*\xC3\xA9*/\n\"\xC3\xA9\xFF\"", "2:3: Lex"),
        (b"//\xC3\xA9\xFF", "1:4: Lex"),
        (b"# \xFF", "1:1: Lex"),
    ]
}

#[test]
fn tokens_of_sources(rt: HostRuntime) -> Result<(), Fail> {
    for (source, listing) in sources() {
        assert_eq!(rt;
            told(rt.alloc(), lex_bytes(rt.alloc(), source))?.as_str(),
            listing,
            "of {source:?}"
        );
    }
    Ok(())
}

/// So many times the same characters.
fn repeated(alloc: Global, part: &str, times: u32) -> Result<Vec<u8>, AllocError> {
    let mut text = Vec::new(alloc);
    for _ in 0..times {
        text.extend_from_slice(part.as_bytes())?;
    }
    Ok(text)
}

/// How many tokens there are and where the last one stands, or why there are none.
fn counted(alloc: Global, outcome: Result<Vec<Token>, FrontErr>) -> Result<String, AllocError> {
    match outcome {
        Ok(tokens) => {
            let count = tokens.len();
            match tokens.last() {
                Some(token) => {
                    let pos = token.pos;
                    format!(in alloc; "{count} up to {pos}")
                }
                None => format!(in alloc; "none"),
            }
        }
        Err(error) => format!(in alloc; "{error}"),
    }
}

/// Long texts: nothing goes deep.
fn long_texts() -> [(&'static str, u32, &'static str); 5] {
    [
        ("(", 1_048_576, "1048577 up to 1:1048577"),
        ("\"${", 349_525, "699051 up to 1:1048576"),
        ("/*", 524_288, "1:1: Lex"),
        ("a", 1_048_576, "2 up to 1:1048577"),
        ("(", 1_048_577, "1:1: Size"),
    ]
}

#[test]
fn long_sources(rt: HostRuntime) -> Result<(), Fail> {
    for (part, times, told) in long_texts() {
        let text = repeated(rt.alloc(), part, times)?;
        assert_eq!(rt;
            counted(rt.alloc(), lex_bytes(rt.alloc(), &text))?.as_str(),
            told,
            "of {part}"
        );
    }
    Ok(())
}
