//! Texts with the code that they have, texts that have none, and the limits.

use kt_first::parse_first;
use std::alloc::{AllocError, Global};
use std::test::Fail;

/// The code of a text, or why it has none.
fn told(alloc: Global, text: &[u8]) -> Result<String, AllocError> {
    match parse_first(alloc, text) {
        Ok(code) => format!(in alloc; "{code:?}"),
        Err(error) => format!(in alloc; "{error:?}"),
    }
}

/// A program that prints `inner`, with so many times `open` before it and `close` behind it.
fn nested(
    alloc: Global,
    open: &str,
    inner: &str,
    close: &str,
    times: u32,
) -> Result<Vec<u8>, AllocError> {
    let mut text = Vec::new(alloc);
    text.extend_from_slice(b"fun main(){println(")?;
    for _ in 0..times {
        text.extend_from_slice(open.as_bytes())?;
    }
    text.extend_from_slice(inner.as_bytes())?;
    for _ in 0..times {
        text.extend_from_slice(close.as_bytes())?;
    }
    text.extend_from_slice(b")}")?;
    Ok(text)
}

/// Worked out by hand. No code is folded, so a sum that wraps stays a sum.
fn expressions() -> [(&'static str, &'static str); 19] {
    [
        ("1", "[Push(1), Print]"),
        ("0", "[Push(0), Print]"),
        ("2147483647", "[Push(2147483647), Print]"),
        ("((7))", "[Push(7), Print]"),
        ("2 + 3 * 4", "[Push(2), Push(3), Push(4), Mul, Add, Print]"),
        ("2 * 3 + 4", "[Push(2), Push(3), Mul, Push(4), Add, Print]"),
        (
            "10 - 4 - 3",
            "[Push(10), Push(4), Sub, Push(3), Sub, Print]",
        ),
        (
            "10 - (4 - 3)",
            "[Push(10), Push(4), Push(3), Sub, Sub, Print]",
        ),
        ("2 * 3 * 4", "[Push(2), Push(3), Mul, Push(4), Mul, Print]"),
        (
            "8 - 2 * 3 + 1",
            "[Push(8), Push(2), Push(3), Mul, Sub, Push(1), Add, Print]",
        ),
        (
            "(1 + 2) * (3 - 4)",
            "[Push(1), Push(2), Add, Push(3), Push(4), Sub, Mul, Print]",
        ),
        ("2147483647 + 1", "[Push(2147483647), Push(1), Add, Print]"),
        ("65536 * 65536", "[Push(65536), Push(65536), Mul, Print]"),
        ("1+2\t-\t3", "[Push(1), Push(2), Add, Push(3), Sub, Print]"),
        ("1 +\n2\r\n", "[Push(1), Push(2), Add, Print]"),
        ("1\n+ 2", "[Push(1), Push(2), Add, Print]"),
        (
            "1 /* a /* b */ c */ + 2 // d\n",
            "[Push(1), Push(2), Add, Print]",
        ),
        ("1/**/+/***/2", "[Push(1), Push(2), Add, Print]"),
        ("1 // /*\n+ 2", "[Push(1), Push(2), Add, Print]"),
    ]
}

#[test]
fn code_of_expressions(rt: HostRuntime) -> Result<(), Fail> {
    for (expression, code) in expressions() {
        let text = nested(rt.alloc(), "", expression, "", 0)?;
        assert_eq!(rt; told(rt.alloc(), &text)?.as_str(), code, "of {expression}");
    }
    Ok(())
}

fn no_expressions() -> [&'static str; 34] {
    [
        "",
        "2147483648",
        "99999999999999999999",
        "1L",
        "1 + 2L",
        "01",
        "00",
        "1 + 01",
        "-1",
        "+1",
        "1 - -1",
        "1++1",
        "1--1",
        "1 +",
        "* 1",
        "1 * * 1",
        "1 2",
        "(1",
        "1)",
        "()",
        "1, 2",
        "1 / 2",
        "1 % 2",
        "x",
        "1.0",
        "0x1",
        "1_000",
        "1; 2",
        "1 /* a",
        "1 /* a /* b */",
        "1 */",
        "1 // a",
        "1\r",
        "1 \r+ 2",
    ]
}

#[test]
fn texts_that_are_no_expression(rt: HostRuntime) -> Result<(), Fail> {
    for expression in no_expressions() {
        let text = nested(rt.alloc(), "", expression, "", 0)?;
        assert_eq!(rt;
            told(rt.alloc(), &text)?.as_str(),
            "NotBuilt",
            "at {expression}"
        );
    }
    Ok(())
}

fn programs() -> [(&'static str, &'static str); 14] {
    [
        ("fun main() {}", "[]"),
        ("fun main(){}", "[]"),
        ("fun main() {\n}\n", "[]"),
        ("fun main() {;;\n;}", "[]"),
        ("fun main() {} ; \n;", "[]"),
        ("fun main() {} // end", "[]"),
        ("/* start */ fun/**/main() {/* é */}", "[]"),
        (
            "fun main() { println(1); println(2) }",
            "[Push(1), Print, Push(2), Print]",
        ),
        (
            "fun main() {\n    println(1)\n    println(2)\n}\n",
            "[Push(1), Print, Push(2), Print]",
        ),
        (
            "fun main() {\r\n\tprintln(1)\r\n\tprintln(2)\r\n}\r\n",
            "[Push(1), Print, Push(2), Print]",
        ),
        (
            "fun main() {\n;\n\nprintln(1) ; ;\n println(2);\n}\n\n;",
            "[Push(1), Print, Push(2), Print]",
        ),
        (
            "fun\tmain\t(\t)\t{\tprintln\t(\t1\t)\t;println(2)}",
            "[Push(1), Print, Push(2), Print]",
        ),
        (
            "fun main(\n) { println(\n1\n)\n println(2) }",
            "[Push(1), Print, Push(2), Print]",
        ),
        (
            "fun main() { println(1) // a\n println(2) /*\n*/ }",
            "[Push(1), Print, Push(2), Print]",
        ),
    ]
}

#[test]
fn code_of_programs(rt: HostRuntime) -> Result<(), Fail> {
    for (text, code) in programs() {
        assert_eq!(rt;
            told(rt.alloc(), text.as_bytes())?.as_str(),
            code,
            "of {text}"
        );
    }
    Ok(())
}

fn no_programs() -> [&'static str; 46] {
    [
        "",
        " ",
        "\n",
        "\nfun main() {}",
        ";fun main() {}",
        "fun main()\n{}",
        "suspend fun main() {}",
        "fun <T> main() {}",
        "fun main(): Unit {}",
        "fun main(): Int = 1",
        "class main",
        "fun main() { println<Int>(1) }",
        "fun main() { println(1) { } }",
        "fun main() { (println)(1) }",
        "fun main() { x.println(1) }",
        "fun",
        "fun main()",
        "fun main() {",
        "fun main() }",
        "fun main() {}}",
        "fun main {}",
        "main() {}",
        "funmain() {}",
        "fun mainx() {}",
        "fun main1() {}",
        "fun Main() {}",
        "fun main(args) {}",
        "fun main() {} fun main() {}",
        "fun main() { println() }",
        "fun main() { println }",
        "fun main() { println(1 }",
        "fun main() { println 1 }",
        "fun main() { println1(2) }",
        "fun main() { println_(2) }",
        "fun main() { print(1) }",
        "fun main() { 1 }",
        "fun main() { println(1) println(2) }",
        "fun main() { println(1)println(2) }",
        "fun main() { println(1) /*\n*/ println(2) }",
        "fun main() { println(1) \r println(2) }",
        "fun main() {} println(1)",
        "fun main() { println(1) // }",
        "fun main() {} /*",
        "fun main() {} /* /* */",
        "fun main() {} */",
        "fun main() {} /",
    ]
}

#[test]
fn texts_that_are_no_program(rt: HostRuntime) -> Result<(), Fail> {
    for text in no_programs() {
        assert_eq!(rt;
            told(rt.alloc(), text.as_bytes())?.as_str(),
            "NotBuilt",
            "at {text}"
        );
    }
    Ok(())
}

/// The last is UTF-8, but begins with a byte order mark.
fn no_texts() -> [&'static [u8]; 5] {
    [
        b"\xFF",
        b"fun main() {} // \xFF",
        b"fun main() {} /* \xC3 */",
        b"fun main() {} // \xED\xA0\x80",
        b"\xEF\xBB\xBFfun main() {}",
    ]
}

#[test]
fn bytes_that_are_no_text(rt: HostRuntime) -> Result<(), Fail> {
    for bytes in no_texts() {
        assert_eq!(rt;
            told(rt.alloc(), bytes)?.as_str(),
            "NotBuilt",
            "at {bytes:?}"
        );
    }
    Ok(())
}

/// What is nested, how often at most, and how many steps its code then has.
fn nestings() -> [(&'static str, &'static str, &'static str, u32, usize); 6] {
    [
        ("(", "1", ")", 100, 2),
        ("(", "1-1", ")", 99, 4),
        ("1+", "1", "", 100, 202),
        ("", "1", "*1", 100, 202),
        ("1+(", "1", ")", 50, 102),
        ("(", "1", ")*1", 50, 102),
    ]
}

#[test]
fn an_expression_has_100_levels_at_most(rt: HostRuntime) -> Result<(), Fail> {
    for (open, inner, close, most, steps) in nestings() {
        let deepest = nested(rt.alloc(), open, inner, close, most)?;
        assert_eq!(rt;
            parse_first(rt.alloc(), &deepest)?.len(),
            steps,
            "of {open}{inner}{close}"
        );
        let deeper = nested(rt.alloc(), open, inner, close, most.saturating_add(1))?;
        assert_eq!(rt;
            told(rt.alloc(), &deeper)?.as_str(),
            "NotBuilt",
            "of {open}{inner}{close}"
        );
    }
    Ok(())
}

/// A program of 22 bytes, and spaces behind it up to this length.
fn padded(alloc: Global, length: usize) -> Result<Vec<u8>, AllocError> {
    let mut text = nested(alloc, "", "7", "", 0)?;
    for _ in 22..length {
        text.push(b' ')?;
    }
    Ok(text)
}

#[test]
fn a_text_has_512_bytes_at_most(rt: HostRuntime) -> Result<(), Fail> {
    for (length, want) in [(512, "[Push(7), Print]"), (513, "NotBuilt")] {
        let text = padded(rt.alloc(), length)?;
        assert_eq!(rt; text.len(), length);
        assert_eq!(rt; told(rt.alloc(), &text)?.as_str(), want);
    }
    Ok(())
}
