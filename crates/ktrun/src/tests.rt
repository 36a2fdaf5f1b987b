//! Commands with what they write, as tables.

use crate::plain::{Outcome, plain_main};
use kt_outside::{MemFiles, MemSink};
use std::alloc::Global;
use std::process::Abort;
use std::test::Fail;

/// Sources with what they print.
fn sources() -> [(&'static str, &'static str); 22] {
    [
        ("fun main() { println(2 + 3 * 4) }", "14\n"),
        ("fun main() { println((2 + 3) * 4) }", "20\n"),
        ("fun main() { println(10 - 4 - 3) }", "3\n"),
        ("fun main() { println(10 - (4 - 3)) }", "9\n"),
        ("fun main() { println(2 * 3 * 4 - 5) }", "19\n"),
        ("fun main() { println(0) }", "0\n"),
        ("fun main() { println(0 - 1) }", "-1\n"),
        ("fun main() { println(2147483647) }", "2147483647\n"),
        ("fun main() { println(2147483647 + 1) }", "-2147483648\n"),
        ("fun main() { println(0 - 2147483647 - 2) }", "2147483647\n"),
        ("fun main() { println(65536 * 65536) }", "0\n"),
        ("fun main() { println(65536 * 32768) }", "-2147483648\n"),
        ("fun main() { println(2147483647 * 2147483647) }", "1\n"),
        ("fun main() { println(46341 * 46341) }", "-2147479015\n"),
        ("fun main() {}", ""),
        ("fun main() { println(1); println(2) }", "1\n2\n"),
        (
            "fun main() {\n    println(1)\n    println(2)\n}\n",
            "1\n2\n",
        ),
        (
            "fun main() {\r\n\tprintln(1)\r\n\tprintln(2)\r\n}\r\n",
            "1\n2\n",
        ),
        ("fun main() { ; println(1);;\n;println(2); }\n;", "1\n2\n"),
        (
            "fun main() { println(1 // one\n + 2 /* two /* and */ more */ ) }",
            "3\n",
        ),
        ("fun main() { println(1\n+\n2) }", "3\n"),
        ("fun\tmain()/**/{println(7)}// end", "7\n"),
    ]
}

/// Texts of the language that aren't of what is built of it today.
fn foreign() -> [&'static str; 9] {
    [
        "",
        "\nfun main() {}",
        "fun main()\n{}",
        "fun main() { println(2147483648) }",
        "fun main() { println(1L) }",
        "fun main() { println() }",
        "fun main() { println(-1) }",
        "fun main() { val x = 1 }",
        "fun main() { println(\"text\") }",
    ]
}

/// Texts that are refused, with the line that tells it.
fn refused() -> [(&'static str, &'static str); 9] {
    [
        ("fun main() { println(1 + ) }", "1:26: Syntax\n"),
        ("fun main() { println(1) println(2) }", "1:25: Syntax\n"),
        ("fun main() { println(1)", "1:24: Syntax\n"),
        (
            "fun main() {\n    println(1)\n    println(2}\n}\n",
            "3:14: Syntax\n",
        ),
        ("println(1)", "1:1: Syntax\n"),
        ("fun main() { # }", "1:14: Lex\n"),
        ("fun main() { println(1) /* }", "1:25: Lex\n"),
        ("fun main() { println(1) # println( }", "1:25: Lex\n"),
        ("fun main() { println(01) }", "1:23: Syntax\n"),
    ]
}

/// Words, apart by spaces, that ask for nothing.
fn no_commands() -> [&'static str; 12] {
    [
        "run",
        "walk p.kt",
        "run -p",
        "run -",
        "run p.kt q.kt",
        "run p.kt --workers",
        "run p.kt --workers 2",
        "run p.kt --workers 65",
        "run p.kt --turns 1 --turns 2",
        "run p.kt --workers=1",
        "run --workers 1 p.kt",
        "p.kt",
    ]
}

/// How a command is set up: the source of `p.kt`, and the calls that fail.
#[derive(Clone, Copy)]
struct Setting {
    source: &'static str,
    bad_read: u32,
    bad_write: u32,
    bad_line: u32,
    most: u32,
}

/// What a command left.
#[derive(Drop)]
struct Left {
    outcome: Outcome,
    out: MemSink,
    err: MemSink,
}

fn plain(source: &'static str) -> Setting {
    Setting {
        source,
        bad_read: 0,
        bad_write: 0,
        bad_line: 0,
        most: 1000,
    }
}

/// Does what the words ask for.
fn done(alloc: Global, words: &str, setting: Setting) -> Result<Left, Fail> {
    if setting.most == 0 {
        return Err(Fail::from("a stream that takes nothing"));
    }
    let mut list = Vec::new(alloc);
    for word in words.split(' ') {
        list.push(word.to_string(alloc)?)?;
    }
    let name = "p.kt".to_string(alloc)?;
    let source = Vec::from_slice(alloc, setting.source.as_bytes())?;
    let mut files = MemFiles::of(
        alloc,
        vec![in alloc; (name, source)]?,
        vec![in alloc; setting.bad_read]?,
        Vec::new(alloc),
    );
    let mut out = MemSink::of(alloc, vec![in alloc; setting.bad_write]?, setting.most);
    let mut err = MemSink::of(alloc, vec![in alloc; setting.bad_line]?, 1000);
    let outcome = plain_main(alloc, list.as_slice(), &mut files, &mut out, &mut err);
    Ok(Left { outcome, out, err })
}

fn wrote(rt: &impl Abort, left: &Left, status: u8, out: &str, err: &str) {
    assert_eq!(rt; left.outcome.status, status);
    assert_eq!(rt; left.out.taken.as_slice(), out.as_bytes());
    assert_eq!(rt; left.err.taken.as_slice(), err.as_bytes());
}

#[test]
fn programs_print(rt: HostRuntime) -> Result<(), Fail> {
    for (source, text) in sources() {
        wrote(
            &rt,
            &done(rt.alloc(), "run p.kt", plain(source))?,
            0,
            text,
            "",
        );
        wrote(
            &rt,
            &done(rt.alloc(), "run p.kt --workers 1", plain(source))?,
            0,
            text,
            "",
        );
    }
    Ok(())
}

#[test]
fn other_texts_are_not_built(rt: HostRuntime) -> Result<(), Fail> {
    for source in foreign() {
        wrote(
            &rt,
            &done(rt.alloc(), "run p.kt", plain(source))?,
            11,
            "",
            "ktrun: not built yet\n",
        );
    }
    Ok(())
}

#[test]
fn texts_are_refused_at_their_place(rt: HostRuntime) -> Result<(), Fail> {
    for (source, line) in refused() {
        wrote(
            &rt,
            &done(rt.alloc(), "run p.kt", plain(source))?,
            1,
            "",
            line,
        );
    }
    Ok(())
}

#[test]
fn other_words_are_refused(rt: HostRuntime) -> Result<(), Fail> {
    for words in no_commands() {
        wrote(
            &rt,
            &done(rt.alloc(), words, plain("fun main() {}"))?,
            2,
            "",
            "ktrun: usage\n",
        );
    }
    Ok(())
}

#[test]
fn each_print_is_a_choice(rt: HostRuntime) -> Result<(), Fail> {
    let three = "fun main() { println(1); println(2); println(3) }";
    let ran = done(rt.alloc(), "run p.kt", plain(three))?;
    assert_eq!(rt; ran.outcome.choices.as_slice(), [0, 0, 0].as_slice());
    let empty = done(rt.alloc(), "run p.kt", plain(""))?;
    assert!(rt; empty.outcome.choices.is_empty());
    Ok(())
}

#[test]
fn faults_have_their_status(rt: HostRuntime) -> Result<(), Fail> {
    let source = "fun main() { println(12345) }";
    let alloc = rt.alloc();
    let unread = done(
        alloc,
        "run p.kt",
        Setting {
            bad_read: 1,
            ..plain(source)
        },
    )?;
    wrote(&rt, &unread, 7, "", "ktrun: cannot read p.kt\n");
    let absent = done(alloc, "run q.kt", plain(source))?;
    wrote(&rt, &absent, 7, "", "ktrun: cannot read q.kt\n");
    let unwritten = done(
        alloc,
        "run p.kt",
        Setting {
            bad_write: 1,
            ..plain(source)
        },
    )?;
    wrote(&rt, &unwritten, 8, "", "ktrun: cannot write\n");
    let front = done(
        alloc,
        "run p.kt",
        Setting {
            bad_write: 2,
            most: 3,
            ..plain(source)
        },
    )?;
    wrote(&rt, &front, 8, "123", "ktrun: cannot write\n");
    assert_eq!(rt; front.outcome.choices.as_slice(), [0].as_slice());
    let silent = done(
        alloc,
        "walk p.kt",
        Setting {
            bad_line: 1,
            ..plain(source)
        },
    )?;
    wrote(&rt, &silent, 2, "", "");
    Ok(())
}
