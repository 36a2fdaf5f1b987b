//! Stack map frames and their bytes, against the tables of JVMS SE 8 §4.7.4.
//!
//! Types are written by letters: `T` top, `I` an `int`, `J` a `long`, `N` null, `U` the uninitialized `this`, `A` and
//! `B` objects of classes of that name, and `@5` an object that the *new* at 5 made. A frame is its offset, its locals,
//! `/` and its stack.

ghost use Rattle.jvm_class_types.specs.Seen.{frame_seen};
ghost use Rattle.jvm_frames.specs.Putting.{frames_of};
ghost use Rattle.std.specs.Prelude.{◌≡◌, map, IfOk};

use jvm_class_types::{Code, Frame, FrameType, Method, MethodFlags};
use jvm_frames::{FrameErr, expand, put_frames};
use jvm_pool::{Entry, Pool};
use kt_base::{Name, NoMemory};
use std::alloc::Global;
use std::test::Fail;

/// A name of one letter.
fn name(alloc: Global, letter: u8) -> Result<Name, NoMemory> {
    Name::of(alloc, if letter == b'A' { b"A" } else { b"B" })
}

/// The pool in which `A` is the class at 1 and `B` that at 3.
fn pool_of_two(alloc: Global) -> Result<Pool, Fail> {
    let mut pool = Pool::new(alloc);
    pool.add(&Entry::Class(name(alloc, b'A')?))?;
    pool.add(&Entry::Class(name(alloc, b'B')?))?;
    Ok(pool)
}

/// The type that a letter stands for.
fn type_of(alloc: Global, letter: u8) -> Result<FrameType, NoMemory> {
    Ok(match letter {
        b'T' => FrameType::Top,
        b'I' => FrameType::Integer,
        b'J' => FrameType::Long,
        b'N' => FrameType::Null,
        b'U' => FrameType::UninitializedThis,
        _ => FrameType::Object(name(alloc, letter)?),
    })
}

/// The frame at the start of a method, with these locals.
fn start_of(alloc: Global, letters: &[u8]) -> Result<Frame, Fail> {
    let mut locals = Vec::new(alloc);
    for letter in letters {
        locals.push(type_of(alloc, *letter)?)?;
    }
    Ok(Frame {
        offset: 0,
        locals,
        stack: Vec::new(alloc),
    })
}

/// Types by their letters.
fn letters(alloc: Global, types: &[FrameType]) -> Result<String, Fail> {
    let mut text = String::new(alloc);
    for frame_type in types {
        let more = match frame_type {
            FrameType::Top => format!(in alloc; "T")?,
            FrameType::Integer => format!(in alloc; "I")?,
            FrameType::Long => format!(in alloc; "J")?,
            FrameType::Null => format!(in alloc; "N")?,
            FrameType::UninitializedThis => format!(in alloc; "U")?,
            FrameType::Object(class) => {
                format!(in alloc;
                    "{}",
                    if class.as_bytes() == b"A".as_slice() {
                        "A"
                    } else {
                        "B"
                    }
                )?
            }
            FrameType::Uninitialized(at) => format!(in alloc; "@{at}")?,
        };
        text.push_str(&more)?;
    }
    Ok(text)
}

/// Frames by the letters of their types.
fn shown(alloc: Global, frames: &[Frame]) -> Result<String, Fail> {
    let mut text = String::new(alloc);
    for frame in frames {
        let locals = letters(alloc, &frame.locals)?;
        let stack = letters(alloc, &frame.stack)?;
        text.push_str(&format!(in alloc; "{} {locals}/{stack};", frame.offset)?)?;
    }
    Ok(text)
}

/// A method that has these frames.
fn method_of(alloc: Global, frames: Vec<Frame>) -> Result<Method, NoMemory>
    ensures { IfOk result (λ m. frames_of m ≡ map frame_seen frames.items) }
{
    Ok(Method {
        flags: MethodFlags::Static,
        name: name(alloc, b'A')?,
        descriptor: name(alloc, b'A')?,
        code: Some(Code {
            max_stack: 0,
            max_locals: 0,
            instructions: Vec::new(alloc),
            handlers: Vec::new(alloc),
            frames,
        }),
    })
}

/// Frames of each form, by the locals at the start of the method.
fn frames() -> [(&'static [u8], &'static [u8], &'static str); 20] {
    [
        (b"", b"", ""),
        (b"I", b"\x00", "0 I/;"),
        (b"AB", b"\x3F", "63 AB/;"),
        (b"I", b"\xFB\x00\x40", "64 I/;"),
        (b"I", b"\xFB\xFF\xFF", "65535 I/;"),
        (b"U", b"\x40\x01", "0 U/I;"),
        (b"", b"\x7F\x07\x00\x01", "63 /A;"),
        (b"J", b"\xF7\x00\x40\x05", "64 J/N;"),
        (b"IJA", b"\xFA\x00\x05", "5 IJ/;"),
        (b"IJA", b"\xF9\x00\x05", "5 I/;"),
        (b"IJA", b"\xF8\x00\x00", "0 /;"),
        (b"I", b"\xFC\x00\x09\x04", "9 IJ/;"),
        (b"", b"\xFD\x01\x00\x08\x01\x02\x06", "256 @258U/;"),
        (b"J", b"\xFE\x00\x00\x00\x05\x07\x00\x03", "0 JTNB/;"),
        (b"I", b"\xFF\x00\x01\x00\x01\x04\x00\x00", "1 J/;"),
        (b"", b"\xFF\x00\x00\x00\x00\x00\x02\x01\x04", "0 /IJ;"),
        (b"IIIII", b"\xFF\x00\x02\x00\x01\x01\x00\x00", "2 I/;"),
        (
            b"",
            b"\xFF\x00\x02\x00\x04\x01\x01\x01\x01\x00\x00",
            "2 IIII/;",
        ),
        // against the frame before, each a distance less one behind it
        (
            b"I",
            b"\x03\xFC\x00\x00\x07\x00\x01\x40\x07\x00\x03\xFA\x00\x00",
            "3 I/;4 IA/;5 IA/B;6 I/;",
        ),
        (b"I", b"\xFA\x00\x07\x00", "7 /;8 /;"),
    ]
}

/// Bytes that are no frames: refused at the first that breaks its rule, else where they end.
fn no_frames() -> [(&'static [u8], &'static [u8], u64); 28] {
    [
        // tags that are none
        (b"", b"\x80", 0),
        (b"", b"\xF6\x00\x00\x00", 0),
        (b"", b"\x00\x80\x00", 1),
        // a delta that fits the tag stands behind it
        (b"", b"\xFB\x00\x3F", 0),
        (b"I", b"\xF7\x00\x3F\x01", 0),
        // more locals chopped than there are
        (b"I", b"\xF9\x00\x00", 0),
        (b"", b"\xFA\x00\x00", 0),
        // all types where another form fits: the same, one more on the stack, chopped, appended
        (b"I", b"\xFF\x00\x00\x00\x01\x01\x00\x00", 0),
        (b"I", b"\xFF\x00\x00\x00\x01\x01\x00\x01\x01", 0),
        (b"IJ", b"\xFF\x00\x00\x00\x01\x01\x00\x00", 0),
        (b"IJNA", b"\xFF\x00\x00\x00\x01\x01\x00\x00", 0),
        (b"I", b"\xFF\x00\x00\x00\x02\x01\x01\x00\x00", 0),
        (b"I", b"\x01\xFF\x00\x00\x00\x04\x01\x01\x01\x01\x00\x00", 1),
        // types that are none, of float, double and no kind
        (b"", b"\x40\x02", 0),
        (b"", b"\x40\x03", 0),
        (b"", b"\x40\x09\x00\x00", 0),
        // an index of a text, of nothing, of 0
        (b"", b"\x40\x07\x00\x02", 0),
        (b"", b"\x40\x07\x00\x05", 0),
        (b"", b"\x40\x07\x00\x00", 0),
        (b"", b"\x00\x01\x40\x07\x00\x04", 2),
        // frames that the end cuts
        (b"", b"\x40", 1),
        (b"", b"\xFB\x00", 2),
        (b"", b"\xFB", 1),
        (b"", b"\x40\x07\x00", 3),
        (b"", b"\x40\x08\x00", 3),
        (b"", b"\xFE\x00\x00\x01\x01", 5),
        (b"", b"\xFF\x00\x00\x00\x02\x01", 6),
        (b"", b"\xFF\x00\x00\x00\x00\x00\x01", 7),
    ]
}

#[test]
fn frames_and_their_bytes(rt: HostRuntime) -> Result<(), Fail> {
    let alloc = rt.alloc();
    for (letters, bytes, want) in frames() {
        let mut pool = pool_of_two(alloc)?;
        let start = start_of(alloc, letters)?;
        let frames = expand(alloc, bytes, &start, &pool)?;
        assert_eq!(rt; shown(alloc, &frames)?.as_str(), want, "of {bytes:?}");
        let mut again = Vec::new(alloc);
        let method = method_of(alloc, frames)?;
        put_frames(&method, &start, &mut pool, &mut again)?;
        assert_eq!(rt; again.as_slice(), bytes);
    }
    Ok(())
}

#[test]
fn bytes_that_are_no_frames(rt: HostRuntime) -> Result<(), Fail> {
    let alloc = rt.alloc();
    let pool = pool_of_two(alloc)?;
    for (letters, bytes, want) in no_frames() {
        let start = start_of(alloc, letters)?;
        let offset = match expand(alloc, bytes, &start, &pool) {
            Err(FrameErr::Bad { offset }) => Some(offset),
            _ => None,
        };
        assert_eq!(rt; offset, Some(want), "of {bytes:?}");
    }
    Ok(())
}
