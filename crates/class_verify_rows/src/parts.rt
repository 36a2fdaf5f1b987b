//! What a line of the table is written of: parts between strokes, numbers, bytes, lists of kinds.

use class_linked::{Kind, LinkedFrame, LinkedHandler, ValueKind};
use kt_base::NoMemory;
use sqlite_items::Items;
use std::alloc::{AllocError, Global};

/// The part of a line with this number, without the spaces around it; empty where there is none.
pub fn part(line: &str, number: usize) -> &str {
    match line.split('|').nth(number) {
        None => "",
        Some(part) => part.trim(),
    }
}

/// The word of a part with this number; empty where there is none.
pub fn word(part: &str, number: usize) -> &str {
    match part.split(' ').nth(number) {
        None => "",
        Some(word) => word,
    }
}

/// A number of two bytes, the greatest one where the text is none.
pub fn short(text: &str) -> u16 {
    match text.parse::<u16>() {
        Ok(number) => number,
        Err(_) => u16::MAX,
    }
}

/// The number of a class, one that no class has where the text is none.
pub fn class_number(text: &str) -> usize {
    short(text) as usize
}

/// The bytes that hexadecimal digits, two by two, stand for.
pub fn bytes_of(alloc: Global, hex: &str) -> Result<Vec<u8>, AllocError> {
    let mut bytes = Vec::new(alloc);
    let mut high = None;
    for digit in hex.as_bytes() {
        let value = match *digit {
            b'0'..=b'9' => *digit - b'0',
            b'a'..=b'f' => *digit - b'a' + 10,
            _ => continue,
        };
        match high {
            None => high = Some(value),
            Some(first) => {
                bytes.push((first as u8 % 16) * 16 + value)?;
                high = None;
            }
        }
    }
    Ok(bytes)
}

/// The class of a letter.
fn class_of(letter: u8) -> usize {
    match letter {
        b'W' => 1,
        b'X' => 6,
        b'Y' => 12,
        b'S' => 9,
        b'K' => 25,
        b'A' => 34,
        b'B' => 35,
        b'M' => 36,
        b'F' => 38,
        b'P' => 39,
        _ => 0,
    }
}

/// The kind of a parameter or a result.
pub fn value_kind(letter: u8) -> ValueKind {
    match letter {
        b'I' => ValueKind::Int,
        b'J' => ValueKind::Long,
        b'Z' => ValueKind::Bool,
        b'C' => ValueKind::Char,
        _ => ValueKind::Object(class_of(letter)),
    }
}

pub fn value_kinds(alloc: Global, letters: &[u8]) -> Result<Items<ValueKind>, NoMemory> {
    let mut made = Items::new(alloc);
    for letter in letters {
        made.push(value_kind(*letter))?;
    }
    Ok(made)
}

fn kind(letter: u8) -> Kind {
    match letter {
        b'I' => Kind::Int,
        b'J' => Kind::Long,
        b'T' => Kind::Top,
        b'N' => Kind::Null,
        b'U' => Kind::FreshThis,
        _ => Kind::Object(class_of(letter)),
    }
}

/// The kinds of a frame: a letter each, and the offset of a *new*, with a point behind it, for what that made.
fn kinds(alloc: Global, letters: &str) -> Result<Items<Kind>, NoMemory> {
    let mut made = Items::new(alloc);
    let mut offset = 0u32;
    for letter in letters.as_bytes() {
        match *letter {
            b'0'..=b'9' => offset = offset
                .wrapping_mul(10)
                .wrapping_add((*letter - b'0') as u32),
            b'.' => {
                made.push(Kind::Fresh(offset))?;
                offset = 0;
            }
            _ => made.push(kind(*letter))?,
        }
    }
    Ok(made)
}

/// What stands before a sign and what behind it; all and nothing where it isn't there.
fn parted(text: &str, sign: char) -> (&str, &str) {
    match text.split_once(sign) {
        None => (text, ""),
        Some(parts) => parts,
    }
}

/// A frame: its offset, `:`, its local variables, `/`, its operands with the top first.
fn frame_of(alloc: Global, text: &str) -> Result<LinkedFrame, NoMemory> {
    let (offset, given) = parted(text, ':');
    let (locals, stack) = parted(given, '/');
    let locals = kinds(alloc, locals)?;
    let stack = kinds(alloc, stack)?;
    Ok(LinkedFrame {
        offset: short(offset) as u32,
        locals,
        stack,
    })
}

/// Frames with spaces between them.
pub fn frames_of(alloc: Global, text: &str) -> Result<Items<LinkedFrame>, NoMemory> {
    let mut made = Items::new(alloc);
    for each in text.split(' ') {
        if !each.is_empty() {
            made.push(frame_of(alloc, each)?)?;
        }
    }
    Ok(made)
}

/// An entry of an exception table: where its range begins, `-`, where it ends, `:`, its handler, `:`, its class.
fn handler_of(text: &str) -> LinkedHandler {
    let (start, rest) = parted(text, '-');
    let (end, rest) = parted(rest, ':');
    let (handler, catch) = parted(rest, ':');
    LinkedHandler {
        start: short(start),
        end: short(end),
        handler: short(handler),
        catch: class_number(catch),
    }
}

/// Entries with spaces between them.
pub fn handlers_of(alloc: Global, text: &str) -> Result<Items<LinkedHandler>, NoMemory> {
    let mut made = Items::new(alloc);
    for each in text.split(' ') {
        if !each.is_empty() {
            made.push(handler_of(each))?;
        }
    }
    Ok(made)
}
