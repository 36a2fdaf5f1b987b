//! Classes as lines write them.
//!
//! A `|` stands between two classes, and a space between two words of one. A word is a letter and up to three texts,
//! with a `:` between them:
//!
//! | word | what it says |
//! |---|---|
//! | `o:NAME:ABOVE` | a class that may be extended, and the class above it |
//! | `f:NAME:ABOVE`, `a:NAME:ABOVE` | a final class, an abstract one |
//! | `i:NAME:ABOVE` | an interface |
//! | `+:NAME` | an interface directly above |
//! | `v:NAME:TYPE`, `w:NAME:TYPE` | a field, a final one |
//! | `s:NAME:TYPE`, `m:NAME:TYPE`, `x:NAME:TYPE` | a method: static, with an object, abstract |
//! | `C:NAME` | an entry of the pool: a class |
//! | `F:CLASS:NAME:TYPE` | a field |
//! | `M:CLASS:NAME:TYPE`, `I:CLASS:NAME:TYPE` | a method of a class, one of an interface |
//! | `J:` | a `long` |

use jvm_class_types::{ClassFile, ClassFlags, Field, FieldFlags, Method, MethodFlags};
use jvm_pool::{Entry, Pool, PoolErr};
use kt_base::{Name, NoMemory};
use std::alloc::{AllocError, AllocFailed, Global};

/// Why a line says no classes.
#[derive(Clone, Copy)]
pub enum LineErr {
    /// A word is no word, or a pool is full.
    Unreadable,
    NoMemory,
}

impl From<NoMemory> for LineErr {
    fn from(_: NoMemory) -> LineErr {
        LineErr::NoMemory
    }
}

impl From<AllocError> for LineErr {
    fn from(_: AllocError) -> LineErr {
        LineErr::NoMemory
    }
}

impl<T: Drop> From<AllocFailed<T>> for LineErr {
    fn from(_: AllocFailed<T>) -> LineErr {
        LineErr::NoMemory
    }
}

impl From<PoolErr> for LineErr {
    fn from(_: PoolErr) -> LineErr {
        LineErr::Unreadable
    }
}

/// What stands before a sign, and what behind it.
pub fn parted(text: &[u8], sign: u8) -> (&[u8], &[u8]) {
    for place in 0..text.len() {
        if text[place] == sign {
            return (&text[..place], &text[place + 1..]);
        }
    }
    (text, &[])
}

fn name(alloc: Global, text: &[u8]) -> Result<Name, LineErr> {
    if text.is_ascii() {
        Ok(Name::of(alloc, text)?)
    } else {
        Err(LineErr::Unreadable)
    }
}

/// The texts of a word.
#[derive(Clone, Copy)]
pub struct Word<'a> {
    pub letter: &'a [u8],
    pub first: &'a [u8],
    pub second: &'a [u8],
    pub third: &'a [u8],
}

/// The texts of a word, which `:` stand between.
pub fn word_of(text: &[u8]) -> Word<'_> {
    let (letter, rest) = parted(text, b':');
    let (first, rest) = parted(rest, b':');
    let (second, third) = parted(rest, b':');
    Word {
        letter,
        first,
        second,
        third,
    }
}

fn class_flags(letter: &[u8]) -> Option<ClassFlags> {
    match letter {
        b"o" => Some(ClassFlags::Open),
        b"f" => Some(ClassFlags::Final),
        b"a" => Some(ClassFlags::Abstract),
        b"i" => Some(ClassFlags::Interface),
        _ => None,
    }
}

fn field_flags(letter: &[u8]) -> Option<FieldFlags> {
    match letter {
        b"v" => Some(FieldFlags::Variable),
        b"w" => Some(FieldFlags::Final),
        _ => None,
    }
}

fn method_flags(letter: &[u8]) -> Option<MethodFlags> {
    match letter {
        b"s" => Some(MethodFlags::Static),
        b"m" => Some(MethodFlags::Instance),
        b"x" => Some(MethodFlags::Abstract),
        _ => None,
    }
}

fn member_of(alloc: Global, word: &Word<'_>) -> Result<(Name, Name, Name), LineErr> {
    let class = name(alloc, word.first)?;
    let member = name(alloc, word.second)?;
    let descriptor = name(alloc, word.third)?;
    Ok((class, member, descriptor))
}

/// The entry that a word says is in the pool.
fn entry_of(alloc: Global, word: &Word<'_>) -> Result<Option<Entry>, LineErr> {
    let (class, member, descriptor) = member_of(alloc, word)?;
    match word.letter {
        b"C" => Ok(Some(Entry::Class(class))),
        b"F" => Ok(Some(Entry::Field(class, member, descriptor))),
        b"M" => Ok(Some(Entry::Method(class, member, descriptor))),
        b"I" => Ok(Some(Entry::InterfaceMethod(class, member, descriptor))),
        b"J" => Ok(Some(Entry::Long(1))),
        _ => Ok(None),
    }
}

fn add_head(alloc: Global, class: &mut ClassFile, word: &Word<'_>) -> Result<(), LineErr> {
    if let Some(flags) = class_flags(word.letter) {
        class.flags = flags;
        class.name = name(alloc, word.first)?;
        class.super_class = name(alloc, word.second)?;
    }
    if word.letter == b"+".as_slice() {
        class.interfaces.push(name(alloc, word.first)?)?;
    }
    Ok(())
}

fn add_field(alloc: Global, class: &mut ClassFile, word: &Word<'_>) -> Result<(), LineErr> {
    if let Some(flags) = field_flags(word.letter) {
        let (name, descriptor, _) = member_of(alloc, word)?;
        class.fields.push(Field {
            flags,
            name,
            descriptor,
        })?;
    }
    Ok(())
}

fn add_method(alloc: Global, class: &mut ClassFile, word: &Word<'_>) -> Result<(), LineErr> {
    if let Some(flags) = method_flags(word.letter) {
        let (name, descriptor, _) = member_of(alloc, word)?;
        class.methods.push(Method {
            flags,
            name,
            descriptor,
            code: None,
        })?;
    }
    Ok(())
}

fn add_entry(alloc: Global, class: &mut ClassFile, word: &Word<'_>) -> Result<(), LineErr> {
    if let Some(entry) = entry_of(alloc, word)? {
        let _index = class.pool.add(&entry)?;
    }
    Ok(())
}

fn empty_class(alloc: Global) -> Result<ClassFile, LineErr> {
    let name = Name::of(alloc, b"")?;
    let super_class = Name::of(alloc, b"")?;
    Ok(ClassFile {
        pool: Pool::new(alloc),
        flags: ClassFlags::Open,
        name,
        super_class,
        interfaces: Vec::new(alloc),
        fields: Vec::new(alloc),
        methods: Vec::new(alloc),
    })
}

fn add_word(alloc: Global, class: &mut ClassFile, text: &[u8]) -> Result<(), LineErr> {
    let word = word_of(text);
    add_head(alloc, class, &word)?;
    add_field(alloc, class, &word)?;
    add_method(alloc, class, &word)?;
    add_entry(alloc, class, &word)
}

fn class_of(alloc: Global, text: &str) -> Result<ClassFile, LineErr> {
    let mut class = empty_class(alloc)?;
    for part in text.split(' ') {
        add_word(alloc, &mut class, part.as_bytes())?;
    }
    Ok(class)
}

/// The classes that a text says; none where it is empty.
pub fn classes_of(alloc: Global, text: &str) -> Result<Vec<ClassFile>, LineErr> {
    let mut classes = Vec::new(alloc);
    if text.is_empty() {
        return Ok(classes);
    }
    for part in text.split('|') {
        classes.push(class_of(alloc, part)?)?;
    }
    Ok(classes)
}
