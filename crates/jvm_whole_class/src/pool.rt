//! The constant pool of the class, in the order of first mention.

use crate::errors::Unbuilt;
use jvm_pool::{Entry, Pool};
use kt_base::{Name, NoMemory, Text16};
use std::alloc::Global;

/// The name of these characters.
pub(crate) fn name(alloc: Global, text: &str) -> Result<Name, Unbuilt> {
    if text.is_ascii() {
        Ok(Name::of(alloc, text.as_bytes())?)
    } else {
        Err(Unbuilt::Name)
    }
}

/// What is mentioned first in the class, in order: `U` a text, `C` a class, `M` and `I` a method of a class and of an
/// interface, `F` a field, `N` the number 1,000,000, `L` the least `long`, `S` a text with half of a pair of
/// surrogates.
fn mentions() -> [(char, &'static str, &'static str, &'static str); 35] {
    [
        ('C', "a/Whole", "", ""),
        ('C', "java/lang/Object", "", ""),
        ('C', "a/Shape", "", ""),
        ('C', "java/lang/Runnable", "", ""),
        ('U', "count", "", ""),
        ('U', "I", "", ""),
        ('U', "size", "", ""),
        ('U', "J", "", ""),
        ('U', "open", "", ""),
        ('U', "Z", "", ""),
        ('U', "first", "", ""),
        ('U', "C", "", ""),
        ('U', "cells", "", ""),
        ('U', "[I", "", ""),
        ('U', "all", "", ""),
        ('U', "[Ljava/lang/Object;", "", ""),
        ('U', "next", "", ""),
        ('U', "La/Whole;", "", ""),
        ('U', "area", "", ""),
        ('U', "(J)J", "", ""),
        ('U', "<init>", "", ""),
        ('U', "(I)V", "", ""),
        ('U', "Code", "", ""),
        ('M', "java/lang/Object", "<init>", "()V"),
        ('U', "StackMapTable", "", ""),
        ('U', "run", "", ""),
        ('U', "(IJZC[I[Ljava/lang/Object;La/Whole;)I", "", ""),
        ('N', "", "", ""),
        ('S', "", "", ""),
        ('L', "", "", ""),
        ('I', "a/Shape", "area", "(J)J"),
        ('F', "a/Whole", "count", "I"),
        ('C', "java/lang/ArithmeticException", "", ""),
        ('C', "java/lang/Throwable", "", ""),
        ('U', "frames", "", ""),
    ]
}

/// A text with a pair of surrogates and the half of one.
fn surrogates(alloc: Global) -> Result<Text16, NoMemory> {
    let units = Vec::from_slice(alloc, &[0xD83D, 0xDE00, 0xD800])?;
    Ok(Text16::from_units(units))
}

/// A member by its kind.
fn member(kind: char, class: Name, name: Name, descriptor: Name) -> Entry {
    match kind {
        'F' => Entry::Field(class, name, descriptor),
        'M' => Entry::Method(class, name, descriptor),
        _ => Entry::InterfaceMethod(class, name, descriptor),
    }
}

/// An entry of the table.
fn entry(
    alloc: Global,
    kind: char,
    first: &str,
    second: &str,
    third: &str,
) -> Result<Entry, Unbuilt> {
    match kind {
        'U' => Ok(Entry::Utf8(Text16::of(alloc, first)?)),
        'C' => Ok(Entry::Class(name(alloc, first)?)),
        'N' => Ok(Entry::Int(1_000_000)),
        'L' => Ok(Entry::Long(i64::MIN)),
        'S' => Ok(Entry::Text(surrogates(alloc)?)),
        _ => {
            let class = name(alloc, first)?;
            let member_name = name(alloc, second)?;
            Ok(member(kind, class, member_name, name(alloc, third)?))
        }
    }
}

/// The pool of the class.
pub(crate) fn pool(alloc: Global) -> Result<Pool, Unbuilt> {
    let mut pool = Pool::new(alloc);
    for (kind, first, second, third) in mentions() {
        let mentioned = entry(alloc, kind, first, second, third)?;
        pool.add(&mentioned)?;
    }
    Ok(pool)
}
