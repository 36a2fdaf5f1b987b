//! Types by short texts, and a small hierarchy.

use kt_base::NoMemory;
use kt_types_tree::{ClassHeader, ClassKind, Hierarchy, KtType, Supertype, TypeConstructor};
use sqlite_items::Items;
use std::alloc::Global;

fn digit(letter: u8) -> u32 {
    if letter >= b'0' {
        u32::from(letter - b'0')
    } else {
        0
    }
}

fn one(alloc: Global, t: KtType) -> Result<Items<KtType>, NoMemory> {
    let mut all = Items::new(alloc);
    all.push(t)?;
    Ok(all)
}

#[cycle(reading)]
fn with_one(
    alloc: Global,
    nullable: bool,
    constructor: TypeConstructor,
    argument: &[u8],
) -> Result<KtType, NoMemory> {
    let argument = read(alloc, false, argument)?;
    Ok(KtType::of(nullable, constructor, one(alloc, argument)?))
}

/// The type that a text in prefix form says: `?` behind a type stands before it, `a`, `c`, `f`, `s` are an array, a
/// continuation, a function without parameters and a suspend function of the type that follows, `C` with a digit is a
/// class without arguments, `G` with a digit one of the type that follows, `p` with two digits a type parameter by its
/// row and its place.
#[cycle(reading)]
fn read(alloc: Global, nullable: bool, text: &[u8]) -> Result<KtType, NoMemory> {
    match text {
        [b'?', rest @ ..] => read(alloc, true, rest),
        [b'N', ..] => Ok(KtType::nothing(nullable)),
        [b'A', ..] => Ok(KtType::any(nullable)),
        [b'I', ..] => Ok(KtType::plain(alloc, nullable, TypeConstructor::Int)),
        [b'L', ..] => Ok(KtType::plain(alloc, nullable, TypeConstructor::Long)),
        [b'S', ..] => Ok(KtType::plain(alloc, nullable, TypeConstructor::String)),
        [b'U', ..] => Ok(KtType::plain(alloc, nullable, TypeConstructor::Unit)),
        [b'i', ..] => Ok(KtType::plain(alloc, nullable, TypeConstructor::IntArray)),
        [b'a', rest @ ..] => with_one(alloc, nullable, TypeConstructor::Array, rest),
        [b'c', rest @ ..] => with_one(alloc, nullable, TypeConstructor::Continuation, rest),
        [b'f', rest @ ..] => with_one(alloc, nullable, TypeConstructor::Function(false), rest),
        [b's', rest @ ..] => with_one(alloc, nullable, TypeConstructor::Function(true), rest),
        [b'C', class, ..] => {
            Ok(KtType::plain(alloc, nullable, TypeConstructor::Class(digit(*class))))
        }
        [b'G', class, rest @ ..] => {
            with_one(alloc, nullable, TypeConstructor::Class(digit(*class)), rest)
        }
        [b'p', row, place, ..] => Ok(KtType::parameter(nullable, digit(*row), digit(*place))),
        _ => Ok(KtType::any(true)),
    }
}

/// The type that a text says.
pub fn sample(alloc: Global, text: &str) -> Result<KtType, NoMemory> {
    read(alloc, false, text.as_bytes())
}

/// A declared supertype.
pub fn supertype(
    alloc: Global,
    class: u32,
    argument: Option<KtType>,
) -> Result<Supertype, NoMemory> {
    let mut arguments = Items::new(alloc);
    match argument {
        Some(t) => arguments.push(t)?,
        None => {}
    }
    Ok(Supertype { class, arguments })
}

/// A header without `toString` and `equals`.
pub fn header(kind: ClassKind, parameters: u32, supertypes: Items<Supertype>) -> ClassHeader {
    ClassHeader {
        kind,
        parameters,
        first_bound: 0,
        supertypes,
        has_to_string: false,
        has_equals: false,
    }
}

/// The supertypes that rows and texts of their arguments say; an empty text is no argument.
fn supertypes(alloc: Global, rows: &[(u32, &'static str)]) -> Result<Items<Supertype>, NoMemory> {
    let mut all = Items::new(alloc);
    for (class, argument) in rows {
        if argument.is_empty() {
            all.push(supertype(alloc, *class, None)?)?;
        } else {
            let argument = sample(alloc, *argument)?;
            all.push(supertype(alloc, *class, Some(argument))?)?;
        }
    }
    Ok(all)
}

/// A kind, a count of type parameters, whether it has `toString` and `equals`, and the declared supertypes.
type Row = (ClassKind, u32, bool, &'static [(u32, &'static str)]);

/// `interface C0`, `open class C1 : C0`, `open class G2<T>`, `class C3 : G2<Int>, C0`, `class G4<T> : G2<Array<T?>>`,
/// `enum class C5`, `data class C6`, `class C7` with `toString` and `equals`.
fn classes() -> [Row; 8] {
    [
        (ClassKind::Interface, 0, false, &[]),
        (ClassKind::Class, 0, false, &[(0, "")]),
        (ClassKind::Class, 1, false, &[]),
        (ClassKind::Class, 0, false, &[(2, "I"), (0, "")]),
        (ClassKind::Class, 1, false, &[(2, "a?p10")]),
        (ClassKind::Enum, 0, false, &[]),
        (ClassKind::DataClass, 0, false, &[]),
        (ClassKind::Class, 0, true, &[]),
    ]
}

/// The bounds by their rows: those of `G2` and `G4`, `T : C1`, `U : T`, `V : C1?`, and two that lead to one another.
fn bounds() -> [&'static str; 7] {
    ["?A", "?A", "C1", "p20", "?C1", "p60", "p50"]
}

fn header_of(alloc: Global, row: Row) -> Result<ClassHeader, NoMemory> {
    let mut made = header(row.0, row.1, supertypes(alloc, row.3)?);
    made.has_to_string = row.2;
    made.has_equals = row.2;
    Ok(made)
}

fn headers(alloc: Global) -> Result<Items<ClassHeader>, NoMemory> {
    let mut all = Items::new(alloc);
    for row in classes() {
        all.push(header_of(alloc, row)?)?;
    }
    Ok(all)
}

fn bound_types(alloc: Global) -> Result<Items<KtType>, NoMemory> {
    let mut all = Items::new(alloc);
    for text in bounds() {
        all.push(sample(alloc, text)?)?;
    }
    Ok(all)
}

/// The hierarchy of these classes and bounds.
pub fn hierarchy(alloc: Global) -> Result<Hierarchy, NoMemory> {
    let classes = headers(alloc)?;
    Ok(Hierarchy {
        classes,
        bounds: bound_types(alloc)?,
    })
}
