//! The classes that the methods of the table stand in and speak of.

use crate::methods::{Written, plain, push_declared, push_method};
use crate::pool::constants;
use class_linked::{LinkedClass, LinkedField, LinkedMethod, ValueKind};
use jvm_class_types::ClassFlags;
use kt_base::{Name, NoMemory};
use sqlite_items::Items;
use std::alloc::Global;

/// The classes of a row, those of the machine and of arrays first.
pub type Classes = Items<LinkedClass>;

/// What a class is but for its methods.
#[derive(Clone, Copy)]
pub struct Heading<'a> {
    pub name: &'a [u8],
    pub flags: ClassFlags,
    pub above: usize,
    pub interface: Option<usize>,
    /// The classes that it is below, itself among them, ascending.
    pub supers: &'a [usize],
    pub has_field: bool,
}

/// Of a class right below `java/lang/Object`.
fn plain_heading<'a>(name: &'a [u8], flags: ClassFlags, supers: &'a [usize]) -> Heading<'a> {
    Heading {
        name,
        flags,
        above: 0,
        interface: None,
        supers,
        has_field: false,
    }
}

fn name_of(alloc: Global, name: &[u8]) -> Result<Name, NoMemory> {
    if name.is_ascii() {
        Name::of(alloc, name)
    } else {
        Name::of(alloc, b"")
    }
}

fn fields_of(alloc: Global, heading: &Heading<'_>) -> Result<Items<LinkedField>, NoMemory> {
    let mut fields = Items::new(alloc);
    if heading.has_field {
        fields.push(LinkedField {
            owner: 0,
            kind: ValueKind::Int,
            is_final: false,
        })?;
    }
    Ok(fields)
}

fn interfaces_of(alloc: Global, heading: &Heading<'_>) -> Result<Items<usize>, NoMemory> {
    let mut interfaces = Items::new(alloc);
    if let Some(number) = heading.interface {
        interfaces.push(number)?;
    }
    Ok(interfaces)
}

/// A class without methods.
fn class_of(alloc: Global, heading: &Heading<'_>) -> Result<LinkedClass, NoMemory> {
    let interfaces = interfaces_of(alloc, heading)?;
    let supers = Items::from_slice(alloc, heading.supers)?;
    let fields = fields_of(alloc, heading)?;
    let name = name_of(alloc, heading.name)?;
    Ok(LinkedClass {
        name,
        flags: heading.flags,
        above: Some(heading.above),
        interfaces,
        supers,
        fields,
        methods: Items::new(alloc),
        table: Items::new(alloc),
        faces: Items::new(alloc),
        constants: Items::new(alloc),
    })
}

/// One class more, with these methods and the pool.
pub fn push_class(
    alloc: Global,
    classes: &mut Classes,
    heading: &Heading<'_>,
    methods: Items<LinkedMethod>,
) -> Result<(), NoMemory> {
    let made = match with_pool(alloc, heading) {
        Ok(class) => LinkedClass { methods, ..class },
        Err(error) => return Err(error),
    };
    Ok(classes.push(made)?)
}

fn with_pool(alloc: Global, heading: &Heading<'_>) -> Result<LinkedClass, NoMemory> {
    let constants = constants(alloc)?;
    Ok(LinkedClass {
        constants,
        ..class_of(alloc, heading)?
    })
}

/// The one method of one of the machine's own classes that the table calls.
fn own_methods(alloc: Global, number: usize) -> Result<Items<LinkedMethod>, NoMemory> {
    let mut methods = Items::new(alloc);
    match number {
        0 => push_declared(alloc, &mut methods, b"cV")?,
        22 => push_declared(alloc, &mut methods, b"sV")?,
        25 => push_declared(alloc, &mut methods, b"cVK")?,
        _ => {}
    }
    Ok(methods)
}

fn own_flags(number: usize) -> ClassFlags {
    match number {
        0 | 6..=17 | 19 => ClassFlags::Open,
        25 => ClassFlags::Abstract,
        26..=33 => ClassFlags::Interface,
        _ => ClassFlags::Final,
    }
}

/// What one of the machine's own classes is below: throwables are below `Throwable`, `Exception` and `RuntimeException`, and
/// two of indices below one of them.
fn own_supers(alloc: Global, number: usize) -> Result<Vec<usize>, NoMemory> {
    let mut supers = Vec::new(alloc);
    for above in [0, 6, 7, 8, 15] {
        if above == 0 || above <= number && number <= 17 {
            supers.push(above)?;
        }
    }
    supers.push(number)?;
    Ok(supers)
}

/// The machine's own classes and the two of arrays.
fn push_own(alloc: Global, classes: &mut Classes) -> Result<(), NoMemory> {
    for number in 0..36 {
        let supers = own_supers(alloc, number)?;
        let own = plain_heading(b"own", own_flags(number), supers.as_slice());
        let methods = own_methods(alloc, number)?;
        push_class(alloc, classes, &own, methods)?;
    }
    Ok(())
}

/// `MainKt`: the method that is tried, a constructor, and others that the table calls.
fn main_methods(
    alloc: Global,
    signature: &[u8],
    tried: &Written<'_>,
) -> Result<Items<LinkedMethod>, NoMemory> {
    let mut methods = Items::new(alloc);
    push_method(alloc, &mut methods, signature, tried)?;
    push_main_methods(alloc, &mut methods)?;
    Ok(methods)
}

fn push_main_methods(alloc: Global, methods: &mut Items<LinkedMethod>) -> Result<(), NoMemory> {
    push_method(
        alloc,
        methods,
        b"cV",
        &plain(1, 1, "b8 00 01 2a b7 00 03 b1"),
    )?;
    push_method(alloc, methods, b"sVJI", &plain(0, 3, "b8 00 01 b1"))?;
    push_method(alloc, methods, b"sMFO", &plain(1, 2, "b8 00 01 01 b0"))?;
    push_method(alloc, methods, b"iJI", &plain(2, 2, "b8 00 01 09 ad"))
}

/// `Cont`, below `ContinuationImpl`: its constructor, and `invokeSuspend`.
fn continuation_methods(
    alloc: Global,
    constructor: &Written<'_>,
) -> Result<Items<LinkedMethod>, NoMemory> {
    let mut methods = Items::new(alloc);
    push_method(alloc, &mut methods, b"cVK", constructor)?;
    push_method(alloc, &mut methods, b"rO", &plain(1, 1, "01 b0"))?;
    Ok(methods)
}

fn one_declared(alloc: Global, signature: &[u8]) -> Result<Items<LinkedMethod>, NoMemory> {
    let mut methods = Items::new(alloc);
    push_declared(alloc, &mut methods, signature)?;
    Ok(methods)
}

pub fn one_method(
    alloc: Global,
    signature: &[u8],
    written: &Written<'_>,
) -> Result<Items<LinkedMethod>, NoMemory> {
    let mut methods = Items::new(alloc);
    push_method(alloc, &mut methods, signature, written)?;
    Ok(methods)
}

/// `Face`, an interface; `Implementing`, below it; `Above`, an abstract class.
fn push_others(alloc: Global, classes: &mut Classes) -> Result<(), NoMemory> {
    let face = plain_heading(b"Face", ClassFlags::Interface, &[0, 38]);
    push_class(alloc, classes, &face, one_declared(alloc, b"aV")?)?;
    let implementing = plain_heading(b"Implementing", ClassFlags::Open, &[0, 38, 39]);
    let code = plain(1, 1, "b8 00 01 2a b7 00 03 b1");
    push_class(
        alloc,
        classes,
        &implementing,
        one_method(alloc, b"cV", &code)?,
    )?;
    let above = plain_heading(b"Above", ClassFlags::Abstract, &[0, 40]);
    push_class(alloc, classes, &above, Items::new(alloc))
}

/// All classes, with this method as the first of `MainKt`, and this code of the constructor of `Cont`.
fn push_all(
    alloc: Global,
    classes: &mut Classes,
    signature: &[u8],
    tried: &Written<'_>,
    constructor: &Written<'_>,
) -> Result<(), NoMemory> {
    push_own(alloc, classes)?;
    let main = plain_heading(b"MainKt", ClassFlags::Open, &[0, 36]);
    push_class(
        alloc,
        classes,
        &main,
        main_methods(alloc, signature, tried)?,
    )?;
    let continuation = Heading {
        above: 25,
        ..plain_heading(b"Cont", ClassFlags::Open, &[0, 25, 37])
    };
    push_class(
        alloc,
        classes,
        &continuation,
        continuation_methods(alloc, constructor)?,
    )?;
    push_others(alloc, classes)
}

/// All classes, with this method as the first of `MainKt`; where its signature is `C`, with this code of the constructor of
/// `Cont`.
pub fn push_program(
    alloc: Global,
    classes: &mut Classes,
    signature: &[u8],
    tried: &Written<'_>,
) -> Result<(), NoMemory> {
    if signature == b"C".as_slice() {
        push_all(alloc, classes, b"sV", &plain(0, 0, "b8 00 01 b1"), tried)
    } else {
        push_all(
            alloc,
            classes,
            signature,
            tried,
            &plain(2, 2, "2a 2b b7 00 0d b1"),
        )
    }
}
