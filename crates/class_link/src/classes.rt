//! Linked classes.

ghost use Rattle.class_link.specs.Classes.{class_with, file_class, file_method, own_class, own_method};
ghost use Rattle.class_constants.specs.Constants.{constants};
ghost use Rattle.class_members.specs.Above.{join, list_of, number_in};
ghost use Rattle.class_members.specs.Members.{supers_at};
ghost use Rattle.class_tables.specs.Dispatch.{AreOwnSlots, AreSlots, faces, table};
ghost use Rattle.class_tables.specs.Objects.{object_fields};
ghost use Rattle.class_code.specs.Code.{linked_code};
ghost use Rattle.std.specs.Prelude.{◌≡◌, ◌++◌, IfOk, OnOk, flat_map, map, option_map, slice_get};

use class_code::linked_code;
use class_constants::constants_of;
use class_headers::{ClassTable, Header, MethodHeader};
use class_linked::{
    Constant, Face, LinkedClass, LinkedCode, LinkedField, LinkedMethod, MethodPlace,
};
use class_members::Hierarchy;
use class_tables::{Slots, faces_of, linked_method, object_fields, slots_of, table_of};
use jvm_class_types::{ClassFile, ClassFlags, Code, Method};
use kt_base::{Name, NoMemory};
use sqlite_items::{Items, at};
use std::alloc::Global;

/// What a class has by its place in the hierarchy.
#[derive(Drop)]
struct Places {
    above: Option<usize>,
    supers: Items<usize>,
    fields: Items<LinkedField>,
    table: Items<MethodPlace>,
    faces: Items<Face>,
}

fn above_of(h: &Hierarchy, class: usize) -> Option<usize>
    ensures { result ≡ join (slice_get h.now.parents class) }
{
    match at(h.parents.as_slice(), class) {
        None => None,
        Some(above) => *above,
    }
}

fn places_of(alloc: Global, h: &Hierarchy, class: usize, slots: &Slots) -> Result<Places, NoMemory>
    requires { AreSlots h.now class slots.now }
    ensures { IfOk result (λ places. (places.above ≡ join (slice_get h.now.parents class))
        × (places.supers ≡ supers_at h.now class)
        × (places.fields ≡ object_fields h.now class)
        × (places.table ≡ table h.now class)
        × (places.faces ≡ faces h.now class)) }
{
    let supers = Items::from_slice(alloc, h.supers(class))?;
    let fields = object_fields(alloc, h, class)?;
    let table = table_of(alloc, h, class, slots)?;
    let faces = faces_of(alloc, h, class)?;
    Ok(Places {
        above: above_of(h, class),
        supers,
        fields,
        table,
        faces,
    })
}

/// What a class has by itself.
#[derive(Drop)]
struct Parts {
    name: Name,
    flags: ClassFlags,
    interfaces: Items<usize>,
    methods: Items<LinkedMethod>,
    constants: Items<Constant>,
}

fn class_with(
    alloc: Global,
    h: &Hierarchy,
    class: usize,
    slots: &Slots,
    parts: Parts,
) -> Result<LinkedClass, NoMemory>
    requires { AreSlots h.now class slots.now }
    ensures { IfOk result (λ made. made
        ≡ class_with h.now class parts.name parts.flags parts.interfaces parts.methods parts.constants) }
{
    match places_of(alloc, h, class, slots) {
        Ok(places) => Ok(LinkedClass {
            name: parts.name,
            flags: parts.flags,
            above: places.above,
            interfaces: parts.interfaces,
            supers: places.supers,
            fields: places.fields,
            methods: parts.methods,
            table: places.table,
            faces: places.faces,
            constants: parts.constants,
        }),
        Err(error) => Err(error),
    }
}

// ---- classes that need no class file

fn own_methods(
    alloc: Global,
    h: &Hierarchy,
    class: usize,
    slots: &Slots,
    methods: &[MethodHeader],
) -> Result<Items<LinkedMethod>, NoMemory>
    requires { AreSlots h.now class slots.now }
    ensures { IfOk result (λ made. made ≡ map (own_method h.now class) methods.now) }
{
    let mut made = Items::new(alloc);
    for method in methods {
        made.push(linked_method(
            alloc,
            h,
            class,
            slots,
            method.flags,
            method.name.as_slice(),
            method.descriptor.as_slice(),
            None,
        )?)?;
    }
    Ok(made)
}

/// A class that needs no class file.
pub(crate) fn own_class(
    alloc: Global,
    h: &Hierarchy,
    rows: &[Items<MethodPlace>],
    class: usize,
    own: &Header,
) -> Result<LinkedClass, NoMemory>
    requires { AreOwnSlots h.now rows.now }
    ensures { IfOk result (λ made. made ≡ own_class h.now class own.now) }
{
    let slots = slots_of(alloc, h, rows, class)?;
    let name = own.name.clone()?;
    let methods = own_methods(alloc, h, class, &slots, own.methods.as_slice())?;
    let parts = Parts {
        name,
        flags: own.flags,
        interfaces: Items::new(alloc),
        methods,
        constants: Items::new(alloc),
    };
    class_with(alloc, h, class, &slots, parts)
}

// ---- classes of class files

fn push_number(numbers: &mut Items<usize>, number: Option<usize>) -> Result<(), NoMemory>
    ensures { OnOk result (numbers.new ≡ numbers.old ++ list_of number) }
{
    match number {
        None => {}
        Some(number) => numbers.push(number)?,
    }
    Ok(())
}

#[tactic(auto, using(class_constants::proofs::Growing::flat_grows))]
fn numbers_of(alloc: Global, headers: &ClassTable, names: &[Name]) -> Result<Items<usize>, NoMemory>
    ensures { IfOk result (λ numbers. numbers ≡ flat_map (number_in headers.now) names.now) }
{
    let mut numbers = Items::new(alloc);
    for name in names {
        push_number(&mut numbers, headers.number(name.as_bytes()))?;
    }
    Ok(numbers)
}

fn code_of(
    alloc: Global,
    headers: &ClassTable,
    code: Option<Code>,
) -> Result<Option<LinkedCode>, NoMemory>
    ensures { IfOk result (λ made. made ≡ option_map (linked_code headers.now) code) }
{
    match code {
        None => Ok(None),
        Some(code) => match linked_code(alloc, headers, code) {
            Ok(code) => Ok(Some(code)),
            Err(error) => Err(error),
        },
    }
}

fn file_method(
    alloc: Global,
    h: &Hierarchy,
    class: usize,
    slots: &Slots,
    method: Method,
) -> Result<LinkedMethod, NoMemory>
    requires { AreSlots h.now class slots.now }
    ensures { IfOk result (λ made. made ≡ file_method h.now class method) }
{
    let Method {
        flags,
        name,
        descriptor,
        code,
    } = method;
    match code_of(alloc, &h.headers, code) {
        Ok(code) => linked_method(
            alloc,
            h,
            class,
            slots,
            flags,
            name.as_bytes(),
            descriptor.as_bytes(),
            code,
        ),
        Err(error) => Err(error),
    }
}

fn file_methods(
    alloc: Global,
    h: &Hierarchy,
    class: usize,
    slots: &Slots,
    methods: Vec<Method>,
) -> Result<Items<LinkedMethod>, NoMemory>
    requires { AreSlots h.now class slots.now }
    ensures { IfOk result (λ made. made ≡ map (file_method h.now class) methods.items) }
{
    let mut made = Items::new(alloc);
    for method in methods {
        made.push(file_method(alloc, h, class, slots, method)?)?;
    }
    Ok(made)
}

/// What is made of a class file without its methods.
#[derive(Drop)]
struct Mentions {
    slots: Slots,
    interfaces: Items<usize>,
    constants: Items<Constant>,
}

fn mentions_of(
    alloc: Global,
    h: &Hierarchy,
    rows: &[Items<MethodPlace>],
    class: usize,
    file: &ClassFile,
) -> Result<Mentions, NoMemory>
    requires { AreOwnSlots h.now rows.now }
    ensures { IfOk result (λ made. AreSlots h.now class made.slots
        × (made.interfaces ≡ flat_map (number_in h.now.headers) file.now.interfaces.items)
        × (made.constants ≡ constants h.now file.now.pool)) }
{
    let slots = slots_of(alloc, h, rows, class)?;
    let interfaces = numbers_of(alloc, &h.headers, file.interfaces.as_slice())?;
    let constants = constants_of(alloc, h, file.pool.entries())?;
    Ok(Mentions {
        slots,
        interfaces,
        constants,
    })
}

fn with_methods(
    alloc: Global,
    h: &Hierarchy,
    class: usize,
    mentions: Mentions,
    file: ClassFile,
) -> Result<LinkedClass, NoMemory>
    requires slots { AreSlots h.now class mentions.slots }
    requires interfaces { mentions.interfaces ≡ flat_map (number_in h.now.headers) file.interfaces.items }
    requires constants { mentions.constants ≡ constants h.now file.pool }
    ensures { IfOk result (λ made. made ≡ file_class h.now class file) }
{
    let Mentions {
        slots,
        interfaces,
        constants,
    } = mentions;
    match file_methods(alloc, h, class, &slots, file.methods) {
        Ok(methods) => {
            let parts = Parts {
                name: file.name,
                flags: file.flags,
                interfaces,
                methods,
                constants,
            };
            class_with(alloc, h, class, &slots, parts)
        }
        Err(error) => Err(error),
    }
}

/// The class of a class file. Its code is moved.
pub(crate) fn file_class(
    alloc: Global,
    h: &Hierarchy,
    rows: &[Items<MethodPlace>],
    class: usize,
    file: ClassFile,
) -> Result<LinkedClass, NoMemory>
    requires { AreOwnSlots h.now rows.now }
    ensures { IfOk result (λ made. made ≡ file_class h.now class file) }
{
    match mentions_of(alloc, h, rows, class, &file) {
        Ok(mentions) => with_methods(alloc, h, class, mentions, file),
        Err(error) => Err(error),
    }
}
