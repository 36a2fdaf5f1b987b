//! The headers of all classes.

ghost use Rattle.class_headers.specs.Headers.{array_header, field_header, file_header, headers_of};
ghost use Rattle.class_headers.specs.Headers.{method_header, own_header, own_headers, own_method_header};
ghost use Rattle.jvm_class_types.specs.Seen.{class_seen, field_seen, method_seen};
ghost use Rattle.jvm_runtime.specs.Members.{field_seen as own_field_seen, method_seen as own_method_seen};
ghost use Rattle.std.specs.Prelude.{◌≡◌, IfOk, map};
ghost use Rattle.jvm_runtime.specs.Classes.{runtime_classes};
ghost use Rattle.std.specs.Str.{IsAscii};

use crate::headers::{FieldHeader, Header, MethodHeader};
use crate::table::ClassTable;
use jvm_class_types::{ClassFile, ClassFlags, Field, Method};
use jvm_runtime::{RuntimeClass, RuntimeField, RuntimeMethod, runtime_classes};
use kt_base::{Name, NoMemory};
use sqlite_items::Items;
use std::alloc::Global;

fn text_of(alloc: Global, bytes: &[u8]) -> Result<Items<u8>, NoMemory>
    ensures { IfOk result (λ text. text ≡ bytes.now) }
{
    Ok(Items::from_slice(alloc, bytes)?)
}

fn own_fields(alloc: Global, fields: &[RuntimeField]) -> Result<Items<FieldHeader>, NoMemory>
    ensures { IfOk result (λ made. made ≡ map field_header (map own_field_seen fields.now)) }
{
    let mut made = Items::new(alloc);
    for field in fields {
        let name = text_of(alloc, field.name)?;
        let descriptor = text_of(alloc, field.descriptor)?;
        made.push(FieldHeader {
            flags: field.flags,
            name,
            descriptor,
        })?;
    }
    Ok(made)
}

fn own_methods(alloc: Global, methods: &[RuntimeMethod]) -> Result<Items<MethodHeader>, NoMemory>
    ensures { IfOk result (λ made. made ≡ map own_method_header (map own_method_seen methods.now)) }
{
    let mut made = Items::new(alloc);
    for method in methods {
        let name = text_of(alloc, method.name)?;
        let descriptor = text_of(alloc, method.descriptor)?;
        made.push(MethodHeader {
            flags: method.flags,
            name,
            descriptor,
        })?;
    }
    Ok(made)
}

fn name_above(alloc: Global, class: RuntimeClass) -> Result<Option<Items<u8>>, NoMemory>
    ensures { IfOk result (λ name. name ≡ (own_header class).above) }
{
    match class.superclass() {
        None => Ok(None),
        Some(above) => Ok(Some(text_of(alloc, above.name())?)),
    }
}

/// The header of a class that the machine has.
#[tactic(auto, using(crate::proofs::Names::own_name))]
fn header_of_own(alloc: Global, class: RuntimeClass) -> Result<Header, NoMemory>
    ensures { IfOk result (λ header. header ≡ own_header class) }
{
    let name = Name::of(alloc, class.name())?;
    let above = name_above(alloc, class)?;
    let fields = own_fields(alloc, class.fields())?;
    let methods = own_methods(alloc, class.methods())?;
    Ok(Header {
        name,
        flags: class.flags(),
        above,
        interfaces: Items::new(alloc),
        fields,
        methods,
    })
}

/// The header of an array class.
fn header_of_array(alloc: Global, name: &[u8]) -> Result<Header, NoMemory>
    requires { IsAscii name.now }
    ensures { IfOk result (λ header. header ≡ array_header name.now) }
{
    let name = Name::of(alloc, name)?;
    let above = text_of(alloc, b"java/lang/Object")?;
    Ok(Header {
        name,
        flags: ClassFlags::Final,
        above: Some(above),
        interfaces: Items::new(alloc),
        fields: Items::new(alloc),
        methods: Items::new(alloc),
    })
}

fn header_of_field(alloc: Global, field: &Field) -> Result<FieldHeader, NoMemory>
    ensures { IfOk result (λ made. made ≡ field_header (field_seen field.now)) }
{
    let name = text_of(alloc, field.name.as_bytes())?;
    let descriptor = text_of(alloc, field.descriptor.as_bytes())?;
    Ok(FieldHeader {
        flags: field.flags,
        name,
        descriptor,
    })
}

fn fields_of(alloc: Global, fields: &[Field]) -> Result<Items<FieldHeader>, NoMemory>
    ensures { IfOk result (λ made. made ≡ map field_header (map field_seen fields.now)) }
{
    let mut made = Items::new(alloc);
    for field in fields {
        made.push(header_of_field(alloc, field)?)?;
    }
    Ok(made)
}

fn methods_of(alloc: Global, methods: &[Method]) -> Result<Items<MethodHeader>, NoMemory>
    ensures { IfOk result (λ made. made ≡ map method_header (map method_seen methods.now)) }
{
    let mut made = Items::new(alloc);
    for method in methods {
        let name = text_of(alloc, method.name.as_bytes())?;
        let descriptor = text_of(alloc, method.descriptor.as_bytes())?;
        made.push(MethodHeader {
            flags: method.flags,
            name,
            descriptor,
        })?;
    }
    Ok(made)
}

fn names_of(alloc: Global, names: &[Name]) -> Result<Items<Items<u8>>, NoMemory>
    ensures { IfOk result (λ made. made ≡ names.now) }
{
    let mut made = Items::new(alloc);
    for name in names {
        made.push(text_of(alloc, name.as_bytes())?)?;
    }
    Ok(made)
}

/// The header of a class file's class.
fn header_of_file(alloc: Global, class: &ClassFile) -> Result<Header, NoMemory>
    ensures { IfOk result (λ header. header ≡ file_header (class_seen class.now)) }
{
    let name = class.name.clone()?;
    let above = text_of(alloc, class.super_class.as_bytes())?;
    let interfaces = names_of(alloc, class.interfaces.as_slice())?;
    let fields = fields_of(alloc, class.fields.as_slice())?;
    let methods = methods_of(alloc, class.methods.as_slice())?;
    Ok(Header {
        name,
        flags: class.flags,
        above: Some(above),
        interfaces,
        fields,
        methods,
    })
}

/// The headers of the classes that the machine has.
fn headers_of_runtime(alloc: Global) -> Result<Items<Header>, NoMemory>
    ensures { IfOk result (λ made. made ≡ map own_header runtime_classes) }
{
    let mut made = Items::new(alloc);
    for class in runtime_classes() {
        made.push(header_of_own(alloc, *class)?)?;
    }
    Ok(made)
}

/// The headers of the classes that need no class file.
#[tactic(auto, using(crate::proofs::Names::int_array_name, crate::proofs::Names::object_array_name), unfolding(crate::specs::Headers::own_headers))]
fn headers_of_own(alloc: Global) -> Result<Items<Header>, NoMemory>
    ensures { IfOk result (λ made. made ≡ own_headers) }
{
    let mut made = headers_of_runtime(alloc)?;
    made.push(header_of_array(alloc, b"[I")?)?;
    made.push(header_of_array(alloc, b"[Ljava/lang/Object;")?)?;
    Ok(made)
}

/// The headers of all classes: those of the machine, the two of arrays, and those of class files, in order.
pub fn all_headers(alloc: Global, classes: &[ClassFile]) -> Result<ClassTable, NoMemory>
    ensures { IfOk result (λ made. made ≡ headers_of (map class_seen classes.now)) }
{
    let mut made = headers_of_own(alloc)?;
    for class in classes {
        made.push(header_of_file(alloc, class)?)?;
    }
    ClassTable::of(alloc, made)
}
