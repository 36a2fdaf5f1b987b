//! The class with its interfaces and fields.

use crate::errors::Unbuilt;
use crate::methods::methods;
use crate::pool::{name, pool};
use class_writer::write;
use jvm_class::well_formed;
use jvm_class_types::{ClassFile, ClassFlags, Field, FieldFlags};
use kt_base::Name;
use std::alloc::Global;

/// The fields, one of each type: whether it is final, its name and its descriptor.
fn field_rows() -> [(FieldFlags, &'static str, &'static str); 7] {
    [
        (FieldFlags::Variable, "count", "I"),
        (FieldFlags::Final, "size", "J"),
        (FieldFlags::Variable, "open", "Z"),
        (FieldFlags::Final, "first", "C"),
        (FieldFlags::Variable, "cells", "[I"),
        (FieldFlags::Variable, "all", "[Ljava/lang/Object;"),
        (FieldFlags::Final, "next", "La/Whole;"),
    ]
}

fn field(
    alloc: Global,
    flags: FieldFlags,
    field_name: &str,
    descriptor: &str,
) -> Result<Field, Unbuilt> {
    let field_name = name(alloc, field_name)?;
    let descriptor = name(alloc, descriptor)?;
    Ok(Field {
        flags,
        name: field_name,
        descriptor,
    })
}

fn fields(alloc: Global) -> Result<Vec<Field>, Unbuilt> {
    let mut fields = Vec::new(alloc);
    for (flags, field_name, descriptor) in field_rows() {
        fields.push(field(alloc, flags, field_name, descriptor)?)?;
    }
    Ok(fields)
}

fn interfaces(alloc: Global) -> Result<Vec<Name>, Unbuilt> {
    let mut interfaces = Vec::new(alloc);
    for interface in ["a/Shape", "java/lang/Runnable"] {
        interfaces.push(name(alloc, interface)?)?;
    }
    Ok(interfaces)
}

/// A class with these fields.
fn with_fields(alloc: Global, fields: Vec<Field>) -> Result<ClassFile, Unbuilt> {
    let pool = pool(alloc)?;
    let class_name = name(alloc, "a/Whole")?;
    let super_class = name(alloc, "java/lang/Object")?;
    let interfaces = interfaces(alloc)?;
    Ok(ClassFile {
        pool,
        flags: ClassFlags::Abstract,
        name: class_name,
        super_class,
        interfaces,
        fields,
        methods: methods(alloc)?,
    })
}

/// The class file of the class.
pub(crate) fn class_bytes(alloc: Global) -> Result<Vec<u8>, Unbuilt> {
    let class = with_fields(alloc, fields(alloc)?)?;
    if well_formed(&class) {
        Ok(write(alloc, &class)?)
    } else {
        Err(Unbuilt::Class)
    }
}
