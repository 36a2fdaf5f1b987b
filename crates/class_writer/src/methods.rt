//! Methods (JVMS SE 8 §4.6).

ghost use Rattle.class_writer.specs.Parts.{attributes};
ghost use Rattle.jvm_class_formats.specs.Formats.{counted};
ghost use Rattle.jvm_class_grammar.specs.Grammar as grammar;
ghost use Rattle.jvm_class_types.specs.Seen.{code_seen, method_seen};
ghost use Rattle.jvm_pieces.specs.Pieces.{pieces};
ghost use Rattle.std.specs.List.{flat_map, AllByRecursion};
ghost use Rattle.std.specs.Prelude.{◌≡◌, ◌++◌, map, option_map, OnOk};

use crate::bodies::put_code;
use class_writer_members::items::{put_half, put_text};
use jvm_class_start::start_types;
use jvm_class_types::{Code, Method, MethodFlags};
use jvm_pool::Pool;
use kt_base::{Name, NoMemory};
use std::alloc::Global;

/// Appends the one attribute of a method that isn't abstract.
fn put_some_code(
    code: &Option<Code>,
    method: &Method,
    class: &Name,
    pool: &Pool,
    alloc: Global,
    into: &mut Vec<u8>,
) -> Result<(), NoMemory>
    requires { (grammar.some_code pool.now
        (grammar.at_start class.now method.now.flags method.now.name method.now.descriptor)).allows
        (option_map code_seen code.now) }
    ensures { OnOk result (into.new.items ≡ into.old.items
        ++ pieces pool.now ((grammar.some_code pool.now
        (grammar.at_start class.now method.now.flags method.now.name method.now.descriptor)).spell
        (option_map code_seen code.now))) }
{
    match code {
        Some(code) => {
            let start = start_types(alloc, class, method.flags, &method.name, &method.descriptor)?;
            put_half(1, into)?;
            put_code(code, &start, pool, alloc, into)
        }
        None => unreachable!(),
    }
}

/// Appends that a method has no attributes.
fn put_no_code(code: &Option<Code>, pool: &Pool, into: &mut Vec<u8>) -> Result<(), NoMemory>
    requires { (grammar.no_code pool.now).allows (option_map code_seen code.now) }
    ensures { OnOk result (into.new.items ≡ into.old.items
        ++ pieces pool.now ((grammar.no_code pool.now).spell (option_map code_seen code.now))) }
{
    match code {
        None => put_half(0, into),
        Some(_) => unreachable!(),
    }
}

/// Appends the attributes of a method: none of an abstract one, and else its code.
fn put_attributes(
    method: &Method,
    class: &Name,
    pool: &Pool,
    alloc: Global,
    into: &mut Vec<u8>,
) -> Result<(), NoMemory>
    requires { (attributes pool.now class.now (method_seen method.now)).allows (method_seen method.now).code }
    ensures { OnOk result (into.new.items ≡ into.old.items
        ++ pieces pool.now ((attributes pool.now class.now (method_seen method.now)).spell
        (method_seen method.now).code)) }
{
    match method.flags {
        MethodFlags::Abstract => put_no_code(&method.code, pool, into),
        MethodFlags::Instance | MethodFlags::Static => {
            put_some_code(&method.code, method, class, pool, alloc, into)
        }
    }
}

/// Appends a method of a class.
fn put_method(
    method: &Method,
    class: &Name,
    pool: &Pool,
    alloc: Global,
    into: &mut Vec<u8>,
) -> Result<(), NoMemory>
    requires { (grammar.method pool.now class.now).allows (method_seen method.now) }
    ensures { OnOk result (into.new.items ≡ into.old.items
        ++ pieces pool.now ((grammar.method pool.now class.now).spell (method_seen method.now))) }
{
    put_half(method.flags.number(), into)?;
    put_text(&method.name, pool, alloc, into)?;
    put_text(&method.descriptor, pool, alloc, into)?;
    put_attributes(method, class, pool, alloc, into)?;
    Ok(())
}

/// Appends each of these methods.
fn put_each(
    methods: &[Method],
    class: &Name,
    pool: &Pool,
    alloc: Global,
    into: &mut Vec<u8>,
) -> Result<(), NoMemory>
    requires { AllByRecursion (grammar.method pool.now class.now).allows (map method_seen methods.now) }
    ensures { OnOk result (into.new.items ≡ into.old.items
        ++ pieces pool.now (flat_map (grammar.method pool.now class.now).spell (map method_seen methods.now))) }
{
    for method in methods {
        put_method(method, class, pool, alloc, into)?;
    }
    Ok(())
}

/// Appends the methods of a class behind their number.
pub(crate) fn put_methods(
    methods: &[Method],
    class: &Name,
    pool: &Pool,
    alloc: Global,
    into: &mut Vec<u8>,
) -> Result<(), NoMemory>
    requires { (counted (grammar.method pool.now class.now)).allows (map method_seen methods.now) }
    ensures { OnOk result (into.new.items ≡ into.old.items
        ++ pieces pool.now ((counted (grammar.method pool.now class.now)).spell (map method_seen methods.now))) }
{
    put_half(methods.len() as u16, into)?;
    put_each(methods, class, pool, alloc, into)?;
    Ok(())
}
